ghost use Rattle.std.specs.Prelude.{◌≡◌, ◌≤◌, IfSome};
ghost use Rattle.std.specs.Char.{is_ascii_digit};
ghost use Rattle.std.specs.List.{list_all};
ghost use Rattle.cli_words.specs.Numbers.{is_numeral, number_up_to};

/// How many digits a number has at most.
const DIGITS: usize = 19;

fn are_digits(bytes: &[u8]) -> bool
    ensures { result ≡ list_all is_ascii_digit bytes.now }
{
    bytes.iter().all(|b| b.is_ascii_digit())
}

fn is_numeral(word: &[u8]) -> bool
    ensures { result ≡ is_numeral word.now }
{
    !word.is_empty() && word.len() <= DIGITS && are_digits(word)
}

/// The number that a text writes, where it is a numeral and the number at most this.
pub(crate) fn number_up_to(most: u64, text: &str) -> Option<u64>
    ensures number { result ≡ number_up_to most text.now }
    ensures bound { IfSome result (λ number. number ≤ most) }
{
    if !is_numeral(text.as_bytes()) {
        return None;
    }
    match text.parse::<u64>() {
        Ok(number) if number <= most => Some(number),
        _ => None,
    }
}
