ghost use Rattle.std.specs.Prelude.{◌≡◌, ◌<◌, Some};
ghost use Rattle.load_script.specs.Transfers.{behind, drawn, end_text, row_of, transfer_text};

use rand_core::utils::NextWord;
use rand_pcg::Lcg64Xsh32;
use std::fmt;

/// A transaction of a session, which takes an amount from one of its rows and adds it to one.
#[derive(Clone, Copy)]
pub(crate) struct Transfer {
    session: u8,
    from: u32,
    to: u32,
    amount: u32,
    is_taken_back: bool,
}

/// The row of a session's sixteen that a word names.
pub(crate) fn row_of(session: u8, word: u32) -> u32
    ensures { result ≡ row_of session word }
{
    4 * (word % 16) + u32::from(session)
}

impl Transfer {
    /// The transfer that the next four words say.
    #[tactic(auto, unfolding(crate::specs::Transfers::drawn, crate::specs::Transfers::behind, crate::specs::Transfers::transfer_by))]
    pub(crate) fn draw(session: u8, words: &mut Lcg64Xsh32) -> Transfer
        ensures drawn { result ≡ drawn session words.old }
        ensures words { words.new ≡ behind words.old }
    {
        let from = words.next_word();
        let to = words.next_word();
        let amount = words.next_word();
        let end = words.next_word();
        Transfer {
            session,
            from: row_of(session, from),
            to: row_of(session, to),
            amount: 1 + amount % 9,
            is_taken_back: end % 4 == 0,
        }
    }
}

fn end_text(is_taken_back: bool) -> &'static str
    ensures { result.now ≡ end_text is_taken_back }
{
    if is_taken_back { "rollback" } else { "commit" }
}

impl fmt::Display for Transfer {
    ghost output = { λ transfer. Some (transfer_text transfer) };

    fn fmt<W: fmt::Write>(&self, f: &mut fmt::Formatter<W>) -> fmt::Result {
        let session = self.session;
        let from = self.from;
        let to = self.to;
        let amount = self.amount;
        let end = end_text(self.is_taken_back);
        write!(
            f,
            "s{session}: add {from} -{amount}\ns{session}: add {to} {amount}\ns{session}: {end}\n"
        )
    }
}
