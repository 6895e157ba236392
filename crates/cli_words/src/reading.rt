ghost use Rattle.std.specs.Prelude.{◌≡◌, ◌↔◌, ◌≤◌, IfOk, IfErr, IfSome, Some, None, Err, false, map, codes, option_and_then, string_bytes};
ghost use Rattle.clap.specs.Words.{first_of, found_of, rows_of};
ghost use Rattle.cli_words.specs.Numbers.{number_up_to};
ghost use Rattle.cli_words.specs.Orders.{are_known, load_from, options_from, order_from, order_in, set_in};

use crate::command::rac_command;
use crate::error::WordsError;
use crate::folder::Folder;
use crate::numbers::number_up_to;
use crate::order::{Order, RunOptions};
use clap::ArgMatches;
use clap::error::ErrorKind;
use std::alloc::Global;

/// The greatest seed of a load.
const MOST_SEED: u64 = (1 << 63) - 1;

/// The most rounds of a load.
const MOST_ROUNDS: u64 = 700;

/// The order that the words give, those after the program's name: `run [--journal] [--steps] [--check] [--disk FOLDER]`,
/// `load SEED ROUNDS [--disk FOLDER]` or `audit --disk FOLDER`. The flags stand in any order, each at most once, and a
/// folder also as `--disk=FOLDER`: so alone where its name begins with `-`. A seed is 1 to 19 digits and below 2^63, and
/// there are 700 rounds at most.
///
/// # Errors
///
/// `Usage` where the words are none of these; `NoMemory` may come at any words.
pub fn read_words(alloc: Global, words: &[String]) -> Result<Order, WordsError>
    ensures order { IfOk result (λ order. order_in (map string_bytes words.now) ≡ Some order) }
    ensures usage { result ≡ Err WordsError.Usage → order_in (map string_bytes words.now) ≡ None }
    ensures refused { result ≡ Err WordsError.Usage → are_known (map string_bytes words.now) ≡ false }
{
    let command = rac_command(alloc)?;
    match command.try_get_matches_from(words) {
        Ok(matches) => match matches.subcommand() {
            Some((name, given)) => order_given(alloc, name, given),
            None => Err(WordsError::Usage),
        },
        Err(error) => Err(error_of(error.kind())),
    }
}

fn error_of(kind: ErrorKind) -> WordsError
    ensures { (result ≡ WordsError.NoMemory) ↔ (kind ≡ ErrorKind.OutOfMemory) }
{
    match kind {
        ErrorKind::OutOfMemory => WordsError::NoMemory,
        _ => WordsError::Usage,
    }
}

/// The order that the subcommand `name` gives with these matches.
fn order_given(alloc: Global, name: &str, given: &ArgMatches) -> Result<Order, WordsError>
    ensures order { IfOk result (λ order. order_from name.now (rows_of (found_of given.now)) ≡ Some order) }
    ensures usage { result ≡ Err WordsError.Usage → order_from name.now (rows_of (found_of given.now)) ≡ None }
{
    match name {
        "run" => Ok(Order::Run {
            options: options_given(given),
            folder: folder_given(alloc, given)?,
        }),
        "load" => load_given(alloc, given),
        "audit" => match folder_given(alloc, given)? {
            Some(folder) => Ok(Order::Audit { folder }),
            None => Err(WordsError::Usage),
        },
        _ => Err(WordsError::Usage),
    }
}

/// What the run is to do beside its report.
fn options_given(given: &ArgMatches) -> RunOptions
    ensures { result ≡ options_from (rows_of (found_of given.now)) }
{
    RunOptions {
        journal: is_set(given, "journal"),
        steps: is_set(given, "steps"),
        check: is_set(given, "check"),
    }
}

fn is_set(given: &ArgMatches, flag: &str) -> bool
    ensures { result ≡ set_in flag.now (rows_of (found_of given.now)) }
{
    given.get_one::<bool>(flag).unwrap_or(false)
}

/// The load that its matches give.
fn load_given(alloc: Global, given: &ArgMatches) -> Result<Order, WordsError>
    ensures order { IfOk result (λ order. load_from (rows_of (found_of given.now)) ≡ Some order) }
    ensures usage { result ≡ Err WordsError.Usage → load_from (rows_of (found_of given.now)) ≡ None }
{
    let Some(seed) = number_given(given, "seed", MOST_SEED) else {
        return Err(WordsError::Usage);
    };
    let Some(rounds) = number_given(given, "rounds", MOST_ROUNDS) else {
        return Err(WordsError::Usage);
    };
    Ok(Order::Load {
        seed,
        rounds: rounds as u32,
        folder: folder_given(alloc, given)?,
    })
}

/// The number in a place of a load, where it is spelled and at most this.
fn number_given(given: &ArgMatches, place: &str, most: u64) -> Option<u64>
    ensures number { result ≡ option_and_then (number_up_to most) (first_of place.now (rows_of (found_of given.now))) }
    ensures bound { IfSome result (λ number. number ≤ most) }
{
    match given.get_str(place) {
        Some(text) => number_up_to(most, text),
        None => None,
    }
}

fn folder_given(alloc: Global, given: &ArgMatches) -> Result<Option<Folder>, WordsError>
    ensures folder { IfOk result (λ folder. folder ≡ first_of (codes "disk") (rows_of (found_of given.now))) }
    ensures memory { IfErr result (λ error. error ≡ WordsError.NoMemory) }
{
    match given.get_str("disk") {
        Some(name) => Ok(Some(Folder::new(alloc, name)?)),
        None => Ok(None),
    }
}
