ghost use Rattle.std.specs.Prelude.{◌≡◌, ◌++◌, codes, IfOk, OnOk, string_bytes};
ghost use Rattle.load_script.specs.Scripts.{behind_turns, filling_text, head_text, load_text, opening_text, fillings_text, put_text, puts_text, rounds_text, scan_text, turn_text, turns_text, words_of};
ghost use Rattle.load_script.specs.Transfers.{behind};

use crate::transfers::{Transfer, row_of};
use base_types::NoMemory;
use rand_pcg::Lcg64Xsh32;
use std::alloc::Global;
use std::fmt::Write;

#[tactic(auto, unfolding(crate::specs::Scripts::head_text))]
fn push_head(text: &mut String, seed: u64) -> Result<(), NoMemory>
    ensures { OnOk result (string_bytes text.new ≡ string_bytes text.old ++ head_text seed) }
{
    write!(
        text,
        "instances 3\nblocks 8\nundo 64\ncache 16\nseed {seed}\nsession s0 on 0\nsession s1 on 1\nsession s2 on 2\nsession s3 on 0\n"
    )?;
    Ok(())
}

#[tactic(auto, unfolding(crate::specs::Scripts::put_text))]
fn push_put(text: &mut String, session: u8, place: u32) -> Result<(), NoMemory>
    ensures { OnOk result (string_bytes text.new ≡ string_bytes text.old ++ put_text session place) }
{
    let row = row_of(session, place);
    writeln!(text, "s{session}: put {row} 100")?;
    Ok(())
}

#[tactic(auto, unfolding(crate::specs::Scripts::puts_text))]
fn push_puts(text: &mut String, session: u8, count: u32) -> Result<(), NoMemory>
    ensures { OnOk result (string_bytes text.new ≡ string_bytes text.old ++ puts_text session count) }
{
    for place in 0..count {
        push_put(text, session, place)?;
    }
    Ok(())
}

#[tactic(auto, unfolding(crate::specs::Scripts::filling_text))]
fn push_filling(text: &mut String, session: u8) -> Result<(), NoMemory>
    ensures { OnOk result (string_bytes text.new ≡ string_bytes text.old ++ filling_text session) }
{
    push_puts(text, session, 16)?;
    writeln!(text, "s{session}: commit")?;
    Ok(())
}

#[tactic(auto, unfolding(crate::specs::Scripts::fillings_text))]
fn push_fillings(text: &mut String, count: u8) -> Result<(), NoMemory>
    ensures { OnOk result (string_bytes text.new ≡ string_bytes text.old ++ fillings_text count) }
{
    for session in 0..count {
        push_filling(text, session)?;
    }
    Ok(())
}

#[tactic(auto, unfolding(crate::specs::Scripts::opening_text))]
fn push_opening(text: &mut String) -> Result<(), NoMemory>
    ensures { OnOk result (string_bytes text.new ≡ string_bytes text.old ++ opening_text) }
{
    push_fillings(text, 4)?;
    text.push_str("go\n")?;
    Ok(())
}

#[tactic(auto, unfolding(crate::specs::Scripts::scan_text))]
fn push_scan(text: &mut String, session: u8) -> Result<(), NoMemory>
    ensures { OnOk result (string_bytes text.new ≡ string_bytes text.old ++ scan_text session) }
{
    writeln!(text, "s{session}: scan 0 63")?;
    Ok(())
}

/// Adds what a session does in a round.
#[tactic(auto, unfolding(crate::specs::Scripts::turn_text))]
fn push_turn(
    text: &mut String,
    round: u32,
    session: u8,
    words: &mut Lcg64Xsh32,
) -> Result<(), NoMemory>
    ensures text { OnOk result (string_bytes text.new ≡ string_bytes text.old ++ turn_text round session words.old) }
    ensures words { OnOk result (words.new ≡ behind words.old) }
{
    if round % 4 == u32::from(session) {
        push_scan(text, session)?;
    }
    let transfer = Transfer::draw(session, words);
    write!(text, "{transfer}")?;
    Ok(())
}

/// Adds what the four sessions do in a round.
#[tactic(auto, unfolding(crate::specs::Scripts::turns_text, crate::specs::Scripts::behind_turns))]
fn push_turns(text: &mut String, round: u32, words: &mut Lcg64Xsh32) -> Result<(), NoMemory>
    ensures text { OnOk result (string_bytes text.new ≡ string_bytes text.old ++ turns_text round 0 4 words.old) }
    ensures words { OnOk result (words.new ≡ behind_turns 4 words.old) }
{
    for session in 0..4 {
        push_turn(text, round, session, words)?;
    }
    Ok(())
}

/// Adds a round, in which each session has its turn.
fn push_round(text: &mut String, round: u32, words: &mut Lcg64Xsh32) -> Result<(), NoMemory>
    ensures text { OnOk result (string_bytes text.new ≡ string_bytes text.old ++ (turns_text round 0 4 words.old ++ codes "go\n")) }
    ensures words { OnOk result (words.new ≡ behind_turns 4 words.old) }
{
    push_turns(text, round, words)?;
    text.push_str("go\n")?;
    Ok(())
}

#[tactic(auto, unfolding(crate::specs::Scripts::rounds_text))]
fn push_rounds(text: &mut String, rounds: u32, words: &mut Lcg64Xsh32) -> Result<(), NoMemory>
    ensures { OnOk result (string_bytes text.new ≡ string_bytes text.old ++ rounds_text 0 rounds words.old) }
{
    for round in 0..rounds {
        push_round(text, round, words)?;
    }
    Ok(())
}

/// The script of a load of so many rounds. On three instances four sessions, two of them on one instance, fill sixteen rows
/// each with 100. In each round each of them transfers between two of its rows and takes that back in about one of four
/// cases, by the words of a generator of the seed, and one of them reads all rows first. At the end all rows are read: no
/// two sessions change one row, so their sum is 6400.
///
/// # Errors
///
/// There is no memory for the text.
pub fn load_script(alloc: Global, seed: u64, rounds: u32) -> Result<Vec<u8>, NoMemory>
    ensures { IfOk result (λ text. text.items ≡ load_text seed rounds) }
{
    let mut text = String::new(alloc);
    let mut words = Lcg64Xsh32::new(seed, 54);
    push_head(&mut text, seed)?;
    push_opening(&mut text)?;
    push_rounds(&mut text, rounds, &mut words)?;
    push_scan(&mut text, 0)?;
    Ok(text.into_bytes())
}
