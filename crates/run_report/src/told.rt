ghost use Rattle.std.specs.Prelude.{◌≡◌, ℕ, ◌++◌, IfOk, OnOk, None, nat_eq, option_map, reverse, string_bytes};
ghost use Rattle.std.specs.HashMap.{get};
ghost use Rattle.std.specs.List.{position_from};
ghost use Rattle.run_report.specs.Answers.{answers};
ghost use Rattle.run_report.specs.Ends.{is_ended};
ghost use Rattle.run_report.specs.Found.{kept};
ghost use Rattle.run_report.specs.Reports.{answers_text, line_answer, report_text, said, wave_text};
ghost use Rattle.run_report.specs.Words.{words_of};

use crate::answer::{Answer, answer_of};
use crate::ends::Ends;
use crate::entry_lines::push_lines;
use crate::losses::find_ends;
use crate::places::{Places, first_answers};
use base_types::NoMemory;
use journal::{Entry, Journal};
use script_text::{Item, Script, Wave};
use std::alloc::Global;

/// The report of a run: a line for each statement or control line with an answer, in the order of the
/// script. Where the journal is asked for, a line for each of its entries follows.
pub fn report(
    alloc: Global,
    script: &Script,
    journal: &Journal,
    with_journal: bool,
) -> Result<Vec<u8>, NoMemory>
    ensures { IfOk result (λ text. text.items ≡ report_text script.now journal.now with_journal) }
{
    let waves = script.waves().as_slice();
    let mut text = tell_waves(alloc, waves, journal)?;
    if with_journal {
        push_lines(&mut text, script, journal.as_slice())?;
    }
    Ok(text.into_bytes())
}

/// Tells the lines of a script's waves that have an answer.
pub(crate) fn tell_waves(
    alloc: Global,
    waves: &[Wave],
    journal: &Journal,
) -> Result<String, NoMemory>
    ensures { IfOk result (λ text. string_bytes text ≡ answers_text waves.now journal.now (reverse journal.now)) }
{
    let journal = journal.as_slice();
    let places = first_answers(alloc, journal)?;
    let ends = find_ends(alloc, waves, journal, &places)?;
    let sources = Sources {
        journal,
        places: &places,
        ends: &ends,
    };
    let mut text = String::new(alloc);
    for (number, wave) in waves.iter().enumerate() {
        push_wave(&mut text, &sources, number, wave.as_slice())?;
    }
    Ok(text)
}

/// What answers the lines of a script.
#[derive(Clone, Copy)]
struct Sources<'a> {
    journal: &'a [Entry],
    places: &'a Places,
    ends: &'a Ends,
}

/// Tells the lines of a wave that have an answer.
fn push_wave(
    text: &mut String,
    sources: &Sources<'_>,
    wave: usize,
    lines: &[(u32, Item)],
) -> Result<(), NoMemory>
    requires { (line : ℕ) → get nat_eq sources.now.places.now line ≡ position_from (answers line) 0 sources.now.journal.now }
    ensures { OnOk result (string_bytes text.new ≡
        string_bytes text.old ++ wave_text sources.now.journal.now (kept sources.now.ends.now) wave lines.now) }
{
    for (line, item) in lines {
        if let Some(answer) = answer_at(sources, wave, *line, item) {
            writeln!(text, "{line}: {answer}")?;
        }
    }
    Ok(())
}

/// The answer of a line.
fn answer_at<'a>(sources: &Sources<'a>, wave: usize, line: u32, item: &Item) -> Option<Answer<'a>>
    requires { (line : ℕ) → get nat_eq sources.now.places.now line ≡ position_from (answers line) 0 sources.now.journal.now }
    ensures { option_map words_of result ≡ line_answer sources.now.journal.now (kept sources.now.ends.now) wave (line, item.now) }
{
    match sources.places.get(&line) {
        Some(at) => answer_of(item, &sources.journal[*at]),
        None => end_answer(sources, wave, item),
    }
}

/// The answer of a line that an instance's end answers.
fn end_answer<'a>(sources: &Sources<'a>, wave: usize, item: &Item) -> Option<Answer<'a>>
    ensures { option_map words_of result ≡ said item.now None (is_ended (kept sources.now.ends.now) wave item.now) }
{
    if sources.ends.answer(wave, item) {
        Some(Answer::Word("ended"))
    } else {
        None
    }
}
