ghost use Rattle.std.specs.Prelude.{◌≡◌, IfOk, string_bytes};
ghost use Rattle.std.specs.Option.{option_map};
ghost use Rattle.rac_program.specs.Notes.{line_of, rule_text};

use rac_top::End;
use script_text::Rule;
use std::alloc::{AllocError, Global};

/// What the words may be.
const USAGE: &str =
    "usage: rac run [--journal] [--steps] [--check] [--disk FOLDER] | audit --disk FOLDER";

/// A rule as it is told.
fn rule_word(rule: Rule) -> &'static str
    ensures { result.now ≡ rule_text rule }
{
    match rule {
        Rule::Lines => "lines",
        Rule::Long => "long",
        Rule::Byte => "byte",
        Rule::Word => "word",
        Rule::Name => "name",
        Rule::Number => "number",
        Rule::Range => "range",
        Rule::Order => "order",
        Rule::Session => "session",
        Rule::Twice => "twice",
    }
}

/// The line that standard error gets of how a call ended: why nothing was written, or not all, or what ended the run.
/// `None` where all was well.
pub fn note_line(alloc: Global, end: &End) -> Result<Option<String>, AllocError>
    ensures { IfOk result (λ line. option_map string_bytes line ≡ line_of end.now) }
{
    match end {
        End::Done => Ok(None),
        End::WrongWords => Ok(Some(String::from_str(alloc, USAGE)?)),
        End::Refused { line, rule } => {
            let word = rule_word(*rule);
            Ok(Some(format!(in alloc; "line {line}: {word}")?))
        }
        End::ReadFault => Ok(Some(String::from_str(alloc, "read fault")?)),
        End::WriteFault => Ok(Some(String::from_str(alloc, "write fault")?)),
        End::NotCreated | End::DiskFault | End::LogsUnread => {
            Ok(Some(String::from_str(alloc, "disk fault")?))
        }
        End::NoMemory => Ok(Some(String::from_str(alloc, "no memory")?)),
        End::StepLimit { limit } => Ok(Some(format!(in alloc; "step limit {limit}")?)),
        End::BadLog { thread, place } => {
            let thread = thread.get();
            Ok(Some(format!(in alloc; "bad log {thread} at {place}")?))
        }
        End::BadDisk => Ok(Some(String::from_str(alloc, "bad disk")?)),
        End::Stuck => Ok(Some(String::from_str(alloc, "stuck")?)),
        End::NotGood => Ok(Some(String::from_str(alloc, "not good")?)),
    }
}
