ghost use Rattle.std.specs.Prelude.{◌≡◌, IfOk, IsOk, IsErrOf};
ghost use Rattle.std.specs.Io.KnownBytes.{IsAtEnd};
ghost use Rattle.rac_io.specs.Counts.{Counts};
ghost use Rattle.rac_io.specs.Read.{TakesUpTo};
ghost use Rattle.script_text.specs.Limits.{text_bytes};
ghost use Rattle.script_text.specs.Reading.{reading};
ghost use Rattle.script_text.specs.WellFormed.{IsWellFormed};
ghost use Rattle.rac_top.specs.Reads.{Says, SaysAll};

use crate::exit::End;
use rac_io::{ReadError, Source, read_limited};
use script_text::{Script, ScriptError, long_text_is_refused_by_its_beginning, read_script};
use std::alloc::Global;

/// Reading stops after so many bytes: a script of as many is refused.
const MOST_BYTES: usize = 2_100_000;

/// The script that a text is.
fn read_text(alloc: Global, text: &[u8]) -> Result<Script, End>
    ensures says { Says result (reading text.now) }
    ensures well_formed { IfOk result IsWellFormed }
    ensures no_fault { IsErrOf result End.ReadFault → ⊥ }
{
    match read_script(alloc, text) {
        Ok(script) => Ok(script),
        Err(ScriptError::Line { n, rule }) => Err(End::Refused { line: n, rule }),
        Err(ScriptError::NoMemory) => Err(End::NoMemory),
    }
}

/// The script that the source gives.
pub fn read<S: Source>(alloc: Global, source: &mut S) -> Result<Script, End>
    ensures says { SaysAll (S.left source.old) result }
    ensures well_formed { IfOk result IsWellFormed }
    ensures taken { TakesUpTo text_bytes (S.left source.old) (S.left source.new) }
    ensures ended { IsOk result → IsAtEnd (S.left source.new) }
    ensures faults { Counts (IsErrOf result End.ReadFault) (S.faults source.old) (S.faults source.new) }
{
    let text = match read_limited(alloc, source, MOST_BYTES) {
        Ok(text) => text,
        Err(ReadError::Fault) => return Err(End::ReadFault),
        Err(ReadError::NoMemory) => return Err(End::NoMemory),
    };
    long_text_is_refused_by_its_beginning();
    read_text(alloc, text.as_slice())
}
