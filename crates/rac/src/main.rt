//! `rac run [--journal] [--steps] [--check] [--disk FOLDER]` runs the script on standard input by all its instances and
//! writes its report to standard output, with its disk in a folder, or else in memory. The journal stands behind the
//! report with `--journal`, the steps of the run behind that with `--steps`; with `--check` nothing is written where the
//! journal isn't good. `rac audit --disk FOLDER` writes the history that the redo logs of a folder's disk tell.
#![tactic(auto)]

ghost use Rattle.std.specs.Prelude.{◌≡◌, [], ◌⊎◌};

use rac_io::{StdSink, StdSource};
use rac_program::{note_line, program};
use rac_top::{End, Exit};
use std::process::ExitCode;
use std::rt::Env;
use std::{env, io};

/// The words after the program's name.
fn words_given<R: Env + AllocGlobal>(rt: &R) -> io::Result<Vec<String>> {
    Ok(env::args(rt)?.skip(1).collect(rt.alloc())?)
}

/// The exit where the words could not be had: for want of memory, or since one of them is no text.
fn exit_without_words<R: AllocGlobal>(rt: &R, why: io::Error) -> Exit
    ensures end { (result.end ≡ End.NoMemory) ⊎ (result.end ≡ End.WrongWords) }
    ensures silent { (result.journal ≡ []) × (result.book ≡ []) }
{
    match why.kind() {
        io::ErrorKind::OutOfMemory => Exit::without_run(rt.alloc(), End::NoMemory),
        _ => Exit::without_run(rt.alloc(), End::WrongWords),
    }
}

/// Does what the words ask, with standard input and output.
fn exit_of(rt: &HostRuntime) -> Exit {
    match words_given(rt) {
        Ok(words) => {
            let mut source = StdSource::new(rt.stdin());
            let mut sink = StdSink::new(rt.stdout());
            program(rt, words.as_slice(), &mut source, &mut sink)
        }
        Err(why) => exit_without_words(rt, why),
    }
}

fn main(rt: HostRuntime) -> ExitCode {
    let exit = exit_of(&rt);
    // Where standard error can't be written, nobody is left to be told.
    if let Ok(Some(line)) = note_line(rt.alloc(), &exit.end) {
        let _ = rt.eprintln(line);
    }
    ExitCode::from(exit.end.status())
}
