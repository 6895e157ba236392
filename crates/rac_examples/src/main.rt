//! Runs the example scripts that lie in its folder, and tells of each whether it gives what stands beside it; then runs
//! the program itself over a folder, audits that, and names a folder that isn't there.
#![tactic(auto)]

ghost use Rattle.std.specs.Prelude.{◌≡◌, IsTrue, ◌↔◌};

use base_types::NoMemory;
use rac_disk::MemDisk;
use rac_io::{MemSink, MemSource};
use rac_program::program;
use rac_top::{End, Exit, rac};
use std::alloc::{AllocError, Global};
use std::process::ExitCode;
use std::rt::Files;
use std::{fs, io};
use world_machine::Nobody;

/// The blocks of a disk.
const BLOCKS: u16 = 200;

/// The room of each of its logs, in bytes.
const LOG_BYTES: u64 = 65_536;

/// The room for what a call writes, in bytes.
const SINK_BYTES: usize = 65_536;

/// The examples, by the names of their files.
const EXAMPLES: [&str; 9] = [
    "first", "waves", "redo", "ping", "reader", "remaster", "crash", "leader", "join",
];

/// The example whose redo is audited.
const AUDITED: &str = "redo";

/// Whether a call ended so, with just the wanted bytes.
fn is_expected(exit: &Exit, sink: &MemSink, end: &End, want: &[u8]) -> bool
    ensures { IsTrue result ↔ (exit.now.end ≡ end.now) × (sink.now.holds ≡ want.now) }
{
    exit.end == *end && sink.bytes() == want
}

/// The words of a call.
fn owned_words(alloc: Global, words: &[&str]) -> Result<Vec<String>, AllocError> {
    let mut owned = Vec::new(alloc);
    for word in words {
        owned.push(String::from_str(alloc, word)?)?;
    }
    Ok(owned)
}

/// Whether a call with these words, over a script and a disk, gives the wanted bytes.
fn gives(
    alloc: Global,
    words: &[&str],
    script: Vec<u8>,
    disk: &mut MemDisk,
    want: &[u8],
) -> Result<bool, NoMemory> {
    let words = owned_words(alloc, words)?;
    let mut source = MemSource::new(script, Vec::new(alloc));
    let mut sink = MemSink::new(alloc, SINK_BYTES, Vec::new(alloc))?;
    let exit = rac(
        alloc,
        words.as_slice(),
        &mut source,
        &mut sink,
        disk,
        &mut Nobody,
    );
    Ok(is_expected(&exit, &sink, &End::Done, want))
}

/// Whether a call of the program itself, over the folder that its words name, ends so with the wanted bytes.
fn program_gives<R: Files + AllocGlobal>(
    rt: &R,
    words: &[&str],
    script: Vec<u8>,
    end: &End,
    want: &[u8],
) -> Result<bool, NoMemory> {
    let alloc = rt.alloc();
    let words = owned_words(alloc, words)?;
    let mut source = MemSource::new(script, Vec::new(alloc));
    let mut sink = MemSink::new(alloc, SINK_BYTES, Vec::new(alloc))?;
    let exit = program(rt, words.as_slice(), &mut source, &mut sink);
    Ok(is_expected(&exit, &sink, end, want))
}

/// Tells whether a call gave what is expected.
fn tell<R: AllocGlobal + Print>(rt: &R, title: &str, is_same: bool) -> io::Result<bool> {
    let outcome = if is_same { "as expected" } else { "differs" };
    println!(rt; "{title}: {outcome}")?;
    Ok(is_same)
}

/// Makes a call, compares what it gives with a file, and tells of the outcome.
fn compare<R: Files + AllocGlobal + Print>(
    rt: &R,
    title: &str,
    words: &[&str],
    script: Vec<u8>,
    disk: &mut MemDisk,
    file: &str,
) -> io::Result<bool> {
    let want = fs::read(rt, file)?;
    let is_same = gives(rt.alloc(), words, script, disk, want.as_slice()).map_err(|_| AllocError)?;
    tell(rt, title, is_same)
}

/// Runs the script NAME.rac over a disk with its journal checked, and compares its report with NAME.out.
fn run_example<R: Files + AllocGlobal + Print>(
    rt: &R,
    name: &str,
    disk: &mut MemDisk,
) -> io::Result<bool> {
    let script_file = format!(in rt.alloc(); "{name}.rac")?;
    let report_file = format!(in rt.alloc(); "{name}.out")?;
    let script = fs::read(rt, script_file.as_str())?;
    compare(
        rt,
        name,
        &["run", "--check"],
        script,
        disk,
        report_file.as_str(),
    )
}

/// Audits the disk that a run left, and compares the history that its redo tells with NAME.audit.
fn audit_example<R: Files + AllocGlobal + Print>(
    rt: &R,
    name: &str,
    disk: &mut MemDisk,
) -> io::Result<bool> {
    let title = format!(in rt.alloc(); "{name}, audited")?;
    let audit_file = format!(in rt.alloc(); "{name}.audit")?;
    let words = ["audit", "--disk", "d"];
    compare(
        rt,
        title.as_str(),
        &words,
        Vec::new(rt.alloc()),
        disk,
        audit_file.as_str(),
    )
}

/// A disk for one example.
fn new_disk(alloc: Global) -> Result<MemDisk, AllocError> {
    MemDisk::new(alloc, BLOCKS, LOG_BYTES, Vec::new(alloc)).map_err(|_| AllocError)
}

/// Runs the examples, and tells whether each gives what is expected.
fn run_examples<R: Files + AllocGlobal + Print>(rt: &R) -> io::Result<bool> {
    let mut all_same = true;
    for name in EXAMPLES {
        let mut disk = new_disk(rt.alloc())?;
        all_same &= run_example(rt, name, &mut disk)?;
        if name == AUDITED {
            all_same &= audit_example(rt, name, &mut disk)?;
        }
    }
    Ok(all_same)
}

/// Runs the program itself over the folder where it is run, audits that, and names a folder that isn't there.
fn run_program<R: Files + AllocGlobal + Print>(rt: &R) -> io::Result<bool> {
    let script = fs::read(rt, "redo.rac")?;
    let report = fs::read(rt, "redo.out")?;
    let run = ["run", "--disk", "."];
    let ran = program_gives(rt, &run, script, &End::Done, report.as_slice()).map_err(
        |_| AllocError,
    )?;
    let mut all_same = tell(rt, "the program over a folder", ran)?;

    let history = fs::read(rt, "redo.audit")?;
    let audit = ["audit", "--disk", "."];
    let none = Vec::new(rt.alloc());
    let audited = program_gives(rt, &audit, none, &End::Done, history.as_slice()).map_err(
        |_| AllocError,
    )?;
    all_same &= tell(rt, "the program's audit of it", audited)?;

    let script = fs::read(rt, "redo.rac")?;
    let run_nowhere = ["run", "--disk", "missing"];
    let refused = program_gives(rt, &run_nowhere, script, &End::NotCreated, b"").map_err(
        |_| AllocError,
    )?;
    all_same &= tell(rt, "the program over no folder", refused)?;
    Ok(all_same)
}

fn main(rt: HostRuntime) -> io::Result<ExitCode> {
    let all_same = run_examples(&rt)? & run_program(&rt)?;
    Ok(ExitCode::from(u8::from(!all_same)))
}
