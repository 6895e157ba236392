//! Runs the scripts of a table over disks in memory, and tells of each whether it gives what stands beside it, whatever
//! numbers stand in it for `N` and `M`; then the stored runs of its folder, with their faults, journals and steps.
#![tactic(auto)]

mod rows;
mod stored;

use base_types::NoMemory;
use cli_words::RunOptions;
use rac_disk::MemDisk;
use rac_io::{MemSink, MemSource};
use rac_top::{End, run};
use rows::{ROWS, Row, RowEnd};
use std::alloc::{AllocError, Global};
use std::io;
use std::process::ExitCode;
use stored::{STORED, is_as_stored};
use world_machine::Nobody;

/// The blocks of a disk.
const BLOCKS: u16 = 200;

/// The room of each of its logs, in bytes.
const LOG_BYTES: u64 = 65_536;

/// The room for what a run writes, in bytes.
const SINK_BYTES: usize = 65_536;

/// A text with numbers in the places of `N` and `M`.
fn filled(alloc: Global, text: &str, n: u32, m: u32) -> Result<String, AllocError> {
    let mut filled = String::new(alloc);
    for letter in text.chars() {
        match letter {
            'N' => write!(filled, "{n}")?,
            'M' => write!(filled, "{m}")?,
            _ => filled.push(letter)?,
        }
    }
    Ok(filled)
}

/// A disk on which the call of a row fails.
fn disk_for(alloc: Global, row: &Row) -> Result<MemDisk, NoMemory> {
    let mut plan = Vec::new(alloc);
    if let Some(call) = row.fault {
        plan.push(call)?;
    }
    MemDisk::new(alloc, BLOCKS, LOG_BYTES, plan)
}

/// The end of a run that is to end so.
fn end_of(end: RowEnd) -> End {
    match end {
        RowEnd::Done => End::Done,
        RowEnd::Refused { line, rule } => End::Refused { line, rule },
        RowEnd::DiskFault => End::DiskFault,
    }
}

/// Whether a row's run ends as it should and writes what it may, with these numbers.
fn is_expected(alloc: Global, row: &Row, n: u32, m: u32) -> Result<bool, NoMemory> {
    let script = filled(alloc, row.script, n, m)?;
    let mut source = MemSource::new(script.into_bytes(), Vec::new(alloc));
    let mut sink = MemSink::new(alloc, SINK_BYTES, Vec::new(alloc))?;
    let mut disk = disk_for(alloc, row)?;
    let options = RunOptions {
        journal: row.journal,
        steps: false,
        check: true,
    };
    let exit = run(
        alloc,
        options,
        &mut source,
        &mut sink,
        &mut disk,
        &mut Nobody,
    );
    let written = sink.bytes();
    Ok(exit.end == end_of(row.end) && row.wanted.iter().any(|want| written == want.as_bytes()))
}

/// Whether a row's runs are as they should be, whatever its numbers.
fn all_expected(alloc: Global, row: &Row) -> Result<bool, NoMemory> {
    let mut all = true;
    for n in row.n.0..=row.n.1 {
        for m in row.m.0..=row.m.1 {
            all &= is_expected(alloc, row, n, m)?;
        }
    }
    Ok(all)
}

/// Tells whether a run gave what is expected.
fn tell(rt: &HostRuntime, title: &str, is_same: bool) -> io::Result<bool> {
    let outcome = if is_same { "as expected" } else { "differs" };
    println!(rt; "{title}: {outcome}")?;
    Ok(is_same)
}

/// Runs each row, and tells of it; whether all are as expected.
fn run_rows(rt: &HostRuntime) -> io::Result<bool> {
    let mut all = true;
    for row in ROWS {
        let is_same = all_expected(rt.alloc(), row).map_err(|_| AllocError)?;
        all &= tell(rt, row.title, is_same)?;
    }
    Ok(all)
}

/// Runs each stored run, and tells of it; whether all are as expected.
fn run_stored(rt: &HostRuntime) -> io::Result<bool> {
    let mut all = true;
    for name in STORED {
        let is_same = is_as_stored(rt, name)?;
        all &= tell(rt, name, is_same)?;
    }
    Ok(all)
}

fn main(rt: HostRuntime) -> io::Result<ExitCode> {
    let all = run_rows(&rt)? & run_stored(&rt)?;
    Ok(ExitCode::from(u8::from(!all)))
}
