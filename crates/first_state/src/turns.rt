//! The lines of a session.

ghost use Rattle.std.specs.Prelude.{◌≡◌, ◌<◌, ◌^◌, ◌++◌, find, is_some, length, IfOk, OnOk};
ghost use Rattle.std.specs.List.{enumerate_from, flat_map};
ghost use Rattle.std.specs.Option.{option_copied};
ghost use Rattle.first_state.specs.Lines.{first_stmt, has_stmt, held_behind, held_until, if_has_stmt, is_stmt_of, line_is, lines_at, reader_in, session_lines, until_at, until_in, wave_lines};

use crate::asking::asks_of;
use base_types::NoMemory;
use inst_state::{Line, Table};
use script_text::{Item, Wave};
use std::alloc::Global;

/// What the lines of a session in a wave have in common.
#[derive(Clone, Copy, Debug, PartialEq, Eq)]
pub struct Turn {
    pub session: u16,
    /// The wave, counted from 1.
    pub wave: u32,
    /// The first of the lines.
    pub first: Option<u32>,
    /// The session for which the first line waits once it has started.
    pub until: Option<u16>,
    /// The session behind whose start they wait.
    pub behind: Option<u16>,
}

fn is_stmt_of(z: u16, item: &Item) -> bool
    ensures { result ≡ is_stmt_of z item.now }
{
    match item {
        Item::Stmt { session, .. } => *session == z,
        _ => false,
    }
}

fn held_until(z: u16, item: &Item) -> Option<u16>
    ensures { result ≡ held_until z item.now }
{
    match item {
        Item::Hold { reader, until } => { if *reader == z { Some(*until) } else { None } }
        _ => None,
    }
}

fn held_behind(z: u16, item: &Item) -> Option<u16>
    ensures { result ≡ held_behind z item.now }
{
    match item {
        Item::Hold { reader, until } => { if *until == z { Some(*reader) } else { None } }
        _ => None,
    }
}

fn line_of_until(z: u16, wave: &[(u32, Item)]) -> Option<&(u32, Item)>
    ensures { option_copied result ≡ find (λ line. is_some (held_until z line.1)) wave.now }
{
    wave.iter().find(|line| held_until(z, &line.1).is_some())
}

fn until_in(z: u16, wave: &[(u32, Item)]) -> Option<u16>
    ensures { result ≡ until_in z wave.now }
{
    match line_of_until(z, wave) {
        Some(line) => held_until(z, &line.1),
        None => None,
    }
}

fn line_of_reader(z: u16, wave: &[(u32, Item)]) -> Option<&(u32, Item)>
    ensures { option_copied result ≡ find (λ line. is_some (held_behind z line.1)) wave.now }
{
    wave.iter().find(|line| held_behind(z, &line.1).is_some())
}

fn reader_in(z: u16, wave: &[(u32, Item)]) -> Option<u16>
    ensures { result ≡ reader_in z wave.now }
{
    match line_of_reader(z, wave) {
        Some(line) => held_behind(z, &line.1),
        None => None,
    }
}

fn has_stmt(wave: &[(u32, Item)], z: u16) -> bool
    ensures { result ≡ has_stmt wave.now z }
{
    wave.iter().any(|line| is_stmt_of(z, &line.1))
}

fn if_has_stmt(wave: &[(u32, Item)], session: Option<u16>) -> Option<u16>
    ensures { result ≡ if_has_stmt wave.now session }
{
    match session {
        Some(z) => { if has_stmt(wave, z) { Some(z) } else { None } }
        None => None,
    }
}

fn first_stmt(z: u16, wave: &[(u32, Item)]) -> Option<u32>
    ensures { result ≡ first_stmt z wave.now }
{
    wave.iter()
        .find(|line| is_stmt_of(z, &line.1))
        .map(|line| line.0)
}

fn line_is(line: u32, first: Option<u32>) -> bool
    ensures { result ≡ line_is line first }
{
    match first {
        Some(first) => first == line,
        None => false,
    }
}

fn until_at(turn: &Turn, line: u32) -> Option<u16>
    ensures { result ≡ until_at turn.now line }
{
    if line_is(line, turn.first) {
        turn.until
    } else {
        None
    }
}

// Adds the line that an item gives the session.
fn add_line(
    alloc: Global,
    turn: &Turn,
    line: &(u32, Item),
    lines: &mut Table<Line>,
) -> Result<(), NoMemory>
    ensures { OnOk result (lines.new ≡ lines.old ++ lines_at turn.now line.now) }
{
    if let Item::Stmt { session, what } = &line.1 {
        if *session == turn.session {
            let asks = asks_of(alloc, what)?;
            lines.push(Line {
                stmt: line.0,
                wave: turn.wave,
                asks,
                until: until_at(turn, line.0),
                behind: turn.behind,
            })?;
        }
    }
    Ok(())
}

fn add_each(
    alloc: Global,
    turn: &Turn,
    wave: &[(u32, Item)],
    lines: &mut Table<Line>,
) -> Result<(), NoMemory>
    ensures { OnOk result (lines.new ≡ lines.old ++ flat_map (lines_at turn.now) wave.now) }
{
    for line in wave {
        add_line(alloc, turn, line, lines)?;
    }
    Ok(())
}

// Adds the lines of a session in a wave.
fn add_wave(
    alloc: Global,
    z: u16,
    number: u32,
    wave: &[(u32, Item)],
    lines: &mut Table<Line>,
) -> Result<(), NoMemory>
    ensures { OnOk result (lines.new ≡ lines.old ++ wave_lines z (number, wave.now)) }
{
    let turn = Turn {
        session: z,
        wave: number,
        first: first_stmt(z, wave),
        until: until_in(z, wave),
        behind: if_has_stmt(wave, reader_in(z, wave)),
    };
    add_each(alloc, &turn, wave, lines)
}

/// The lines of a session.
pub(crate) fn session_lines(alloc: Global, z: u16, waves: &[Wave]) -> Result<Table<Line>, NoMemory>
    requires { length waves.now < 2 ^ 32 }
    ensures { IfOk result (λ lines. lines ≡ session_lines z (enumerate_from 1 waves.now)) }
{
    let mut lines = Table::new(alloc);
    for (at, wave) in waves.iter().enumerate() {
        add_wave(alloc, z, (at + 1) as u32, wave.as_slice(), &mut lines)?;
    }
    Ok(lines)
}
