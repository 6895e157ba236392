ghost use Rattle.std.specs.Prelude.{◌≡◌, ◌<◌, ◌^◌, ◌++◌, filter, length, map, IfOk, OnOk};
ghost use Rattle.std.specs.List.{enumerate_from, flat_map, range_with_len};
ghost use Rattle.base_types.specs.Layout.{IsLayout};
ghost use Rattle.script_text.specs.WellFormed.{IsWellFormed};
ghost use Rattle.first_state.specs.Plan.{first_plan, is_home, layout_of, lines_of, openings_at, openings_in, parts_of};

use crate::turns::session_lines;
use base_types::{InstNo, Layout, NoMemory, Sequence};
use inst_state::{Line, Opening, Plan, Table};
use script_text::{Item, Script, Wave};
use std::alloc::Global;
use undo_segment::Handed;

/// How the disk is laid out.
pub fn layout_of(script: &Script) -> Layout
    requires { IsWellFormed script.now }
    ensures layout { result ≡ layout_of script.now }
    ensures laid_out { IsLayout result }
{
    let settings = script.settings();
    Layout {
        instances: settings.instances,
        blocks: settings.blocks,
        undo: settings.undo,
    }
}

// Whether a session is opened on an instance.
fn is_home(script: &Script, me: InstNo, z: u16) -> bool
    requires { IsWellFormed script.now }
    ensures { result ≡ is_home script.now me z }
{
    usize::from(z) < script.sessions() && script.session_home(z) == me
}

// The numbers below a count.
fn numbers_below(alloc: Global, count: u16) -> Result<Sequence<u16>, NoMemory>
    ensures { IfOk result (λ numbers. numbers ≡ range_with_len 0 count) }
{
    let mut numbers = Sequence::new(alloc);
    for z in 0..count {
        numbers.push(z)?;
    }
    Ok(numbers)
}

fn mine_of(
    alloc: Global,
    script: &Script,
    me: InstNo,
    sessions: &[u16],
) -> Result<Sequence<u16>, NoMemory>
    requires { IsWellFormed script.now }
    ensures { IfOk result (λ mine. mine ≡ filter (is_home script.now me) sessions.now) }
{
    let mut mine = Sequence::new(alloc);
    for z in sessions {
        if is_home(script, me, *z) {
            mine.push(*z)?;
        }
    }
    Ok(mine)
}

fn lines_of(alloc: Global, script: &Script, me: InstNo, z: u16) -> Result<Table<Line>, NoMemory>
    requires script { IsWellFormed script.now }
    requires waves { length script.now.waves < 2 ^ 32 }
    ensures { IfOk result (λ lines. lines ≡ lines_of script.now me z) }
{
    if is_home(script, me, z) {
        session_lines(alloc, z, script.waves().as_slice())
    } else {
        Ok(Table::new(alloc))
    }
}

fn all_lines(
    alloc: Global,
    script: &Script,
    me: InstNo,
    sessions: &[u16],
) -> Result<Table<Table<Line>>, NoMemory>
    requires script { IsWellFormed script.now }
    requires waves { length script.now.waves < 2 ^ 32 }
    ensures { IfOk result (λ lines. lines ≡ map (lines_of script.now me) sessions.now) }
{
    let mut lines = Table::new(alloc);
    for z in sessions {
        let own = lines_of(alloc, script, me, *z)?;
        lines.push(own)?;
    }
    Ok(lines)
}

// Adds the opening that an item is.
fn add_opening(
    me: InstNo,
    wave: u32,
    line: &(u32, Item),
    openings: &mut Sequence<Opening>,
) -> Result<(), NoMemory>
    ensures { OnOk result (openings.new ≡ openings.old ++ openings_at me wave line.now) }
{
    if let Item::Session { session, inst } = &line.1 {
        if *inst == me {
            openings.push(Opening {
                wave,
                session: *session,
            })?;
        }
    }
    Ok(())
}

fn add_openings(
    me: InstNo,
    number: u32,
    wave: &[(u32, Item)],
    openings: &mut Sequence<Opening>,
) -> Result<(), NoMemory>
    ensures { OnOk result (openings.new ≡ openings.old ++ openings_in me (number, wave.now)) }
{
    for line in wave {
        add_opening(me, number, line, openings)?;
    }
    Ok(())
}

fn openings_of(alloc: Global, me: InstNo, waves: &[Wave]) -> Result<Sequence<Opening>, NoMemory>
    requires { length waves.now < 2 ^ 32 }
    ensures { IfOk result (λ openings. openings ≡ flat_map (openings_in me) (enumerate_from 1 waves.now)) }
{
    let mut openings = Sequence::new(alloc);
    for (at, wave) in waves.iter().enumerate() {
        add_openings(me, (at + 1) as u32, wave.as_slice(), &mut openings)?;
    }
    Ok(openings)
}

/// How many waves there are. No memory holds more than can be numbered.
pub(crate) fn count_of(script: &Script) -> Result<u32, NoMemory>
    ensures count { IfOk result (λ count. count ≡ length script.now.waves) }
    ensures few { OnOk result (length script.now.waves < 2 ^ 32) }
{
    let count = script.waves().len();
    if count < 1 << 32 {
        Ok(count as u32)
    } else {
        Err(NoMemory)
    }
}

/// What a script lays down for an instance.
pub fn first_plan(alloc: Global, script: &Script, me: InstNo) -> Result<Plan, NoMemory>
    requires script { IsWellFormed script.now }
    requires known { me < script.now.settings.instances }
    ensures { IfOk result (λ plan. parts_of plan ≡ first_plan script.now me) }
{
    let settings = script.settings();
    count_of(script)?;
    let sessions = numbers_below(alloc, script.sessions() as u16)?;
    let lines = all_lines(alloc, script, me, sessions.as_slice())?;
    let mine = mine_of(alloc, script, me, sessions.as_slice())?;
    let openings = openings_of(alloc, me, script.waves().as_slice())?;
    Ok(Plan {
        me,
        layout: layout_of(script),
        frames: settings.cache,
        blocks: settings.blocks,
        lines,
        mine,
        openings,
        nothing: Handed::new(alloc),
    })
}
