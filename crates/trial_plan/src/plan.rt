use rac_disk::{CallKind, Planned};
use std::alloc::{AllocError, Global};

/// The room of each log where a plan names none, in bytes.
const ROOM: u64 = 8_388_608;

/// How a disk in memory is made.
#[derive(Drop)]
pub struct Plan {
    /// The room of each log, in bytes.
    pub room: u64,
    /// The calls that are to fail.
    pub calls: Vec<Planned>,
}

/// A line of a plan.
#[derive(Clone, Copy)]
enum PlanLine {
    Room(u64),
    Call(Planned),
}

fn kind_of(word: &str) -> Option<CallKind> {
    match word {
        "ReadBlock" => Some(CallKind::ReadBlock),
        "WriteBlock" => Some(CallKind::WriteBlock),
        "Append" => Some(CallKind::Append),
        "Cut" => Some(CallKind::Cut),
        "LogLen" => Some(CallKind::LogLen),
        "ReadLog" => Some(CallKind::ReadLog),
        "ReadControl" => Some(CallKind::ReadControl),
        "WriteControl" => Some(CallKind::WriteControl),
        _ => None,
    }
}

fn call_of(kind: &str, nth: &str, keep: &str) -> Option<Planned> {
    Some(Planned {
        what: kind_of(kind)?,
        nth: nth.parse().ok()?,
        keep: keep.parse().ok()?,
    })
}

fn line_of(words: &[&str]) -> Option<PlanLine> {
    match words {
        ["room", bytes] => Some(PlanLine::Room(bytes.parse().ok()?)),
        [kind, nth, keep] => Some(PlanLine::Call(call_of(kind, nth, keep)?)),
        _ => None,
    }
}

/// The plan that a text is: lines `room BYTES`, for the room of each log, and `KIND NTH KEEP`, for a call that is to fail.
/// `None` where one of its lines is neither.
pub fn plan_in(alloc: Global, text: &str) -> Result<Option<Plan>, AllocError> {
    let mut room = ROOM;
    let mut calls = Vec::new(alloc);
    for line in text.lines() {
        let words: Vec<&str> = line.split_whitespace().collect(alloc)?;
        match line_of(words.as_slice()) {
            Some(PlanLine::Room(bytes)) => room = bytes,
            Some(PlanLine::Call(call)) => calls.push(call)?,
            None => return Ok(None),
        }
    }
    Ok(Some(Plan { room, calls }))
}
