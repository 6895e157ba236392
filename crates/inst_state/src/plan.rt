ghost use Rattle.std.specs.Prelude.{◌≡◌, ◌<◌, ◌≤◌};
ghost use Rattle.base_types.specs.Layout.{IsLayout};

use crate::line::Line;
use crate::table::Table;
use base_types::{InstNo, Layout, Sequence};
use undo_segment::Handed;

/// A session that is opened in a wave.
#[derive(Clone, Copy, Debug, PartialEq, Eq)]
pub struct Opening {
    pub wave: u32,
    pub session: u16,
}

/// What the script lays down for an instance: it never changes.
#[derive(Drop)]
pub struct Plan {
    /// The number of the instance, its redo thread and its undo segment.
    pub me: InstNo,
    /// How the disk is laid out.
    pub layout: Layout,
    /// How many frames its cache has.
    pub frames: u8,
    /// How many data blocks there are.
    pub blocks: u16,
    /// The lines of each session of the instance, by the session's number; a session of another one has none here.
    pub lines: Table<Table<Line>>,
    /// The numbers of its own sessions, ascending.
    pub mine: Sequence<u16>,
    /// Its own sessions in the order in which they are opened.
    pub openings: Sequence<Opening>,
    /// What a statement has at hand that was handed nothing.
    pub nothing: Handed,
    ghost laid_out: { IsLayout layout },
    ghost known: { me < layout.instances },
    ghost numbered: { me < 8 },
    ghost some_frames: { 1 ≤ frames },
    ghost few_blocks: { blocks ≤ 64 },
}
