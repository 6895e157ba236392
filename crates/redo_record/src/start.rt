ghost use Rattle.std.specs.Prelude.{◌≡◌, ◌≤◌, ◌+◌, ◌↔◌, true, length};
ghost use Rattle.base_types.specs.Bytes.{Puts};
ghost use Rattle.part_image.specs.Cells.{Reads, spelled};
ghost use Rattle.redo_record.specs.Parts.{HasForm, HasRanges, IsStart, start_cells, start_of};
ghost use Rattle.redo_record.specs.Redo.{IsXid, NamesUndo};

use crate::kind::{count_of, kind_of, length_of, number_of};
use base_types::{Scn, Xid, get_u16, get_u64, get_xid, put_u16, put_u64, put_xid};
use part_image::{are_zeros, put_u8};
use redo_types::{Redo, RedoKind};

/// What stands before the changes of a record.
#[derive(Clone, Copy)]
pub struct Start {
    pub kind: RedoKind,
    pub xid: Xid,
    pub scn: Scn,
    pub seq: u64,
}

/// The start of a record in the first 28 bytes; `None` where they are none.
pub fn read_start(bytes: &[u8]) -> Option<Start>
    requires { 28 ≤ length bytes.now }
    ensures { Reads IsStart start_cells bytes.now result }
{
    let Some(kind) = kind_of(bytes[2]) else {
        return None;
    };
    let start = Start {
        kind,
        xid: get_xid(bytes, 4),
        scn: Scn(get_u64(bytes, 12)),
        seq: get_u64(bytes, 20),
    };
    if has_form(kind, bytes) && has_ranges(&start) {
        Some(start)
    } else {
        None
    }
}

/// Writes the start of a record, which takes 28 bytes, at a place.
pub fn put_start(out: &mut [u8], at: usize, redo: &Redo)
    requires { at + 28 ≤ length out.old }
    ensures { Puts out.old out.new at (spelled (start_cells (start_of redo.now))) }
{
    put_u16(out, at, length_of(redo.kind));
    put_u8(out, at + 2, number_of(redo.kind));
    put_u8(out, at + 3, count_of(redo.kind));
    put_xid(out, at + 4, redo.xid);
    put_u64(out, at + 12, redo.scn.get());
    put_u64(out, at + 20, redo.seq);
}

// Whether the bytes have the length and the count of the kind, and zeros where no number stands.
fn has_form(kind: RedoKind, bytes: &[u8]) -> bool
    requires { 28 ≤ length bytes.now }
    ensures { (result ≡ true) ↔ HasForm kind bytes.now }
{
    get_u16(bytes, 0) == length_of(kind) && bytes[3] == count_of(kind) && are_zeros(bytes, 6, 2)
}

// Whether the numbers of a record are in their ranges.
fn has_ranges(start: &Start) -> bool
    ensures { (result ≡ true) ↔ HasRanges start.now }
{
    is_xid(start.xid) && start.scn.get() >= 1 && names_undo(start.kind, start.seq)
}

fn is_xid(xid: Xid) -> bool
    ensures { (result ≡ true) ↔ IsXid xid }
{
    xid.seg.get() < 8 && xid.slot < 8 && xid.wrap >= 1
}

// Whether a record of the kind may have this sequence number of an undo record.
fn names_undo(kind: RedoKind, seq: u64) -> bool
    ensures { (result ≡ true) ↔ NamesUndo kind seq }
{
    match kind {
        RedoKind::Change | RedoKind::Lock | RedoKind::StepBack => seq >= 1,
        RedoKind::Commit | RedoKind::RollbackEnd => seq == 0,
    }
}
