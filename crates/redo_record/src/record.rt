ghost use Rattle.std.specs.Prelude.{◌≡◌, ◌≤◌, drop, length};
ghost use Rattle.base_types.specs.Bytes.{Puts, number_at};
ghost use Rattle.part_image.specs.Cells.{Reads};
ghost use Rattle.redo_record.specs.Parts.{IsRowOf, IsUndoOf, row_place};
ghost use Rattle.redo_record.specs.Redo.{IsRedo, cells_of, data_cells, length_of, redo_bytes, redo_cells, undo_cells};

use crate::data::{put_data, read_data};
use crate::head::{put_head, read_head};
use crate::kind::length_of;
use crate::start::{put_start, read_start};
use crate::undo::{put_undo, read_undo};
use redo_types::{DataChange, Redo, RedoKind, UndoChange};

/// Writes a record at the front of the buffer; how many bytes it has: 236, 128 or 88.
pub fn write(redo: &Redo, out: &mut [u8; 236]) -> u16
    requires { IsRedo redo.now }
    ensures length { result ≡ length_of redo.now.kind }
    ensures size { length (redo_bytes redo.now) ≡ length_of redo.now.kind }
    ensures bytes { Puts out.old out.new 0 (redo_bytes redo.now) }
{
    put_start(out, 0, redo);
    put_head(out, 28, &redo.head);
    let next = put_undo(out, 88, &redo.undo);
    put_data(out, next, &redo.row);
    length_of(redo.kind)
}

/// The record at the front of bytes of which there are as many as its length says, or more; `None` where
/// none stands there.
pub fn read_record(bytes: &[u8]) -> Option<Redo>
    requires some { 88 ≤ length bytes.now }
    requires whole { number_at 2 bytes.now 0 ≤ length bytes.now }
    ensures { Reads IsRedo redo_cells bytes.now result }
{
    let Some(start) = read_start(bytes) else {
        return None;
    };
    let Some(head) = read_head(bytes, 28) else {
        return None;
    };
    let Some(undo) = read_undo_of(start.kind, bytes) else {
        return None;
    };
    let Some(row) = read_row_of(start.kind, bytes) else {
        return None;
    };
    Some(Redo {
        kind: start.kind,
        xid: start.xid,
        scn: start.scn,
        seq: start.seq,
        head,
        undo,
        row,
    })
}

// What a record of the kind has as its change of an undo block; `None` where it isn't there.
fn read_undo_of(kind: RedoKind, bytes: &[u8]) -> Option<Option<UndoChange>>
    requires { length_of kind ≤ length bytes.now }
    ensures { Reads (IsUndoOf kind) (cells_of undo_cells) (drop 88 bytes.now) result }
{
    match kind {
        RedoKind::Change | RedoKind::Lock => match read_undo(bytes, 88) {
            Some(change) => Some(Some(change)),
            None => None,
        },
        RedoKind::StepBack | RedoKind::Commit | RedoKind::RollbackEnd => Some(None),
    }
}

// What a record of the kind has as its change of a data block; `None` where it isn't there.
fn read_row_of(kind: RedoKind, bytes: &[u8]) -> Option<Option<DataChange>>
    requires { length_of kind ≤ length bytes.now }
    ensures { Reads (IsRowOf kind) (cells_of data_cells) (drop (row_place kind) bytes.now) result }
{
    let at = match kind {
        RedoKind::Change | RedoKind::Lock => 196,
        RedoKind::StepBack => 88,
        RedoKind::Commit | RedoKind::RollbackEnd => return Some(None),
    };
    match read_data(bytes, at) {
        Some(change) => Some(Some(change)),
        None => None,
    }
}
