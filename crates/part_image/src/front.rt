ghost use Rattle.std.specs.Prelude.{◌≡◌, ◌≤◌, ◌+◌, ◌↔◌, true, length, IfErr, IfOk};
ghost use Rattle.base_types.specs.Bytes.{Puts};
ghost use Rattle.part_image.specs.Cells.{Begins, IsFirstWrong};
ghost use Rattle.part_image.specs.Front.{HasNext, HasScn, HasSegmentIn, IsFront, front_bytes, front_fields, kind_number};

use crate::bytes::{are_zeros, put_u8, put_zeros};
use base_types::{BlockNo, InstNo, Scn, get_u16, get_u64, put_u16, put_u64};
use redo_types::BadBlock;

/// The kinds of block.
#[derive(Clone, Copy, Debug, PartialEq, Eq)]
pub enum BlockKind {
    Data,
    /// The header of an undo segment.
    Header,
    Undo,
}

/// What stands in the first 32 bytes of each block, behind its kind and its format.
#[derive(Clone, Copy, Debug, PartialEq, Eq)]
pub struct BlockFront {
    /// The number of the block.
    pub number: BlockNo,
    /// The undo segment that it is of, 0 for a data block.
    pub seg: InstNo,
    /// How many redo records touched it.
    pub version: u64,
    /// The SCN of the last record that touched it, 0 where none did.
    pub scn: Scn,
    /// Of a header the next sequence number of its segment, at least 1, else 0.
    pub next: u64,
}

/// The front of a block of a kind in the first 32 bytes. An `Err` has the first of the fields 1 to 7
/// that is wrong.
pub fn read_front(kind: BlockKind, bytes: &[u8]) -> Result<BlockFront, BadBlock>
    requires { 32 ≤ length bytes.now }
    ensures ok { IfOk result (λ f. IsFront kind f × Begins bytes.now (front_bytes kind f)) }
    ensures err { IfErr result (λ e. IsFirstWrong (IsFront kind) (front_fields kind) bytes.now e.field) }
{
    if bytes[0] != number_of(kind) {
        return Err(BadBlock { field: 1 });
    }
    if bytes[1] != 1 {
        return Err(BadBlock { field: 2 });
    }
    let front = BlockFront {
        number: BlockNo(get_u16(bytes, 2)),
        seg: InstNo(bytes[4]),
        version: get_u64(bytes, 8),
        scn: Scn(get_u64(bytes, 16)),
        next: get_u64(bytes, 24),
    };
    if !has_segment(kind, bytes) {
        return Err(BadBlock { field: 4 });
    }
    if !has_scn(&front) {
        return Err(BadBlock { field: 6 });
    }
    if !has_next(kind, front.next) {
        return Err(BadBlock { field: 7 });
    }
    Ok(front)
}

/// Writes the front of a block of a kind into the first 32 bytes.
pub fn put_front(out: &mut [u8], kind: BlockKind, front: &BlockFront)
    requires { 32 ≤ length out.old }
    ensures { Puts out.old out.new 0 (front_bytes kind front.now) }
{
    put_u8(out, 0, number_of(kind));
    put_u8(out, 1, 1);
    put_u16(out, 2, front.number.get());
    put_u8(out, 4, front.seg.get());
    put_zeros(out, 5, 3);
    put_u64(out, 8, front.version);
    put_u64(out, 16, front.scn.get());
    put_u64(out, 24, front.next);
}

fn number_of(kind: BlockKind) -> u8
    ensures { result ≡ kind_number kind }
{
    match kind {
        BlockKind::Data => 1,
        BlockKind::Header => 2,
        BlockKind::Undo => 3,
    }
}

// Whether the segment in the bytes is one that a block of the kind may be of.
fn has_segment(kind: BlockKind, bytes: &[u8]) -> bool
    requires { 32 ≤ length bytes.now }
    ensures { (result ≡ true) ↔ HasSegmentIn kind bytes.now }
{
    match kind {
        BlockKind::Data => bytes[4] == 0 && are_zeros(bytes, 5, 3),
        BlockKind::Header | BlockKind::Undo => are_zeros(bytes, 5, 3),
    }
}

// Whether the SCN goes with the version.
fn has_scn(front: &BlockFront) -> bool
    ensures { (result ≡ true) ↔ HasScn front.now }
{
    (front.version == 0) == (front.scn.get() == 0)
}

// Whether a block of the kind may have the next sequence number.
fn has_next(kind: BlockKind, next: u64) -> bool
    ensures { (result ≡ true) ↔ HasNext kind next }
{
    match kind {
        BlockKind::Data | BlockKind::Undo => next == 0,
        BlockKind::Header => next >= 1,
    }
}
