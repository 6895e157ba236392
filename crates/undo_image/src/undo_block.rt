ghost use Rattle.std.specs.Prelude.{◌≡◌, ◌<◌, ◌≤◌, ◌-◌, ◌^◌, drop, IfErr, IfOk};
ghost use Rattle.base_types.specs.Bytes.{Puts};
ghost use Rattle.part_image.specs.Cells.{IsFirstWrong, Reads, spelled};
ghost use Rattle.part_image.specs.Undo.{IsUndoRecord};
ghost use Rattle.undo_image.specs.UndoBlock.{ArePlaces, UndoContent, IsUndoBlock, empty_undo_block, undo_bytes, undo_fields, record_at, places_cells, with_record};

use base_types::{BlockNo, InstNo, Scn};
use part_image::{
    BlockFront, BlockKind, are_zeros, put_front, put_undo_place, put_zeros, read_front,
    read_undo_place,
};
use redo_types::{BadBlock, UndoRecord};
use std::marker::Model;

/// A block of an undo segment, with four places for undo records.
#[derive(Debug, Drop)]
pub struct UndoBlock {
    front: BlockFront,
    places: [Option<UndoRecord>; 4],
}

impl Model for UndoBlock {
    ghost use Rattle.undo_image.specs.UndoBlock.{UndoContent, IsUndoBlock};

    ghost Value = { UndoContent };

    ghost view = { λ it. record { front = it.front; places = it.places } };

    ghost invariant = { λ it. IsUndoBlock (record { front = it.front; places = it.places }) };
}

impl UndoBlock {
    /// The undo block that no undo record was ever written to.
    pub fn empty(number: BlockNo, seg: InstNo) -> Self
        ensures { result ≡ empty_undo_block number seg }
    {
        UndoBlock {
            front: BlockFront {
                number,
                seg,
                version: 0,
                scn: Scn(0),
                next: 0,
            },
            places: [None; 4],
        }
    }

    /// The undo block in the bytes of a block. An `Err` has the first of the fields 1 to 9 that is wrong.
    pub fn read(bytes: &[u8; 512]) -> Result<Self, BadBlock>
        ensures ok { IfOk result (λ u. IsUndoBlock u × (bytes.now ≡ undo_bytes u)) }
        ensures only { (u : UndoContent) → IsUndoBlock u → bytes.now ≡ undo_bytes u → result ≡ Ok u }
        ensures err { IfErr result (λ e. IsFirstWrong IsUndoBlock undo_fields bytes.now e.field) }
    {
        let front = read_front(BlockKind::Undo, bytes)?;
        let Some(places) = read_places(bytes) else {
            return Err(BadBlock { field: 8 });
        };
        if !are_zeros(bytes, 416, 96) {
            return Err(BadBlock { field: 9 });
        }
        Ok(UndoBlock { front, places })
    }

    /// Writes the undo block as the bytes of a block.
    pub fn write(&self, out: &mut [u8; 512])
        ensures { out.new ≡ undo_bytes self.now }
    {
        put_front(out, BlockKind::Undo, &self.front);
        put_places(out, &self.places);
        put_zeros(out, 416, 96);
    }

    /// The undo record at a place, 0 to 3; `None` where none was ever written.
    pub fn at(&self, place: u8) -> Option<UndoRecord>
        requires { place < 4 }
        ensures { result ≡ record_at self.now place }
    {
        self.places[usize::from(place)]
    }

    /// The segment, which is that of the instance with this number.
    pub fn seg(&self) -> InstNo
        ensures { result ≡ self.now.front.seg }
    {
        self.front.seg
    }

    /// The number of the block.
    pub fn number(&self) -> BlockNo
        ensures { result ≡ self.now.front.number }
    {
        self.front.number
    }

    /// How many redo records touched the block.
    pub fn version(&self) -> u64
        ensures { result ≡ self.now.front.version }
    {
        self.front.version
    }

    /// The SCN of the last redo record that touched the block, 0 where none did.
    pub fn scn(&self) -> Scn
        ensures { result ≡ self.now.front.scn }
    {
        self.front.scn
    }

    /// A second undo block that is equal.
    pub fn copy(&self) -> Self
        ensures { result ≡ self.now }
    {
        let front = &self.front;
        let [first, second, third, fourth] = &self.places;
        UndoBlock {
            front: *front,
            places: [*first, *second, *third, *fourth],
        }
    }

    /// A law: an undo block always is one.
    pub fn always_is_undo_block(&self)
        ensures { IsUndoBlock self.now }
    {
        let _front = &self.front;
    }

    /// Puts an undo record at a place, 0 to 3, as the redo record with this SCN, at least 1, does. The version
    /// rises by one; it must not be the last `u64`.
    pub fn set(&mut self, place: u8, undo: &UndoRecord, scn: Scn)
        requires place { place < 4 }
        requires undo { IsUndoRecord undo.now }
        requires version { self.old.front.version < 2 ^ 64 - 1 }
        requires scn { 1 ≤ scn }
        ensures { self.new ≡ with_record self.old place undo.now scn }
    {
        self.front.version += 1;
        self.front.scn = scn;
        self.places[usize::from(place)] = Some(*undo);
    }
}

// What stands at the places in the bytes of an undo block; `None` where it is none.
fn read_places(bytes: &[u8; 512]) -> Option<[Option<UndoRecord>; 4]>
    ensures { Reads ArePlaces places_cells (drop 32 bytes.now) result }
{
    let mut places = [None; 4];
    for (k, place) in places.iter_mut().enumerate() {
        *place = read_undo_place(bytes, 32 + 96 * k)?;
    }
    Some(places)
}

// Writes what stands at the places into the bytes of an undo block.
fn put_places(out: &mut [u8; 512], places: &[Option<UndoRecord>; 4])
    ensures { Puts out.old out.new 32 (spelled (places_cells places.now)) }
{
    for (k, place) in places.iter().enumerate() {
        put_undo_place(out, 32 + 96 * k, place);
    }
}
