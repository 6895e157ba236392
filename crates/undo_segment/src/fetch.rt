ghost use Rattle.std.specs.Prelude.{◌≡◌, ◌≤◌, option_copied};
ghost use Rattle.undo_segment.specs.Fetch.{fetch_in, found_at};

use undo_image::{UndoBlock, UndoRecord};

/// What stands in the place of an undo record.
#[derive(Clone, Copy, Debug, PartialEq, Eq)]
pub enum Fetch {
    /// The undo block isn't at hand.
    Unfetched,
    /// No undo record was ever written there.
    Never,
    /// The undo record with this other sequence number stands there.
    Reused(u64),
    /// The undo record itself stands there.
    Has(UndoRecord),
}

// What stands in a place, by the sequence number that is wanted there.
fn found_at(seq: u64, place: &Option<UndoRecord>) -> Fetch
    ensures { result ≡ found_at seq place.now }
{
    match place {
        None => Fetch::Never,
        Some(undo) if undo.seq == seq => Fetch::Has(*undo),
        Some(undo) => Fetch::Reused(undo.seq),
    }
}

// What stands in the place of a sequence number, from 1, in its block, where that is at hand.
pub(crate) fn fetch_in(seq: u64, block: Option<&UndoBlock>) -> Fetch
    requires { 1 ≤ seq }
    ensures { result ≡ fetch_in seq (option_copied block.entry) }
{
    match block {
        None => Fetch::Unfetched,
        Some(block) => found_at(seq, &block.at(((seq - 1) % 4) as u8)),
    }
}
