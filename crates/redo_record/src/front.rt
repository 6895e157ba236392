ghost use Rattle.std.specs.Prelude.{◌≡◌, ◌≤◌, length};
ghost use Rattle.redo_types.specs.declared.redo.Redo.{Redo};
ghost use Rattle.redo_record.specs.declared.front.Front.TheVariants.{Torn, Whole};
ghost use Rattle.redo_record.specs.Front.{BeginsWith, IsFront, IsTorn};
ghost use Rattle.redo_record.specs.Redo.{redo_bytes};

use crate::record::read_record;
use base_types::get_u16;
use redo_types::Redo;

/// What stands at the front of a redo log.
#[derive(Clone, Copy, Debug, PartialEq, Eq)]
pub enum Front {
    /// A whole record, and how many bytes it has.
    Whole(Redo, u16),
    /// A record that was cut short.
    Torn,
    /// Neither: no writer of records left these bytes.
    Bad,
}

/// What stands at the front of the bytes: a whole record, one that was cut short, or neither.
pub fn read_front(bytes: &[u8]) -> Front
    requires { 1 ≤ length bytes.now }
    ensures front { IsFront bytes.now result }
    ensures whole { (r : Redo) → BeginsWith bytes.now r → result ≡ Whole r (length (redo_bytes r)) }
    ensures torn { IsTorn bytes.now → result ≡ Torn }
{
    if bytes.len() < 2 {
        return Front::Torn;
    }
    let length = get_u16(bytes, 0);
    if length != 236 && length != 128 && length != 88 {
        return Front::Bad;
    }
    if bytes.len() < usize::from(length) {
        return Front::Torn;
    }
    match read_record(bytes) {
        Some(redo) => Front::Whole(redo, length),
        None => Front::Bad,
    }
}
