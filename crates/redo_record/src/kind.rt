ghost use Rattle.std.specs.Prelude.{◌≡◌};
ghost use Rattle.redo_record.specs.Parts.{IsReadKind};
ghost use Rattle.redo_record.specs.Redo.{change_count, kind_number, length_of};

use redo_types::RedoKind;

/// The kind of record that has this number; `None` where none has.
pub fn kind_of(number: u8) -> Option<RedoKind>
    ensures { IsReadKind number result }
{
    match number {
        1 => Some(RedoKind::Change),
        2 => Some(RedoKind::Lock),
        3 => Some(RedoKind::StepBack),
        4 => Some(RedoKind::Commit),
        5 => Some(RedoKind::RollbackEnd),
        _ => None,
    }
}

/// The number of a kind of record.
pub fn number_of(kind: RedoKind) -> u8
    ensures { result ≡ kind_number kind }
{
    match kind {
        RedoKind::Change => 1,
        RedoKind::Lock => 2,
        RedoKind::StepBack => 3,
        RedoKind::Commit => 4,
        RedoKind::RollbackEnd => 5,
    }
}

/// How many changes a record of a kind has.
pub fn count_of(kind: RedoKind) -> u8
    ensures { result ≡ change_count kind }
{
    match kind {
        RedoKind::Change | RedoKind::Lock => 3,
        RedoKind::StepBack => 2,
        RedoKind::Commit | RedoKind::RollbackEnd => 1,
    }
}

/// How many bytes a record of a kind has.
pub fn length_of(kind: RedoKind) -> u16
    ensures { result ≡ length_of kind }
{
    match kind {
        RedoKind::Change | RedoKind::Lock => 236,
        RedoKind::StepBack => 128,
        RedoKind::Commit | RedoKind::RollbackEnd => 88,
    }
}
