ghost use Rattle.std.specs.Prelude.{◌≡◌};
ghost use Rattle.cr_copy.specs.Copy.{halted};

use base_types::Value;
use journal::Cause;
use txn_slots::Wanted;

/// The rows of a consistent copy, or why there are none.
#[derive(Clone, Copy, Debug, PartialEq, Eq)]
pub enum Made {
    Rows([Value; 8]),
    /// This isn't at hand.
    Need(Wanted),
    /// What is wanted is there no more.
    TooOld(Cause),
    /// The block or its undo has what no run leaves.
    Bad,
}

/// Why a consistent copy has no rows.
#[derive(Clone, Copy, Debug, PartialEq, Eq)]
pub enum Halt {
    /// This isn't at hand.
    Need(Wanted),
    /// What is wanted is there no more.
    TooOld(Cause),
    /// The block or its undo has what no run leaves.
    Bad,
}

impl Made {
    pub(crate) fn halted(halt: Halt) -> Made
        ensures { result ≡ halted halt }
    {
        match halt {
            Halt::Need(wanted) => Made::Need(wanted),
            Halt::TooOld(cause) => Made::TooOld(cause),
            Halt::Bad => Made::Bad,
        }
    }
}
