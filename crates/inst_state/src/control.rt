ghost use Rattle.std.specs.Prelude.{◌≡◌};
ghost use Rattle.inst_state.specs.Controls.{is_checkpoint_of, is_move_of, maker};

use base_types::InstNo;
use script_text::Keep;

/// When an instance crashes.
#[derive(Clone, Copy, Debug, PartialEq, Eq)]
pub enum When {
    /// Once so many steps of the wave were made.
    After(u64),
    /// Once it has made a Mark in the wave.
    AtMark,
}

/// What a control line asks.
#[derive(Clone, Copy, Debug, PartialEq, Eq)]
pub enum Wanted {
    Crash {
        inst: InstNo,
        when: When,
        keep: Keep,
    },
    Start {
        inst: InstNo,
    },
    /// The bucket gets the instance as its master.
    Move {
        bucket: u8,
        to: InstNo,
    },
    Checkpoint {
        inst: InstNo,
    },
}

impl Wanted {
    /// The instance that is to do it.
    pub fn maker(&self) -> InstNo
        ensures { result ≡ maker self.now }
    {
        match self {
            Wanted::Crash { inst, .. } => *inst,
            Wanted::Start { inst } => *inst,
            Wanted::Move { to, .. } => *to,
            Wanted::Checkpoint { inst } => *inst,
        }
    }

    /// Whether it asks this instance for a checkpoint.
    pub fn is_checkpoint_of(&self, me: InstNo) -> bool
        ensures { result ≡ is_checkpoint_of me self.now }
    {
        match self {
            Wanted::Checkpoint { inst } => *inst == me,
            _ => false,
        }
    }

    /// Whether it asks that this bucket gets this instance as its master.
    pub fn is_move_of(&self, bucket: u8, me: InstNo) -> bool
        ensures { result ≡ is_move_of bucket me self.now }
    {
        match self {
            Wanted::Move { bucket: wanted, to } => *wanted == bucket && *to == me,
            _ => false,
        }
    }
}

/// A control line of a wave.
#[derive(Clone, Copy, Debug, PartialEq, Eq)]
pub struct Control {
    pub line: u32,
    pub wanted: Wanted,
    /// Whether it is answered.
    pub done: bool,
}
