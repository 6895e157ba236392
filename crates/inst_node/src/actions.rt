//! What a step is.

use base_types::{BlockNo, InstNo};

/// A kind of step for a session's line.
#[derive(Clone, Copy, Debug, PartialEq, Eq)]
pub enum SessionStep {
    StartStmt,
    Visit,
    Change,
    Mark,
    StepBack,
    EndStmt,
    AskUndo,
    Broadcast,
    Ack,
}

/// A kind of step for the dead transaction.
#[derive(Clone, Copy, Debug, PartialEq, Eq)]
pub enum DeadStep {
    Mark,
    StepBack,
    AskUndo,
}

/// A kind of step with a block.
#[derive(Clone, Copy, Debug, PartialEq, Eq)]
pub enum BlockStep {
    Ask,
    Evict,
    WriteBlock,
    AskWrite,
    GivePast,
    RecoverBlock,
}

/// A kind of step with what came first from an instance, or with an instance's thread.
#[derive(Clone, Copy, Debug, PartialEq, Eq)]
pub enum InstStep {
    MasterTake,
    Invalidate,
    Ship,
    ServeCopy,
    DropPast,
    Install,
    TakeCopy,
    /// Undo comes; it is a TakeCopy too.
    TakeUndo,
    ServeUndo,
    Heard,
    TakeBucket,
    ReadThread,
    CloseThread,
}

/// A kind of step for a control line.
#[derive(Clone, Copy, Debug, PartialEq, Eq)]
pub enum LineStep {
    Crash,
    SendBucket,
    /// A line's bucket had its new master already; it is a TakeBucket too.
    KeepBucket,
    Checkpoint,
    Skip,
    Join,
}

/// A kind of step that is about the instance alone.
#[derive(Clone, Copy, Debug, PartialEq, Eq)]
pub enum PlainStep {
    Enter,
    Force,
    Report,
    Thaw,
    Reopen,
    Resume,
    Leave,
    Wave,
}

/// What an instance does in a step.
#[derive(Clone, Copy, Debug, PartialEq, Eq)]
pub enum Action {
    /// For the line of the session with this number.
    Session(SessionStep, u16),
    /// For the dead transaction with this job.
    Dead(DeadStep, u64),
    Block(BlockStep, BlockNo),
    Inst(InstStep, InstNo),
    /// For the control line with this number.
    Line(LineStep, u32),
    Plain(PlainStep),
}

/// A step of a run: an instance does this.
#[derive(Clone, Copy, Debug, PartialEq, Eq)]
pub struct Step {
    pub inst: InstNo,
    pub action: Action,
}
