//! The names under which the kinds of steps print.

ghost use Rattle.std.specs.Prelude.{◌≡◌};
ghost use Rattle.book_report.specs.Names.{block_name, dead_name, inst_name, line_name, plain_name, session_name};

use inst_node::{BlockStep, DeadStep, InstStep, LineStep, PlainStep, SessionStep};

pub(crate) fn session_name(kind: SessionStep) -> &'static str
    ensures { result.now ≡ session_name kind }
{
    match kind {
        SessionStep::StartStmt => "StartStmt",
        SessionStep::Visit => "Visit",
        SessionStep::Change => "Change",
        SessionStep::Mark => "Mark",
        SessionStep::StepBack => "StepBack",
        SessionStep::EndStmt => "EndStmt",
        SessionStep::AskUndo => "AskUndo",
        SessionStep::Broadcast => "Broadcast",
        SessionStep::Ack => "Ack",
    }
}

pub(crate) fn dead_name(kind: DeadStep) -> &'static str
    ensures { result.now ≡ dead_name kind }
{
    match kind {
        DeadStep::Mark => "Mark",
        DeadStep::StepBack => "StepBack",
        DeadStep::AskUndo => "AskUndo",
    }
}

pub(crate) fn block_name(kind: BlockStep) -> &'static str
    ensures { result.now ≡ block_name kind }
{
    match kind {
        BlockStep::Ask => "Ask",
        BlockStep::Evict => "Evict",
        BlockStep::WriteBlock => "WriteBlock",
        BlockStep::AskWrite => "AskWrite",
        BlockStep::GivePast => "GivePast",
        BlockStep::RecoverBlock => "RecoverBlock",
    }
}

pub(crate) fn inst_name(kind: InstStep) -> &'static str
    ensures { result.now ≡ inst_name kind }
{
    match kind {
        InstStep::MasterTake => "MasterTake",
        InstStep::Invalidate => "Invalidate",
        InstStep::Ship => "Ship",
        InstStep::ServeCopy => "ServeCopy",
        InstStep::DropPast => "DropPast",
        InstStep::Install => "Install",
        InstStep::TakeCopy => "TakeCopy",
        InstStep::TakeUndo => "TakeCopy",
        InstStep::ServeUndo => "ServeUndo",
        InstStep::Heard => "Heard",
        InstStep::TakeBucket => "TakeBucket",
        InstStep::ReadThread => "ReadThread",
        InstStep::CloseThread => "CloseThread",
    }
}

pub(crate) fn line_name(kind: LineStep) -> &'static str
    ensures { result.now ≡ line_name kind }
{
    match kind {
        LineStep::Crash => "Crash",
        LineStep::SendBucket => "SendBucket",
        LineStep::KeepBucket => "TakeBucket",
        LineStep::Checkpoint => "Checkpoint",
        LineStep::Skip => "Skip",
        LineStep::Join => "Join",
    }
}

pub(crate) fn plain_name(kind: PlainStep) -> &'static str
    ensures { result.now ≡ plain_name kind }
{
    match kind {
        PlainStep::Enter => "Enter",
        PlainStep::Force => "Force",
        PlainStep::Report => "Report",
        PlainStep::Thaw => "Thaw",
        PlainStep::Reopen => "Reopen",
        PlainStep::Resume => "Resume",
        PlainStep::Leave => "Leave",
        PlainStep::Wave => "Wave",
    }
}
