use crate::book_text;
use base_types::{BlockNo, InstNo};
use inst_node::{Action, BlockStep, DeadStep, InstStep, LineStep, PlainStep, SessionStep, Step};
use std::test::Fail;

/// Steps of each form, those that print under the name of another among them.
const STEPS: [Step; 13] = [
    Step {
        inst: InstNo(0),
        action: Action::Plain(PlainStep::Enter),
    },
    Step {
        inst: InstNo(0),
        action: Action::Session(SessionStep::StartStmt, 3),
    },
    Step {
        inst: InstNo(1),
        action: Action::Session(SessionStep::EndStmt, 1023),
    },
    Step {
        inst: InstNo(2),
        action: Action::Dead(DeadStep::StepBack, 18446744073709551615),
    },
    Step {
        inst: InstNo(3),
        action: Action::Block(BlockStep::RecoverBlock, BlockNo(63)),
    },
    Step {
        inst: InstNo(4),
        action: Action::Inst(InstStep::TakeCopy, InstNo(5)),
    },
    Step {
        inst: InstNo(4),
        action: Action::Inst(InstStep::TakeUndo, InstNo(5)),
    },
    Step {
        inst: InstNo(4),
        action: Action::Inst(InstStep::TakeBucket, InstNo(7)),
    },
    Step {
        inst: InstNo(4),
        action: Action::Line(LineStep::KeepBucket, 10000),
    },
    Step {
        inst: InstNo(4),
        action: Action::Line(LineStep::SendBucket, 10000),
    },
    Step {
        inst: InstNo(7),
        action: Action::Line(LineStep::Crash, 12),
    },
    Step {
        inst: InstNo(6),
        action: Action::Inst(InstStep::CloseThread, InstNo(7)),
    },
    Step {
        inst: InstNo(0),
        action: Action::Plain(PlainStep::Wave),
    },
];

/// The lines of those steps.
const TEXT: &str = "step 0 Enter 0
step 0 StartStmt 3
step 1 EndStmt 1023
step 2 StepBack 18446744073709551615
step 3 RecoverBlock 63
step 4 TakeCopy 5
step 4 TakeCopy 21
step 4 TakeBucket 7
step 4 TakeBucket 11024
step 4 SendBucket 10000
step 7 Crash 12
step 6 CloseThread 7
step 0 Wave 0
";

#[test]
fn steps_are_told(rt: HostRuntime) -> Result<(), Fail> {
    let told = book_text(rt.alloc(), &STEPS)?;
    assert_eq!(rt; told.as_str(), TEXT);
    let told = book_text(rt.alloc(), &[])?;
    assert_eq!(rt; told.as_str(), "");
    Ok(())
}
