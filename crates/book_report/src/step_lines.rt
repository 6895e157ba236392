//! The lines that tell the steps of a run.

ghost use Rattle.std.specs.Prelude.{◌≡◌, ◌++◌, flat_map, IfOk, OnOk, Some, string_bytes};
ghost use Rattle.book_report.specs.Lines.{arg_of, book_text, inst_arg, kind_text, line_arg, step_line, step_text};

use crate::names::{block_name, dead_name, inst_name, line_name, plain_name, session_name};
use base_types::{InstNo, NoMemory};
use inst_node::{Action, InstStep, LineStep, Step};
use std::alloc::Global;
use std::fmt;

fn kind_text(action: &Action) -> &'static str
    ensures { result.now ≡ kind_text action.now }
{
    match action {
        Action::Session(kind, _) => session_name(*kind),
        Action::Dead(kind, _) => dead_name(*kind),
        Action::Block(kind, _) => block_name(*kind),
        Action::Inst(kind, _) => inst_name(*kind),
        Action::Line(kind, _) => line_name(*kind),
        Action::Plain(kind) => plain_name(*kind),
    }
}

fn inst_arg(kind: InstStep, inst: InstNo) -> u64
    ensures { result ≡ inst_arg kind inst }
{
    match kind {
        InstStep::TakeUndo => 16 + u64::from(inst.get()),
        _ => u64::from(inst.get()),
    }
}

fn line_arg(kind: LineStep, line: u32) -> u64
    ensures { result ≡ line_arg kind line }
{
    match kind {
        LineStep::KeepBucket => 1024 + u64::from(line),
        _ => u64::from(line),
    }
}

fn arg_of(action: &Action) -> u64
    ensures { result ≡ arg_of action.now }
{
    match action {
        Action::Session(_, session) => u64::from(*session),
        Action::Dead(_, job) => *job,
        Action::Block(_, block) => u64::from(block.get()),
        Action::Inst(kind, inst) => inst_arg(*kind, *inst),
        Action::Line(kind, line) => line_arg(*kind, *line),
        Action::Plain(_) => 0,
    }
}

/// Prints a step.
#[derive(Clone, Copy)]
struct StepText<'a>(&'a Step);

impl fmt::Display for StepText<'_> {
    ghost output = { λ t. Some (step_text t.0.now) };

    fn fmt<W: fmt::Write>(&self, f: &mut fmt::Formatter<W>) -> fmt::Result {
        let inst = self.0.inst.get();
        let kind = kind_text(&self.0.action);
        let arg = arg_of(&self.0.action);
        write!(f, "step {inst} {kind} {arg}")
    }
}

// Adds the line that tells a step.
fn push_step(text: &mut String, step: &Step) -> Result<(), NoMemory>
    ensures { OnOk result (string_bytes text.new ≡ string_bytes text.old ++ step_line step.now) }
{
    let step = StepText(step);
    writeln!(text, "{step}")?;
    Ok(())
}

/// A line `step INST KIND ARG` for each step of a run. INST is the instance's number and KIND the name of the kind of step.
/// ARG is the number of the session, the block, the instance or the control line, or the dead transaction's job; 0 where the
/// step is about the instance alone. Undo that comes prints as a TakeCopy, with 16 more, and a bucket that is kept as a
/// TakeBucket, with 1024 more.
///
/// # Errors
///
/// There is no memory for the text.
pub fn book_text(alloc: Global, steps: &[Step]) -> Result<String, NoMemory>
    ensures { IfOk result (λ text. string_bytes text ≡ book_text steps.now) }
{
    let mut text = String::new(alloc);
    for step in steps {
        push_step(&mut text, step)?;
    }
    Ok(text)
}
