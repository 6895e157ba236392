ghost use Rattle.std.specs.Prelude.{◌≡◌, ◌<◌, ◌≤◌, ◌+◌, ◌++◌, ◌∷◌, [], true, IfOk, IfSome, OnOk, length, slice_get, slice_set};
ghost use Rattle.std.specs.Option.{ForSome};
ghost use Rattle.redo_record.specs.Redo.{IsRedo};
ghost use Rattle.inst_node.specs.Made.{record_made};
ghost use Rattle.inst_node.specs.Moves.{DiskAfter, core_after, part_after, prepared};
ghost use Rattle.inst_node.specs.Needs.{needs};
ghost use Rattle.world_machine.specs.Enabled.{crash_or, due_from, enabled_from};

use base_types::{InstNo, NoMemory, Sequence};
use inst_node::{Action, How, LineStep, Step, add_choices, make};
use inst_state::{Control, Core, Inst};
use rac_disk::SharedDisk;
use std::alloc::Global;
use std::marker::Model;

/// The instances, at most eight, by their numbers. Contracts see it as their list.
#[derive(Drop)]
pub struct Insts {
    items: Vec<Inst>,
}

impl Model for Insts {
    ghost use Rattle.std.specs.Prelude.{◌≤◌, List, vec_len};
    ghost use Rattle.inst_state.specs.declared.inst.Inst.{Inst};

    ghost Value = { List Inst };

    ghost view = { λ it. it.items.items };

    ghost invariant = { λ it. vec_len it.items ≤ 8 };
}

impl Insts {
    /// No instances. It takes no memory.
    pub fn new(alloc: Global) -> Insts
        ensures { result ≡ [] }
    {
        Insts {
            items: Vec::new(alloc),
        }
    }

    pub fn as_slice(&self) -> &[Inst]
        ensures insts { result.now ≡ self.now }
        ensures few { length self.now ≤ 8 }
    {
        self.items.as_slice()
    }

    /// Adds the next instance.
    pub fn push(&mut self, inst: Inst) -> Result<(), NoMemory>
        requires { length self.old < 8 }
        ensures { OnOk result (self.new ≡ self.old ++ inst ∷ []) }
    {
        self.items.push(inst)?;
        Ok(())
    }

    /// An instance makes a step; how the disk's calls went is returned.
    ///
    /// # Errors
    ///
    /// There is no memory for what the step notes, sends or tells.
    pub fn make<D: SharedDisk>(
        &mut self,
        alloc: Global,
        at: usize,
        core: &mut Core,
        disk: &mut D,
        action: &Action,
    ) -> Result<How, NoMemory>
        requires at { at < length self.old }
        requires needs { ForSome (slice_get self.old at) (λ n. needs n core.old action.now ≡ true) }
        ensures insts { IfOk result (λ how. ForSome (slice_get self.old at) (λ n. self.new ≡ slice_set self.old at (part_after n core.old action.now how))) }
        ensures core { IfOk result (λ how. ForSome (slice_get self.old at) (λ n. core.new ≡ core_after n core.old action.now how)) }
        ensures disk { IfOk result (λ how. ForSome (slice_get self.old at) (λ n. DiskAfter n core.old action.now how (D.state disk.old) (D.state disk.new))) }
        ensures record { OnOk result (ForSome (slice_get self.old at) (λ n. IfSome (record_made (prepared n core.old action.now) action.now) IsRedo)) }
    {
        let inst = &mut self.items[at];
        make(alloc, inst, core, disk, action)
    }
}

/// Adds the steps, but for crashes, that these instances may make.
pub(crate) fn add_all(insts: &[Inst], core: &Core, out: &mut Sequence<Step>) -> Result<(), NoMemory>
    requires { length insts.now ≤ 8 }
    ensures { OnOk result (out.new ≡ out.old ++ enabled_from 0 insts.now core.now) }
{
    for (i, inst) in insts.iter().enumerate() {
        add_choices(InstNo(i as u8), inst, core, out)?;
    }
    Ok(())
}

fn crash_or(me: InstNo, control: Option<Control>, later: Option<Step>) -> Option<Step>
    ensures { result ≡ crash_or me control later }
{
    match control {
        Some(control) => Some(Step {
            inst: me,
            action: Action::Line(LineStep::Crash, control.line),
        }),
        None => later,
    }
}

/// The first due crash of these instances, the first of which has number `i`.
pub(crate) fn first_due(i: u8, insts: &[Inst], core: &Core) -> Option<Step>
    requires { i + length insts.now ≤ 8 }
    ensures { result ≡ due_from i insts.now core.now }
{
    match insts.split_first() {
        Some((inst, others)) => {
            let later = first_due(i + 1, others, core);
            crash_or(InstNo(i), core.due_crash(inst.plan.me), later)
        }
        None => None,
    }
}
