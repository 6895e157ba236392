ghost use Rattle.std.specs.Prelude.{◌≡◌, ◌<◌, replicate};

use std::marker::Model;

/// A kind of call of a disk. `Cut` is a `cut_log`, and the others bear the names of their calls.
#[derive(Clone, Copy, Debug, PartialEq, Eq)]
pub enum CallKind {
    ReadBlock,
    WriteBlock,
    Append,
    Cut,
    LogLen,
    ReadLog,
    ReadControl,
    WriteControl,
}

/// A call that is to fail.
#[derive(Clone, Copy, Debug, PartialEq, Eq)]
pub struct Planned {
    /// The kind of the call.
    pub what: CallKind,
    /// Its number among the calls of its kind, counted from 1.
    pub nth: u32,
    /// What it keeps: an append so many first bytes of its piece, as far as there is room, and another write
    /// the whole where this isn't 0.
    pub keep: u32,
}

/// The calls of a disk in memory: the plan of those that fail, how many of each kind were made, and how
/// many failed as planned.
#[derive(Drop)]
pub struct CallLog {
    plan: Vec<Planned>,
    made: [u64; 8],
    faults: u64,
}

impl Model for CallLog {
    ghost use Rattle.rac_disk.specs.Memory.{Calls};

    ghost Value = { Calls };

    ghost view = { λ it. record { plan = it.plan.items; made = it.made; faults = it.faults } };
}

impl CallLog {
    ghost use Rattle.rac_disk.specs.Memory.{planned, with_call};

    /// No call yet.
    pub fn new(plan: Vec<Planned>) -> CallLog
        ensures { result ≡ record { plan = plan.items; made = replicate 8 0; faults = 0 } }
    {
        CallLog {
            plan,
            made: [0; 8],
            faults: 0,
        }
    }

    /// Counts a call. Where it is planned to fail it counts a fault, and answers what is to be kept.
    pub fn count(&mut self, kind: CallKind) -> Option<u32>
        ensures answer { result ≡ planned self.old kind }
        ensures after { self.new ≡ with_call self.old kind }
    {
        let place = place(kind);
        let number = self.made[place].saturating_add(1);
        self.made[place] = number;
        let keep = planned_keep(&self.plan, kind, number);
        if keep.is_some() {
            self.faults = self.faults.saturating_add(1);
        }
        keep
    }

    /// How many calls failed as planned.
    pub fn faults(&self) -> u64
        ensures { result ≡ self.now.faults }
    {
        self.faults
    }
}

ghost use Rattle.std.specs.Prelude.{find};
ghost use Rattle.std.specs.Option.{option_map};
ghost use Rattle.rac_disk.specs.Memory.{place_of, is_for};

// What the first entry for this call keeps.
fn planned_keep(plan: &[Planned], kind: CallKind, number: u64) -> Option<u32>
    ensures { result ≡ option_map (λ entry. entry.keep) (find (is_for kind number) plan.now) }
{
    plan.iter()
        .find(|entry| place(entry.what) == place(kind) && u64::from(entry.nth) == number)
        .map(|entry| entry.keep)
}

// The place of a kind among the counts of calls.
fn place(kind: CallKind) -> usize
    ensures place { result ≡ place_of kind }
    ensures bound { result < 8 }
{
    match kind {
        CallKind::ReadBlock => 0,
        CallKind::WriteBlock => 1,
        CallKind::Append => 2,
        CallKind::Cut => 3,
        CallKind::LogLen => 4,
        CallKind::ReadLog => 5,
        CallKind::ReadControl => 6,
        CallKind::WriteControl => 7,
    }
}
