//! How what the instances share is read, and what is noted there.

ghost use Rattle.std.specs.Prelude.{◌≡◌, ◌&&◌, ◌==◌, OnOk, [], find, map, not, slice_index_or, slice_set};
ghost use Rattle.std.specs.Option.{option_copied};
ghost use Rattle.std.specs.List.{list_all};
ghost use Rattle.inst_state.specs.Shared.{all_left, answered_if, answering, are_answered, closed_of, counted_of, counting, due_crash, given_of, has_other_live, insts_below, is_dark, is_due_at, is_frozen, is_inst, is_led_by, is_live, is_open, is_running, is_thawed, open_control, rebuilt_of, told, wants_crash_now, wave_controls, with_answered, with_closed};

use crate::control::{Control, Wanted, When};
use crate::shared::{Core, Waves};
use crate::table::Table;
use base_types::{BlockNo, InstNo, NoMemory};
use block_image::DataBlock;
use inst_set::InstSet;
use journal::Entry;
use recovery::Phase;
use scn_clock::Clock;

/// The instances below a number.
#[tactic(auto, unfolding(crate::specs::Shared::insts_below))]
pub fn insts_below(n: u8) -> InstSet
    ensures { result ≡ insts_below n }
{
    InstSet::from_array([0 < n, 1 < n, 2 < n, 3 < n, 4 < n, 5 < n, 6 < n, 7 < n])
}

// Answers a control line, if it has this number.
fn answer_if(control: &mut Control, line: u32)
    ensures { control.new ≡ answered_if line control.old }
{
    control.done = control.done || control.line == line;
}

// Answers each control line with this number.
fn answer_each(controls: &mut [Control], line: u32)
    ensures { controls.new ≡ map (answered_if line) controls.old }
{
    for control in controls.iter_mut() {
        answer_if(control, line);
    }
}

impl Waves {
    /// The control lines of the current wave, in the order of their lines.
    #[tactic(auto, using(crate::proofs::Mapped::none_is_default))]
    pub fn controls_now(&self) -> &[Control]
        ensures { result.now ≡ wave_controls self.now }
    {
        match self.controls.get((self.wave as usize).saturating_sub(1)) {
            Some(controls) => controls.as_slice(),
            None => &[],
        }
    }
}

// Answers the control line of the current wave that has this number.
#[tactic(auto, using(std::proofs::lemmas::List::set_past))]
fn answer_in(controls: &mut Table<Table<Control>>, at: usize, line: u32)
    ensures { controls.new ≡ slice_set controls.old at (map (answered_if line) (slice_index_or controls.old at [])) }
{
    if let Some(controls) = controls.get_mut(at) {
        controls.answer(line);
    }
}

impl Table<Control> {
    #[tactic(auto, using(crate::proofs::Mapped::mapped_whole))]
    fn answer(&mut self, line: u32)
        ensures { self.new ≡ map (answered_if line) self.old }
    {
        answer_each(self.as_mut_slice(), line);
    }
}

impl Core {
    /// Adds an entry to the journal. An `Err` leaves all as it was.
    pub fn tell(&mut self, entry: Entry) -> Result<(), NoMemory>
        ensures { OnOk result (self.new ≡ told self.old entry) }
    {
        self.journal.push(entry)
    }

    /// The control line of the current wave with this number that isn't answered yet.
    pub fn open_control(&self, line: u64) -> Option<Control>
        ensures { result ≡ open_control self.now line }
    {
        self.waves
            .controls_now()
            .iter()
            .copied()
            .find(|control| u64::from(control.line) == line && !control.done)
    }

    /// Answers the control line of the current wave that has this number.
    pub fn answer_control(&mut self, line: u32)
        ensures { self.new ≡ answering self.old line }
    {
        let at = (self.waves.wave as usize).saturating_sub(1);
        answer_in(&mut self.waves.controls, at, line);
    }

    /// Whether each control line of the current wave is answered.
    pub fn are_answered(&self) -> bool
        ensures { result ≡ are_answered self.now }
    {
        self.waves.controls_now().iter().all(|control| control.done)
    }

    /// Whether each instance has left the wave.
    pub fn all_left(&self) -> bool
        ensures { result ≡ all_left self.now }
    {
        self.waves
            .left
            .holds_all(&insts_below(self.layout.instances))
    }

    pub fn is_live(&self, inst: InstNo) -> bool
        ensures { result ≡ is_live self.now inst }
    {
        self.members.live.has(inst)
    }

    /// Whether another instance than this one is live.
    pub fn has_other_live(&self, me: InstNo) -> bool
        ensures { result ≡ has_other_live self.now me }
    {
        let mut others = self.members.live;
        others.remove(me);
        !others.is_empty()
    }

    pub fn is_running(&self) -> bool
        ensures { result ≡ is_running self.now.members.phase }
    {
        matches!(self.members.phase, Phase::Running)
    }

    pub fn is_frozen(&self) -> bool
        ensures { result ≡ is_frozen self.now.members.phase }
    {
        matches!(self.members.phase, Phase::Frozen)
    }

    pub fn is_thawed(&self) -> bool
        ensures { result ≡ is_thawed self.now.members.phase }
    {
        matches!(self.members.phase, Phase::Thawed)
    }

    pub fn is_dark(&self) -> bool
        ensures { result ≡ is_dark self.now.members.phase }
    {
        matches!(self.members.phase, Phase::Dark)
    }

    /// Whether an instance leads the recovery.
    pub fn is_led_by(&self, me: InstNo) -> bool
        ensures { result ≡ is_led_by self.now me }
    {
        match self.members.leader() {
            Some(leader) => leader == me,
            None => false,
        }
    }

    fn is_due_at(&self, inst: InstNo, when: When) -> bool
        ensures { result ≡ is_due_at self.now inst when }
    {
        match when {
            When::After(steps) => self.waves.steps >= steps || self.all_left(),
            When::AtMark => self.waves.marked.has(inst) || self.all_left(),
        }
    }

    fn wants_crash_now(&self, inst: InstNo, wanted: Wanted) -> bool
        ensures { result ≡ wants_crash_now self.now inst wanted }
    {
        match wanted {
            Wanted::Crash {
                inst: whose,
                when,
                ..
            } => whose == inst && self.is_due_at(inst, when),
            _ => false,
        }
    }

    fn first_due(&self, inst: InstNo) -> Option<Control>
        ensures { result ≡ find (λ control. not control.done && wants_crash_now self.now inst control.wanted) (wave_controls self.now.waves) }
    {
        self.waves.controls_now().iter().copied().find(|control| !control.done
            && self.wants_crash_now(inst, control.wanted))
    }

    /// The first crash line of an instance that is live and whose moment has come.
    pub fn due_crash(&self, inst: InstNo) -> Option<Control>
        ensures { result ≡ due_crash self.now inst }
    {
        if self.is_live(inst) {
            self.first_due(inst)
        } else {
            None
        }
    }

    /// The past image of a block that was handed to the leader.
    pub fn given_of(&self, block: BlockNo) -> Option<&DataBlock>
        ensures { option_copied result ≡ given_of self.now block }
    {
        self.recovery
            .given
            .as_slice()
            .iter()
            .find(|image| image.number() == block)
    }

    /// The version that recovery wrote of a block.
    pub fn rebuilt_of(&self, block: BlockNo) -> Option<u64>
        ensures { result ≡ rebuilt_of self.now block }
    {
        let found = self
            .recovery
            .rebuilt
            .as_slice()
            .iter()
            .find(|it| it.block == block);
        match found {
            Some(it) => Some(it.version),
            None => None,
        }
    }

    /// The SCNs of the control entry of a thread that is known to be closed.
    pub fn closed_of(&self, inst: InstNo) -> Option<Clock>
        ensures { result ≡ closed_of self.now inst }
    {
        match self.recovery.closed.as_slice().get(usize::from(inst.get())) {
            Some(scns) => *scns,
            None => None,
        }
    }

    /// Notes whether a thread is known to be closed, with the SCNs of its control entry.
    pub fn set_closed(&mut self, inst: InstNo, scns: Option<Clock>)
        ensures { self.new ≡ with_closed self.old inst scns }
    {
        let place = usize::from(inst.get());
        if place < 8 {
            self.recovery.closed[place] = scns;
        }
    }

    /// The place in a thread up to which the Committed of its commit records have entered the journal.
    pub fn counted_of(&self, inst: InstNo) -> u64
        ensures { result ≡ counted_of self.now inst }
    {
        let place = usize::from(inst.get());
        if place < 8 {
            self.recovery.counted[place]
        } else {
            0
        }
    }

    /// Notes up to which place of a thread the Committed of its commit records have entered the journal.
    pub fn count_to(&mut self, inst: InstNo, to: u64)
        ensures { self.new ≡ counting self.old inst to }
    {
        let place = usize::from(inst.get());
        if place < 8 {
            self.recovery.counted[place] = self.recovery.counted[place].max(to);
        }
    }
}
