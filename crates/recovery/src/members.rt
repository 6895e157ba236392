ghost use Rattle.std.specs.Prelude.{◌≡◌};
ghost use Rattle.recovery.specs.Members.{all_reported, changed, entered, leader, left_by, phase_of};

use base_types::InstNo;
use inst_set::InstSet;

/// How far a change of the membership has come.
#[derive(Clone, Copy, Debug, PartialEq, Eq)]
pub enum Phase {
    /// The cluster runs.
    Running,
    /// The membership changed: the live instances report, and recovery goes on.
    Frozen,
    /// The blocks are rebuilt and have masters again; the transactions of lost instances are rolled back.
    Thawed,
    /// Nobody is live.
    Dark,
}

/// Which instances are in the cluster, and how far the last change of that has come.
#[derive(Clone, Copy, Debug, PartialEq, Eq)]
pub struct Membership {
    /// How often the membership changed.
    pub epoch: u32,
    pub live: InstSet,
    pub phase: Phase,
    /// Who has reported since the last change.
    pub reported: InstSet,
}

impl Membership {
    /// An instance is lost. The epoch stays at the last `u32`.
    pub fn leave(&mut self, inst: InstNo)
        ensures { self.new ≡ left_by self.old inst }
    {
        let mut live = self.live;
        live.remove(inst);
        self.change(live);
    }

    /// An instance comes in. The epoch stays at the last `u32`.
    pub fn enter(&mut self, inst: InstNo)
        ensures { self.new ≡ entered self.old inst }
    {
        let mut live = self.live;
        live.insert(inst);
        self.change(live);
    }

    fn change(&mut self, live: InstSet)
        ensures { self.new ≡ changed self.old live }
    {
        self.epoch = self.epoch.saturating_add(1);
        self.live = live;
        self.phase = phase_of(&live);
        self.reported = InstSet::new();
    }

    /// Who leads the recovery: the lowest live instance; `None` where nobody is live.
    pub fn leader(&self) -> Option<InstNo>
        ensures { result ≡ leader self.now }
    {
        self.live.member(0)
    }

    /// Whether each live instance has reported since the last change.
    pub fn all_reported(&self) -> bool
        ensures { result ≡ all_reported self.now }
    {
        self.reported.holds_all(&self.live)
    }
}

// The phase as the membership becomes this.
fn phase_of(live: &InstSet) -> Phase
    ensures { result ≡ phase_of live.now }
{
    if live.is_empty() {
        Phase::Dark
    } else {
        Phase::Frozen
    }
}
