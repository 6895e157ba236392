ghost use Rattle.std.specs.Prelude.{◌≡◌, length};
ghost use Rattle.std.specs.List.{list_all};
ghost use Rattle.inst_set.specs.Sets.{count_below, has, has_if, holds_all, in_both, is_empty, limited_to, member_at, members, no_insts, with_inst, without_inst};

use base_types::InstNo;

/// The numbers of all instances.
pub const ALL_INSTS: [InstNo; 8] = [
    InstNo(0),
    InstNo(1),
    InstNo(2),
    InstNo(3),
    InstNo(4),
    InstNo(5),
    InstNo(6),
    InstNo(7),
];

/// A set of instances. No instance has a number above 7, so such a number is in no set.
#[derive(Clone, Copy, Debug, PartialEq, Eq)]
pub struct InstSet {
    present: [bool; 8],
}

impl InstSet {
    /// The empty set.
    pub fn new() -> InstSet
        ensures { result ≡ no_insts }
    {
        InstSet {
            present: [false; 8],
        }
    }

    /// The set of the instances at whose places `true` stands.
    pub fn from_array(present: [bool; 8]) -> InstSet
        ensures { result.present ≡ present }
    {
        InstSet { present }
    }

    pub fn has(&self, inst: InstNo) -> bool
        ensures { result ≡ has self.now inst }
    {
        let place = usize::from(inst.get());
        place < 8 && self.present[place]
    }

    /// Puts an instance into the set.
    pub fn insert(&mut self, inst: InstNo)
        ensures { self.new ≡ with_inst self.old inst }
    {
        let place = usize::from(inst.get());
        if place < 8 {
            self.present[place] = true;
        }
    }

    /// Takes an instance out of the set.
    pub fn remove(&mut self, inst: InstNo)
        ensures { self.new ≡ without_inst self.old inst }
    {
        let place = usize::from(inst.get());
        if place < 8 {
            self.present[place] = false;
        }
    }

    pub fn is_empty(&self) -> bool
        ensures { result ≡ is_empty self.now }
    {
        self.present.iter().all(|is_in| !*is_in)
    }

    /// How many instances it has.
    pub fn count(&self) -> usize
        ensures { result ≡ length (members self.now) }
    {
        ALL_INSTS
            .iter()
            .copied()
            .filter(|inst| self.has(*inst))
            .count()
    }

    /// How many of its instances have a lower number than this one.
    pub fn count_below(&self, inst: InstNo) -> usize
        ensures { result ≡ count_below self.now inst }
    {
        ALL_INSTS
            .iter()
            .copied()
            .filter(|other| self.has(*other) && *other < inst)
            .count()
    }

    /// The instance at a place, from 0, in the order of their numbers; `None` where there is none.
    pub fn member(&self, place: usize) -> Option<InstNo>
        ensures { result ≡ member_at self.now place }
    {
        ALL_INSTS
            .iter()
            .copied()
            .find(|inst| self.has(*inst) && self.count_below(*inst) == place)
    }

    /// Whether each instance of the other set is in this one.
    pub fn holds_all(&self, other: &InstSet) -> bool
        ensures { result ≡ holds_all self.now other.now }
    {
        has_each(self, other, &ALL_INSTS)
    }

    /// The instances that are in both sets.
    pub fn limited_to(&self, other: &InstSet) -> InstSet
        ensures { result ≡ limited_to self.now other.now }
    {
        InstSet {
            present: [
                in_both(self, other, 0),
                in_both(self, other, 1),
                in_both(self, other, 2),
                in_both(self, other, 3),
                in_both(self, other, 4),
                in_both(self, other, 5),
                in_both(self, other, 6),
                in_both(self, other, 7),
            ],
        }
    }
}

// Whether of these instances each one of the second set is in the first.
fn has_each(set: &InstSet, other: &InstSet, insts: &[InstNo]) -> bool
    ensures { result ≡ list_all (has_if set.now other.now) insts.now }
{
    insts.iter().all(|inst| has_if(set, other, *inst))
}

// Whether an instance is in the first set, or not in the second.
fn has_if(set: &InstSet, other: &InstSet, inst: InstNo) -> bool
    ensures { result ≡ has_if set.now other.now inst }
{
    !other.has(inst) || set.has(inst)
}

// Whether an instance is in both sets.
fn in_both(set: &InstSet, other: &InstSet, inst: u8) -> bool
    ensures { result ≡ in_both set.now other.now inst }
{
    set.has(InstNo(inst)) && other.has(InstNo(inst))
}
