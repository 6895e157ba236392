ghost use Rattle.std.specs.Prelude.{◌≡◌, true, [], ◌∷◌};

use std::marker::Model;

/// The calls of a source or a sink in memory: which are to fail, how many were made, and how many
/// failed.
#[derive(Drop)]
pub struct CallLog {
    fails: Vec<u32>,
    made: u64,
    faults: u64,
}

impl Model for CallLog {
    ghost use Rattle.rac_io.specs.Memory.{Calls};

    ghost Value = { Calls };

    ghost view = { λ log. record { fails = log.fails.items; made = log.made; faults = log.faults } };
}

impl CallLog {
    ghost use Rattle.rac_io.specs.Memory.{next_is_to_fail, count_after};

    /// No call yet.
    pub fn new(fails: Vec<u32>) -> CallLog
        ensures { result ≡ record { fails = fails.items; made = 0; faults = 0 } }
    {
        CallLog {
            fails,
            made: 0,
            faults: 0,
        }
    }

    /// Counts a call; whether it is to fail.
    pub fn call(&mut self) -> bool
        ensures answer { result ≡ next_is_to_fail self.old }
        ensures made { self.new ≡ record self.old { made = count_after self.old.made } }
    {
        self.made = self.made.saturating_add(1);
        self.fails
            .iter()
            .any(|number| u64::from(*number) == self.made)
    }

    /// Counts a fault.
    pub fn fail(&mut self)
        ensures { self.new ≡ record self.old { faults = count_after self.old.faults } }
    {
        self.faults = self.faults.saturating_add(1);
    }

    pub fn faults(&self) -> u64
        ensures { result ≡ self.now.faults }
    {
        self.faults
    }
}
