ghost use Rattle.std.specs.Prelude.{◌≡◌, ◌<◌, ◌+◌, ◌-◌, ◌^◌};
ghost use Rattle.scn_clock.specs.Clock.{drawn, learnt, raised};

use base_types::Scn;

/// The clock of an instance.
#[derive(Clone, Copy, Debug, PartialEq, Eq)]
pub struct Clock {
    /// The SCN of its newest record, or a higher one that it heard of.
    pub scn: Scn,
    /// The highest SCN of a transaction's end that it knows to be on the disk.
    pub known: Scn,
}

impl Clock {
    /// The SCN of a record more, which is one more. The clock must not stand at the last `u64`.
    pub fn draw(&mut self) -> Scn
        requires { self.old.scn < 2 ^ 64 - 1 }
        ensures clock { self.new ≡ drawn self.old }
        ensures scn { result ≡ self.old.scn + 1 }
    {
        self.scn = Scn(self.scn.get() + 1);
        self.scn
    }

    /// Hears of another clock's SCN.
    pub fn raise(&mut self, to: Scn)
        ensures { self.new ≡ raised self.old to }
    {
        self.scn = later(self.scn, to);
    }

    /// Learns that an end at this SCN is on the disk.
    pub fn learn(&mut self, end: Scn)
        ensures { self.new ≡ learnt self.old end }
    {
        self.raise(end);
        self.known = later(self.known, end);
    }
}

ghost use Rattle.std.specs.Prelude.{max};

// The later of two SCNs.
fn later(a: Scn, b: Scn) -> Scn
    ensures { result ≡ max a b }
{
    Scn(a.get().max(b.get()))
}
