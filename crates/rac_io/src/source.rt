ghost use Rattle.std.specs.Prelude.{◌≡◌, List, ℕ, Option};
ghost use Rattle.rac_io.specs.Counts.{Counts};
ghost use Rattle.rac_io.specs.Read.{FitsRoom, ReadTakes};

/// What one read answers.
#[derive(Clone, Copy, Debug, PartialEq, Eq)]
pub enum Got {
    /// So many bytes, at the front of the room. 0 where there is room counts as `End`.
    Bytes(usize),
    /// Nothing is left.
    End,
    /// The read failed, and took nothing.
    Failed,
}

/// Where bytes come from.
pub trait Source {
    /// The bytes that are left, where the source tells them. One that tells goes on telling.
    ghost left: { Self → Option (List ℕ) };

    /// How often a read has failed.
    ghost faults: { Self → ℕ };

    /// Reads some bytes into the front of `out`; what stands behind them may be anything.
    fn read(&mut self, out: &mut [u8]) -> Got
        ensures bound { FitsRoom result out.new }
        ensures bytes { ReadTakes (left self.old) (left self.new) result out.new }
        ensures faults { Counts (result ≡ Got.Failed) (faults self.old) (faults self.new) };

    /// How often a read has failed. The count stops at the last value of `u64`.
    fn faults(&self) -> u64
        ensures { result ≡ faults self.now };
}
