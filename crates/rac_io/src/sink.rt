ghost use Rattle.std.specs.Prelude.{◌≡◌, List, ℕ, Option};
ghost use Rattle.rac_io.specs.Counts.{Counts};
ghost use Rattle.rac_io.specs.Write.{FitsPiece, WriteAppends, IsStall};

/// What one write answers.
#[derive(Clone, Copy, Debug, PartialEq, Eq)]
pub enum Put {
    /// So many bytes of the piece were taken, from its front.
    Bytes(usize),
    /// The write failed, and nothing was taken.
    Failed,
}

/// Where bytes go.
pub trait Sink {
    /// The bytes that the sink holds, where it tells them. One that tells goes on telling.
    ghost holds: { Self → Option (List ℕ) };

    /// How often a write has failed.
    ghost faults: { Self → ℕ };

    /// How often a write has taken nothing of a piece that isn't empty.
    ghost stalls: { Self → ℕ };

    /// Takes some bytes from the front of a piece.
    fn write(&mut self, bytes: &[u8]) -> Put
        ensures bound { FitsPiece result bytes.now }
        ensures bytes { WriteAppends (holds self.old) (holds self.new) result bytes.now }
        ensures faults { Counts (result ≡ Put.Failed) (faults self.old) (faults self.new) }
        ensures stalls { Counts (IsStall result bytes.now) (stalls self.old) (stalls self.new) };

    /// How often a write has failed. The count stops at the last value of `u64`.
    fn faults(&self) -> u64
        ensures { result ≡ faults self.now };
}
