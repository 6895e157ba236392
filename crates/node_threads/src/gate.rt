ghost use Rattle.std.specs.Prelude.{ℕ, IfErr};

/// What an actor asks before each turn.
pub trait Gate {
    /// Why an actor may not go on.
    type No: Send + Drop;

    /// The gate gave this actor this refusal.
    ghost gave: { Self → ℕ → Self.No → Type 0 };

    /// Whether the actor may take its next turn. It may wait.
    fn pass(&self, actor: u32) -> Result<(), Self::No>
        ensures { IfErr result (λ refusal. gave self.now actor refusal) };
}

/// A gate that every actor passes.
pub struct FreeGate;

/// The refusal of `FreeGate`, which it never gives.
#[derive(Clone, Copy, Debug, PartialEq, Eq)]
pub struct FreeNo;

impl Gate for FreeGate {
    type No = FreeNo;

    ghost gave = { λ gate actor refusal. ⊥ };

    fn pass(&self, _actor: u32) -> Result<(), FreeNo> {
        Ok(())
    }
}
