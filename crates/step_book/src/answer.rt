/// What a turn came to.
#[derive(Clone, Copy, Debug, PartialEq, Eq)]
pub enum Turn {
    /// One shared step was made.
    Did,
    /// No shared step of this actor was possible.
    Nothing,
    /// The run has ended.
    Finished,
    /// Memory ran out, in this turn or in an earlier one.
    NoMemory,
}
