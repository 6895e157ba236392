/// Why the actors stopped before the run had ended.
#[derive(Debug, Drop)]
pub enum WhyStopped<N> {
    /// The gate refused this actor.
    Gate(u32, N),
    NoMemory,
}

/// How an actor ended.
#[derive(Drop)]
pub enum End<N> {
    /// The run has ended.
    Finished,
    /// Another actor had raised the flag.
    Stopped,
    Failed(WhyStopped<N>),
}
