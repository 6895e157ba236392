/// A step of an actor.
#[derive(Clone, Copy, Debug, PartialEq, Eq)]
pub enum Step {
    /// This actor counted, for itself.
    Counted(u32),
    /// This actor handed the token on.
    Passed(u32),
}

/// What an actor has of its own.
#[derive(Clone, Copy, Debug, PartialEq, Eq)]
pub struct Counter {
    /// How often it counted.
    pub count: u64,
    /// The actor, where its last count waits for the book.
    pub mark: Option<u32>,
}

/// What the actors share.
#[derive(Clone, Copy, Debug, PartialEq, Eq)]
pub struct Token {
    /// How many actors there are, at least 1.
    pub actors: u32,
    /// Whose turn it is to hand the token on.
    pub holder: u32,
    /// How often it was handed on, up to 100.
    pub passes: u64,
    /// How many counts were noted.
    pub counts: u64,
}
