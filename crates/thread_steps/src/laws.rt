ghost use Rattle.thread_steps.specs.Once.{EntersOnce};

/// A law: a thread that is read again enters nothing that it has entered already, whoever reads it.
pub fn a_committed_enters_once()
    ensures { EntersOnce }
{}
