ghost use Rattle.machine_ties.specs.Steps.{AcksPlay, AsksPlay, BroadcastsPlay, CheckpointsPlay, CopiesPlay, EndsPlay, EntersPlay, EvictsPlay, FirstWorldsPlay, ForcesPlay, InstallsPlay, InvalidatesPlay, KeepsPlay, LeavesPlay, MarksPlay, MasterTakesPlay, MastersAreSane, MastersDrawFew, NewsPlay, PastsPlay, PleasPlay, RisesPlay, ShipsPlay, SkipsPlay, StartsPlay, StepsMayBeMore, TakenCopiesPlay, UndoAsksPlay, UndoComes, UndoIsServed, UnmadeChangesPlay, VisitsPlay, WritesPlay};

/// The first world of a script, over a new database, plays the protocol.
pub fn the_first_world_plays()
    ensures first { FirstWorldsPlay }
{}

/// What an instance does with a message about its image of a block is a run of the protocol of that block, and the others play on: it
/// obeys an Invalidate, ships an image, serves a copy, drops a past image, deals with a plea to write, takes a copy, or installs
/// an image.
pub fn steps_with_images_play()
    ensures invalidates { InvalidatesPlay }
    ensures ships { ShipsPlay }
    ensures copies { CopiesPlay }
    ensures pasts { PastsPlay }
    ensures taken { TakenCopiesPlay }
    ensures installs { InstallsPlay }
{}

/// What an instance does with a block of its own accord is a run of the protocol of that block, and the others play on: it asks for
/// it, lets a clean image go, asks that it be written so that a past image may go, or writes it.
pub fn steps_with_blocks_play()
    ensures asks { AsksPlay }
    ensures evicts { EvictsPlay }
    ensures pleas { PleasPlay }
    ensures writes { WritesPlay }
{}

/// What an instance does with a message for a master is a run of the protocol of its block, and the others play on: it takes the message
/// as the block's master, or passes it on. It draws grants, so that steps are counted there, and may be counted elsewhere.
pub fn a_master_plays()
    ensures takes { MasterTakesPlay }
    ensures more { StepsMayBeMore }
{}

/// What a master sends names what is there where the message does, and it draws few grants.
pub fn a_master_stays_sane()
    ensures sane { MastersAreSane }
    ensures few { MastersDrawFew }
{}

/// What an instance does without touching a block is a run of the protocol, and at most its clock rises: a line starts, reads on, is refused a
/// change or is answered; an end is told, heard of and answered; undo is asked for, is served and comes; a checkpoint ends; the instance enters the wave and leaves it; the next wave rises; a control line
/// finds nothing to do, or its bucket at its new master.
pub fn quiet_steps_play()
    ensures starts { StartsPlay }
    ensures visits { VisitsPlay }
    ensures unmade { UnmadeChangesPlay }
    ensures answered { EndsPlay }
    ensures told { BroadcastsPlay }
    ensures heard { NewsPlay }
    ensures acks { AcksPlay }
    ensures asks { UndoAsksPlay }
    ensures undo { UndoIsServed }
    ensures comes { UndoComes }
    ensures checkpoints { CheckpointsPlay }
    ensures enters { EntersPlay }
    ensures leaves { LeavesPlay }
    ensures rises { RisesPlay }
    ensures skips { SkipsPlay }
    ensures keeps { KeepsPlay }
{}

/// What an instance does with its redo is a run of the protocol: it makes the end record of a transaction, and it forces its redo, of
/// all blocks at once.
pub fn steps_with_redo_play()
    ensures marks { MarksPlay }
    ensures forces { ForcesPlay }
{}
