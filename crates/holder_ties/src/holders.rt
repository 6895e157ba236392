ghost use Rattle.holder_ties.specs.Beside.{ClocksMayRise, ImageIsChanged, LinksMayDiffer, MasterTakes, MessagePassesOn, RedoMayBeForced};
ghost use Rattle.holder_ties.specs.HolderTurns.{HolderRunsAreTurnsOfAll};
ghost use Rattle.holder_ties.specs.Own.{AskGoesOut, ImageIsEvicted, ImageIsWritten, WriteIsPleaded, WriteIsTold};
ghost use Rattle.holder_ties.specs.Holders.{CopyComesBack, CopyIsServed, CopyIsTaken, DiskImageIsInstalled, ImageIsUpgraded, PastIsDropped, PleaComesBack, PleaIsMet, PleaIsNoted, ShipmentIsInstalled, ImageIsShared, ImageIsShipped, InvalidateIsObeyed, ShareComesBack, ShipComesBack};

/// An Invalidate comes: the image that it names goes, if it is still there, and the master hears of it. That is a step of the
/// protocol.
pub fn an_invalidate_is_obeyed()
    ensures { InvalidateIsObeyed }
{}

/// An order for an image comes: the image moves to the asker, or an equal of a shared one goes there, once the redo on it is
/// on the disk; an order that finds none goes back. Each is a step of the protocol.
pub fn an_order_is_followed()
    ensures back { ShipComesBack }
    ensures back_shared { ShareComesBack }
    ensures moves { ImageIsShipped }
    ensures shares { ImageIsShared }
{}

/// A copy is ordered: one of the current image goes to the reader, once the redo on it is on the disk, and an order that finds
/// no image goes back. A copy that comes is kept. Each is a step of the protocol.
pub fn a_copy_is_served_and_taken()
    ensures back { CopyComesBack }
    ensures serves { CopyIsServed }
    ensures takes { CopyIsTaken }
{}

/// A past image goes that the disk has. A plea to write is noted where the image is dirty, met where the disk has it, and goes
/// back where there is none. Each is a run of the protocol.
pub fn past_images_and_pleas_are_taken()
    ensures drops { PastIsDropped }
    ensures back { PleaComesBack }
    ensures notes { PleaIsNoted }
    ensures meets { PleaIsMet }
{}

/// An image is installed that was shipped, that the disk has, or that is held shared: that is a step of the protocol.
pub fn an_image_is_installed()
    ensures shipped { ShipmentIsInstalled }
    ensures from_disk { DiskImageIsInstalled }
    ensures upgraded { ImageIsUpgraded }
{}

/// An instance asks for the block, lets a clean image go, asks that it be written for the sake of a past image, writes its dirty
/// image once the redo on it is on the disk, and tells the master of a write: each is a step of the protocol.
pub fn an_instance_acts_on_its_image()
    ensures asks { AskGoesOut }
    ensures evicts { ImageIsEvicted }
    ensures pleads { WriteIsPleaded }
    ensures writes { ImageIsWritten }
    ensures tells { WriteIsTold }
{}

/// While blocks are served, what an instance that is up does with its image of a block is a run of turns of all blocks: so it
/// keeps the invariant of each.
pub fn a_run_of_a_holder_is_one_of_turns()
    ensures { HolderRunsAreTurnsOfAll }
{}

/// What else happens leaves a block shown: messages of other blocks, a clock that rises, redo that is forced. A change of the
/// image is a step of the protocol, and so are what a master does with a message and that another instance passes one on to it.
pub fn a_block_stays_shown()
    ensures links { LinksMayDiffer }
    ensures clocks { ClocksMayRise }
    ensures forces { RedoMayBeForced }
    ensures changes { ImageIsChanged }
    ensures masters { MasterTakes }
    ensures passes { MessagePassesOn }
{}
