ghost use Rattle.protocol_ties.specs.Takes.{MessageIsARun};
ghost use Rattle.protocol_ties.specs.AmongAll.{MessageIsTakenAmongAll, SendsAreOfTheBlock};
ghost use Rattle.protocol_ties.specs.Bags.{NothingIsBorne, SentComesIn, TakenHasGone};
ghost use Rattle.protocol_ties.specs.Directories.{BucketsMoveWhole, DirectoryDrops, DirectoryTakesAtOne, EntryComes, EntryLeaves, EntryStaysShown};
ghost use Rattle.protocol_ties.specs.GoesOn.{MessageGoesOn};
ghost use Rattle.protocol_ties.specs.MasterTurns.{MasterRunsAreTurns, MasterRunsAreTurnsOfAll};
ghost use Rattle.protocol_ties.specs.OnLinks.{MasterTakesFromLinks};
ghost use Rattle.protocol_ties.specs.Places.{CacheChanges, CacheDropsPast, CacheEvicts, CacheHasNone, CacheInstalls, CacheInvalidates, CacheReads, CacheShips, CacheUpgrades, CacheWrites, CachesAreRegranted, LostCacheIsEmpty, MastersLeaveCaches, NoCacheHasNewBlock};
ghost use Rattle.protocol_ties.specs.Reports.{DirectoryIsMadeByEntries, NewBlockIsShown, ReportsMakeTheEntry};

/// What a master does with a message, as the directory's crate has it, is a run of the protocol of one block: the entry
/// that it comes to and what it sends are those of the state that the run leads to. All that it sends is a message of the
/// protocol about that block.
pub fn a_message_is_a_run()
    ensures run { MessageIsARun }
    ensures sends { SendsAreOfTheBlock }
{}

/// A run of a master's steps, after the packet that raised its clock, is a run of turns of the block in its cluster, and so
/// one of all blocks: so it keeps the invariant of each.
pub fn a_run_of_the_master_is_one_of_turns()
    ensures one { MasterRunsAreTurns }
    ensures all { MasterRunsAreTurnsOfAll }
{}

/// A message changes the one entry of its block in the master's directory, as the handler of a single entry says, and
/// sends what that sends. Where the instance masters no such block it changes nothing.
pub fn a_directory_takes_at_one_entry()
    ensures takes { DirectoryTakesAtOne }
    ensures drops { DirectoryDrops }
{}

/// A bucket that goes from one master to the next has each entry there as it was, and for each of its blocks that is two
/// steps of the protocol.
pub fn an_entry_moves()
    ensures whole { BucketsMoveWhole }
    ensures leaves { EntryLeaves }
    ensures comes { EntryComes }
    ensures shown { EntryStaysShown }
{}

/// A message for a master that comes to another instance goes on in a packet of that one's clock: a step of the protocol, or
/// none where the message bears no clock there. The entry is shown as before.
pub fn a_message_goes_on()
    ensures { MessageGoesOn }
{}

/// What a master's whole directory does with a message on a block is a run of all blocks: that one goes on as its entry
/// shows, and of any other the entry is as it was, nothing is sent about it, and it sees the risen clock alone.
pub fn a_message_is_taken_among_all_blocks()
    ensures { MessageIsTakenAmongAll }
{}

/// The entry that is made of the reports after a change of membership is the one of the protocol's Thaw: it lists each
/// image under its new grant. Before that, the empty entry is the one of a new block.
pub fn the_reports_make_the_entry()
    ensures thaw { ReportsMakeTheEntry }
    ensures new { NewBlockIsShown }
{}

/// A directory that is made of the reports has the entry of each block that its instance masters, made of what the reports
/// tell of that block alone.
pub fn a_directory_is_made_by_entries()
    ensures { DirectoryIsMadeByEntries }
{}

/// What waits on the links is a bag of messages of each block: what is sent comes in, what is taken has gone, whatever the
/// order on the links.
pub fn the_links_bear_the_bag()
    ensures sent { SentComesIn }
    ensures taken { TakenHasGone }
    ensures empty { NothingIsBorne }
{}

/// All of that together: a master takes the first packet of a link, and sends what its handler tells it to. That its
/// directory and the links show the block's state holds again afterwards, all blocks having gone on by a run.
pub fn a_master_takes_from_the_links()
    ensures { MasterTakesFromLinks }
{}

/// What a call on a cache does to what its instance has of a block is what the step of the protocol does to the images; and
/// what a master does leaves every cache. Which call is made when, and what is sent, is the holder's side, which isn't here.
pub fn a_cache_follows()
    ensures changes { CacheChanges }
    ensures writes { CacheWrites }
    ensures evicts { CacheEvicts }
    ensures invalidates { CacheInvalidates }
    ensures has_none { CacheHasNone }
    ensures ships { CacheShips }
    ensures installs { CacheInstalls }
    ensures reads { CacheReads }
    ensures upgrades { CacheUpgrades }
    ensures drops_past { CacheDropsPast }
    ensures masters { MastersLeaveCaches }
    ensures new { NoCacheHasNewBlock }
    ensures lost { LostCacheIsEmpty }
    ensures regranted { CachesAreRegranted }
{}
