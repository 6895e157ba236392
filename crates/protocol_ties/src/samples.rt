ghost use Rattle.std.specs.Prelude.{◌≡◌, [], ◌∷◌, None, Some, true, length};
ghost use Rattle.wire_net.specs.declared.message.Mode.TheVariants as modes;
ghost use Rattle.wire_net.specs.declared.message.Unfound.TheVariants as unfound;
ghost use Rattle.wire_net.specs.declared.message.Message.TheVariants as messages;
ghost use Rattle.wire_net.specs.Entry.{empty_entry};
ghost use Rattle.resource_dir.specs.Rebuilt.{rebuilt, rebuilt_directory};
ghost use Rattle.block_protocol.specs.Block.{Block};
ghost use Rattle.block_protocol.specs.Runs.{start, Run};
ghost use Rattle.block_protocol.specs.AllBlocks.{AllBlocks, first_of_all, RunOfAll, view};
ghost use Rattle.protocol_ties.specs.OnLinks.{IsFirst, IsMastered};
ghost use Rattle.protocol_ties.specs.AmongAll.{MayTakeAmong};
ghost use Rattle.protocol_ties.specs.Reports.{AreReports, IsExclusiveAlone};
ghost use Rattle.protocol_ties.specs.Samples.{IsSample, all_to_one, alone, alone_and_ordered, asking, one_asks, reports, shared_and_wanted};

/// States that show that the laws speak of something.
///
/// - `first_ask`: instance 1 asks for a new block, and gets it from disk.
/// - `next_in_line`: instance 1 has installed its shared image, and instance 2 waits to change the block: the Done ends the
///   one operation, and begins the next, which tells instance 1 to let its image go.
/// - `order_came_back`: instance 1 had the block alone and has given it up as the order to ship it came: the order comes
///   back before the GaveUp, and its asker gets the disk's image.
/// - `plea`: instance 1 has the block alone and has changed it; a plea that version 1 be written is passed to it.
/// - `reported`: of the reports the entry is made again, with instance 1 alone, by a new grant.
/// - `among_all`: the directory that masters every block may take the first Ask.
/// - `on_links`: that Ask is the first packet on the link from instance 1 to the master, and the only one.
pub fn sample_states()
    ensures first_ask { IsSample (messages.Ask 5 modes.Shared modes.Null 1) empty_entry ((1, messages.Grant 5 1 modes.Shared true) ∷ []) }
    ensures next_in_line { IsSample (messages.Done 5 1 modes.Shared None) shared_and_wanted ((1, messages.Invalidate 5 1) ∷ []) }
    ensures order_came_back { IsSample (messages.Back (unfound.ShipTo 5 1 2 2)) alone_and_ordered ((2, messages.Grant 5 3 modes.Exclusive true) ∷ []) }
    ensures plea { IsSample (messages.WritePlease 5 1 2 None) alone ((1, messages.WritePlease 5 1 2 (Some 1)) ∷ []) }
    ensures reported { (block : Block) × Run (start 0) block × AreReports 5 reports block.frame × IsExclusiveAlone block.frame ×
        (rebuilt 5 reports ≡ alone) }
    ensures among_all { (whole : AllBlocks) × RunOfAll (first_of_all 3 (λ block_no. 0)) whole ×
        MayTakeAmong whole (rebuilt_directory 0 all_to_one []) 0 0 5 (messages.Ask 5 modes.Shared modes.Null 1) [] empty_entry }
    ensures on_links { (whole : AllBlocks) × RunOfAll (first_of_all 3 (λ block_no. 0)) whole × IsMastered 0 (rebuilt_directory 0 all_to_one []) one_asks 5 empty_entry (view whole 5).block ×
        IsFirst 0 1 one_asks asking 5 (view whole 5).block }
{}
