ghost use Rattle.std.specs.Prelude.{ℕ, ◌≡◌, true, false, List, [], ◌∷◌, Some, None};
ghost use Rattle.block_protocol.specs.Block.{Shared, Hold, Record, Block};
ghost use Rattle.block_protocol.specs.Runs.{start, Run};
ghost use Rattle.block_protocol.specs.Crash.{left_over};
ghost use Rattle.block_protocol.specs.Claims.{IsHolder};
ghost use Rattle.block_protocol.specs.Members.{Running, Cluster};
ghost use Rattle.block_protocol.specs.Recovery.{AllReported, NoImages, rolled_from, NoRedo};
ghost use Rattle.block_protocol.specs.ClusterRuns.{first, Turns};

/// Runs that show that the laws speak of something.
///
/// - `shipped`: instance 1 takes the block, changes it and ships it to instance 2, which changes it too.
/// - `copied`: instance 1 changes the block, and a statement of instance 2 reads a copy of that at the SCN 1.
/// - `upgraded`: both have shared images; once instance 2 has let its image go, instance 1 gets the exclusive one and changes it.
/// - `rebuilt`: the run of `shipped`, and instance 2 is lost before a second change of it is on disk; the block is rebuilt over the past
///   image of instance 1; then the leader, instance 0, is lost too. All begins anew, and instance 1 makes version 3.
/// - `dark`: the one instance is lost; it joins while its former thread isn't closed yet, closes that and runs.
/// - `taken_back`: instance 0 has drawn SCNs up to 10 that are nowhere on disk, and a Thaw after the loss of instance 2 raises the
///   clocks to that; but instance 0 is lost too before instance 1 has taken a packet, and the next record bears the SCN 1.
pub fn sample_runs()
    ensures shipped { (block : Block) × Run (start 0) block × IsHolder block 2 × (block.version 2 ≡ 2) × (block.disk ≡ 0) ×
        (block.frame 1 ≡ None) × (block.past 1 ≡ Some 1) }
    ensures copied { (block : Block) × Run (start 0) block × (block.copies 2 ≡ (1, 1) ∷ []) × (block.used ≡ (1, 1) ∷ []) }
    ensures upgraded { (readers : Block) × Run (start 0) readers × (readers.frame 1 ≡ Some (record { mode = Shared; grant = 1 })) ×
        (readers.frame 2 ≡ Some (record { mode = Shared; grant = 2 })) × (block : Block) × Run readers block × IsHolder block 1 × (block.frame 2 ≡ None) × (block.version 1 ≡ 1) }
    ensures rebuilt { (cluster : Cluster) × Turns (first 3 0) cluster × (cluster.members.phase ≡ Running) ×
        (cluster.members.live 0 ≡ false) × (cluster.members.live 2 ≡ false) × IsHolder cluster.block 1 ×
        (cluster.block.version 1 ≡ 3) × (cluster.block.disk ≡ 2) }
    ensures dark { (lost : Cluster) × (joined : Cluster) × (cluster : Cluster) × Turns (first 1 0) lost × (lost.members.live 0 ≡ false) × Turns lost joined ×
        (joined.members.live 0 ≡ true) × (joined.members.unclosed 0 ≡ true) × Turns joined cluster ×
        (cluster.members.phase ≡ Running) × (cluster.members.live 0 ≡ true) × (cluster.members.unclosed 0 ≡ false) ×
        (cluster.members.paused 0 ≡ false) }
    ensures taken_back { (drawn : Cluster) × (thawed : Cluster) × (cluster : Cluster) × Turns (first 3 0) drawn × (drawn.block.clock 0 ≡ 10) × Turns drawn thawed ×
        (thawed.members.live 0 ≡ false) × (thawed.members.live 2 ≡ false) × Turns thawed cluster ×
        (cluster.members.phase ≡ Running) × (cluster.block.records ≡ record { maker = 1; scn = 1; durable = false } ∷ []) }
{}

/// States that a machine which left out a rule would come to.
///
/// - `stale_base`: from the disk alone, without the past image that is newer, what is read has a gap.
/// - `early_close`: a thread has a record above the disk's version, so it can't be closed yet.
/// - `late_force`: where a record is on disk above one that waits, the loss of the waiting one leaves a gap.
pub fn states_that_would_lose()
    ensures stale_base { (cluster : Cluster) × Turns (first 3 0) cluster × (cluster.block.disk ≡ 0) ×
        (rolled_from cluster.members 0 cluster.block.records ≡ None) }
    ensures early_close { (cluster : Cluster) × Turns (first 3 0) cluster ×
        (NoRedo cluster.members.unclosed cluster.block.disk cluster.block.records → ⊥) }
    ensures late_force { left_over 1 0 (record { maker = 2; scn = 2; durable = true } ∷ record { maker = 1; scn = 1; durable = false } ∷ []) ≡
        record { maker = 2; scn = 2; durable = true } ∷ [] }
{}
