ghost use Rattle.std.specs.Prelude.{◌≡◌, ◌<◌, ℕ, List, [], length, Some, false, slice_get, slice_index_or, true};
ghost use Rattle.rand_pcg.specs.Lcg.{Lcg};
ghost use Rattle.rac_disk.specs.State.{State};
ghost use Rattle.journal.specs.declared.entry.Entry.{Entry};
ghost use Rattle.base_types.specs.declared.names.Xid.{Xid};
ghost use Rattle.undo_segment.specs.Begin.{next_xid};
ghost use Rattle.inst_state.specs.declared.inst.Inst.{Inst};
ghost use Rattle.journal.specs.Good.{AckIsProper, CommitIsProper};
ghost use Rattle.journal.specs.Past.{Each};
ghost use Rattle.journal.specs.Sees.{own};
ghost use Rattle.journal.specs.Stood.{stood};
ghost use Rattle.inst_state.specs.State.{session_at};
ghost use Rattle.script_text.specs.ScriptParts.{ScriptParts};
ghost use Rattle.script_text.specs.WellFormed.{IsWellFormed};
ghost use Rattle.inst_node.specs.declared.actions.Step.{Step};
ghost use Rattle.world_machine.specs.declared.worlds.World.{World};
ghost use Rattle.world_machine.specs.Machine.{W};
ghost use Rattle.world_machine.specs.Runs.{IsRun};
ghost use Rattle.cluster_run.specs.First.{IsFirstWorld};
ghost use Rattle.run_laws.specs.Runs.{Adds};
ghost use Rattle.end_laws.specs.Calm.{is_calm};
ghost use Rattle.end_laws.specs.Names.{names};
ghost use Rattle.end_laws.specs.Marked.{CommitIsMarked, EachAdded, is_log_read};

/// A law: in every run of a script a commit is answered only after its mark by that statement, and after it has entered,
/// whatever crashes and whatever the disk does.
pub fn commits_are_answered_once_they_entered()
    ensures { (script : ScriptParts) (g : Lcg) (first : World) (disk : State) (book : List Step) (h : Lcg) (w : World)
        (disk_now : State) → IsWellFormed script → IsFirstWorld script first → IsRun g first disk book h w disk_now →
        Each AckIsProper w.core.journal }
{}

/// A law: in every run of a script an instance tells only of commits that are its own, each after its mark. Only what is read of
/// the log of an instance that is gone may tell of others.
pub fn a_commit_enters_after_its_mark()
    ensures { (script : ScriptParts) (g : Lcg) (first : World) (disk : State) (book : List Step) (h : Lcg) (w : World)
        (disk_now : State) → IsWellFormed script → IsFirstWorld script first → IsRun g first disk book h w disk_now →
        (step : Step) (v : World) (disk_then : State) → W w disk_now step v disk_then → is_log_read step.action ≡ false →
        (entries : List Entry) → Adds w v entries → EachAdded CommitIsMarked entries w.core.journal }
{}

/// A law: in every run of a script in which no instance is lost, the transaction that an instance begins next is named in no entry.
pub fn a_new_transaction_is_new()
    ensures { (script : ScriptParts) (g : Lcg) (first : World) (disk : State) (book : List Step) (h : Lcg) (w : World)
        (disk_now : State) → IsWellFormed script → IsFirstWorld script first → IsRun g first disk book h w disk_now →
        is_calm w.core.journal ≡ true → (i : ℕ) (n : Inst) → slice_get w.insts i ≡ Some n →
        (x : Xid) → next_xid n.segment ≡ Some x → stood (names x) w.core.journal ≡ false }
{}

/// A law: in every run of a script in which no instance is lost, a transaction commits on its own instance, after its mark,
/// once, and at no SCN at which another one of the instance has committed; nothing of it follows.
pub fn a_transaction_commits_once()
    ensures { (script : ScriptParts) (g : Lcg) (first : World) (disk : State) (book : List Step) (h : Lcg) (w : World)
        (disk_now : State) → IsWellFormed script → IsFirstWorld script first → IsRun g first disk book h w disk_now →
        is_calm w.core.journal ≡ true → Each CommitIsProper w.core.journal }
{}

/// A law: in every run of a script in which no instance is lost, each session that has lines on an instance owns there the
/// transaction that the journal says: the one that it changed or locked rows by last, while that is open.
pub fn a_session_owns_what_the_journal_says()
    ensures { (script : ScriptParts) (g : Lcg) (first : World) (disk : State) (book : List Step) (h : Lcg) (w : World)
        (disk_now : State) → IsWellFormed script → IsFirstWorld script first → IsRun g first disk book h w disk_now →
        is_calm w.core.journal ≡ true → (i : ℕ) (n : Inst) → slice_get w.insts i ≡ Some n →
        (z : ℕ) → 0 < length (slice_index_or n.plan.lines z []) → (session_at n z).own ≡ own z w.core.journal }
{}
