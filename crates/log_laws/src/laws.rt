ghost use Rattle.std.specs.Prelude.{◌≡◌, ◌<◌, ◌-◌, ◌^◌, ℕ, List, length, true, is_some, IsSomeAnd};
ghost use Rattle.rand_pcg.specs.Lcg.{Lcg};
ghost use Rattle.rac_disk.specs.State.{State};
ghost use Rattle.script_text.specs.ScriptParts.{ScriptParts};
ghost use Rattle.script_text.specs.WellFormed.{IsWellFormed};
ghost use Rattle.first_state.specs.declared.creation.Created.TheVariants.{Whole};
ghost use Rattle.first_state.specs.Plan.{layout_of};
ghost use Rattle.inst_node.specs.declared.actions.Step.{Step};
ghost use Rattle.world_machine.specs.declared.worlds.World.{World};
ghost use Rattle.world_machine.specs.Runs.{IsRun};
ghost use Rattle.cluster_run.specs.declared.script_runs.ClusterRun.{ClusterRun};
ghost use Rattle.cluster_run.specs.First.{IsFirstWorld};
ghost use Rattle.cluster_run.specs.Runs.{IsCreated, IsRunOf};
ghost use Rattle.thread_steps.specs.Found.{FindsThread};
ghost use Rattle.thread_steps.specs.declared.found.Found.{Found};
ghost use Rattle.base_types.specs.declared.layout.Layout.{Layout};
ghost use Rattle.log_laws.specs.Logs.{HasGoodLogs, HasRightLogs, IsBadFor};

/// A law: in every run over a database made anew, on a disk that tells what it holds, whatever crashes and whichever calls fail, the
/// disk has all of the log that an open thread holds to be durable, and with what waits it is whole records; and each log is whole
/// records, and then nothing or one cut short. The run has so few steps that the count of changes of membership can't stand still.
pub fn a_live_thread_has_its_log()
    ensures { (script : ScriptParts) (g : Lcg) (first : World) (disk created : State) (book : List Step) (h : Lcg) (w : World)
        (disk_now : State) → IsRun g first created book h w disk_now → IsWellFormed script → IsFirstWorld script first →
        is_some disk.told ≡ true → IsCreated (layout_of script) Whole disk created → length book < 2 ^ 32 - 1 →
        IsSomeAnd disk_now.told (HasRightLogs w) }
{}

/// A law: after every such run no log is one that no run leaves, so that an audit of the disk doesn't meet one.
pub fn logs_stay_right()
    ensures { (script : ScriptParts) (g : Lcg) (first : World) (disk created : State) (book : List Step) (h : Lcg) (w : World)
        (disk_now : State) → IsRun g first created book h w disk_now → IsWellFormed script → IsFirstWorld script first →
        is_some disk.told ≡ true → IsCreated (layout_of script) Whole disk created → length book < 2 ^ 32 - 1 →
        IsSomeAnd disk_now.told HasGoodLogs }
{}

/// A law: the same of a script's whole run, whose steps the limit keeps few enough.
pub fn a_run_leaves_good_logs()
    ensures { (script : ScriptParts) (it : ClusterRun) (disk created disk_now : State) → IsWellFormed script → is_some disk.told ≡ true →
        IsCreated (layout_of script) Whole disk created → IsRunOf script it created disk_now → IsSomeAnd disk_now.told HasGoodLogs }
{}

/// A law: where a dead thread is read in such a run and told to be such as no run leaves it, that isn't for its log: its control entry
/// or one of its records has a number that no run comes near, or a block that they name isn't what a run leaves there.
pub fn a_dead_thread_is_read()
    ensures { (script : ScriptParts) (g : Lcg) (first : World) (disk created : State) (book : List Step) (h : Lcg) (w : World)
        (disk_now later : State) (layout : Layout) (thread : ℕ) (found : Found) → IsRun g first created book h w disk_now →
        IsWellFormed script → IsFirstWorld script first → is_some disk.told ≡ true → IsCreated (layout_of script) Whole disk created →
        length book < 2 ^ 32 - 1 → thread < 8 → FindsThread layout thread found disk_now later →
        IsSomeAnd disk_now.told (IsBadFor layout thread found) }
{}
