ghost use Rattle.std.specs.Prelude.{◌≡◌, List, true};
ghost use Rattle.rand_pcg.specs.Lcg.{Lcg};
ghost use Rattle.rac_disk.specs.State.{State};
ghost use Rattle.script_text.specs.ScriptParts.{ScriptParts};
ghost use Rattle.journal.specs.Past.{Each};
ghost use Rattle.script_text.specs.GoodLines.{AllAnswered, IsAsked};
ghost use Rattle.script_text.specs.WellFormed.{IsWellFormed};
ghost use Rattle.inst_node.specs.declared.actions.Step.{Step};
ghost use Rattle.world_machine.specs.declared.worlds.World.{World};
ghost use Rattle.world_machine.specs.Runs.{IsRun};
ghost use Rattle.cluster_run.specs.First.{IsFirstWorld};
ghost use Rattle.line_laws.specs.Turns.{AreAnsweredOnce, AreEarlierWavesAnswered, AreInTurn};

/// A law: in every run of a script each line is answered at most once, whatever the disk does.
pub fn each_line_is_answered_once()
    ensures { (script : ScriptParts) (g : Lcg) (first : World) (disk : State) (book : List Step) (h : Lcg) (w : World)
        (disk_now : State) → IsWellFormed script → IsFirstWorld script first → IsRun g first disk book h w disk_now →
        AreAnsweredOnce w.core.journal }
{}

/// A law: in every run of a script the lines of a session are answered in their order. Each answer but that the session isn't
/// connected stands after a start of its line, and each start after the answers of the session's earlier lines.
pub fn lines_are_answered_in_order()
    ensures { (script : ScriptParts) (g : Lcg) (first : World) (disk : State) (book : List Step) (h : Lcg) (w : World)
        (disk_now : State) → IsWellFormed script → IsFirstWorld script first → IsRun g first disk book h w disk_now →
        AreInTurn script w.core.journal }
{}

/// A law: in every run of a script each statement line of the waves before the current one is answered.
pub fn a_wave_rises_once_the_earlier_are_answered()
    ensures { (script : ScriptParts) (g : Lcg) (first : World) (disk : State) (book : List Step) (h : Lcg) (w : World)
        (disk_now : State) → IsWellFormed script → IsFirstWorld script first → IsRun g first disk book h w disk_now →
        AreEarlierWavesAnswered script w.core.waves.wave w.core.journal }
{}

/// A law: in every run of a script a session is opened, and a line starts, as the script asks for it, once each statement line
/// of the earlier waves is answered.
pub fn what_starts_is_asked_for()
    ensures { (script : ScriptParts) (g : Lcg) (first : World) (disk : State) (book : List Step) (h : Lcg) (w : World)
        (disk_now : State) → IsWellFormed script → IsFirstWorld script first → IsRun g first disk book h w disk_now →
        Each (IsAsked script) w.core.journal }
{}

/// A law: a run of a script whose last wave is over has answered each statement line.
pub fn a_run_that_is_over_answered_all()
    ensures { (script : ScriptParts) (g : Lcg) (first : World) (disk : State) (book : List Step) (h : Lcg) (w : World)
        (disk_now : State) → IsWellFormed script → IsFirstWorld script first → IsRun g first disk book h w disk_now →
        w.core.waves.over ≡ true → AllAnswered script w.core.journal }
{}
