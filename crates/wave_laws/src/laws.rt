ghost use Rattle.std.specs.Prelude.{◌≡◌, List, true};
ghost use Rattle.rand_pcg.specs.Lcg.{Lcg};
ghost use Rattle.rac_disk.specs.State.{State};
ghost use Rattle.script_text.specs.ScriptParts.{ScriptParts};
ghost use Rattle.script_text.specs.WellFormed.{IsWellFormed};
ghost use Rattle.inst_node.specs.declared.actions.Step.{Step};
ghost use Rattle.world_machine.specs.declared.worlds.World.{World};
ghost use Rattle.world_machine.specs.Runs.{IsRun};
ghost use Rattle.cluster_run.specs.First.{IsFirstWorld};
ghost use Rattle.good_run.specs.Good.{is_whole, turns_are_kept};
ghost use Rattle.wave_laws.specs.Controls.{AreControlsAsked, controls_have_turns};

/// A law: in every run of a script each entry that names a control line answers one that asks for it, and no two name one line,
/// whatever the disk does.
pub fn each_control_line_is_answered_once()
    ensures { (script : ScriptParts) (g : Lcg) (first : World) (disk : State) (book : List Step) (h : Lcg) (w : World)
        (disk_now : State) → IsWellFormed script → IsFirstWorld script first → IsRun g first disk book h w disk_now →
        AreControlsAsked script w.core.journal }
{}

/// A law: in every run of a script each control line is answered in its wave, which the whole journal tells at that place: all lines of
/// the earlier waves are answered there, by an entry or by the end of an instance, and the line isn't.
pub fn each_control_line_has_its_turn()
    ensures { (script : ScriptParts) (g : Lcg) (first : World) (disk : State) (book : List Step) (h : Lcg) (w : World)
        (disk_now : State) → IsWellFormed script → IsFirstWorld script first → IsRun g first disk book h w disk_now →
        controls_have_turns script w.core.journal ≡ true }
{}

/// A law: a run of a script whose last wave is over has answered each line of it, its control lines included.
pub fn a_run_that_is_over_is_whole()
    ensures { (script : ScriptParts) (g : Lcg) (first : World) (disk : State) (book : List Step) (h : Lcg) (w : World)
        (disk_now : State) → IsWellFormed script → IsFirstWorld script first → IsRun g first disk book h w disk_now →
        w.core.waves.over ≡ true → is_whole script w.core.journal ≡ true }
{}

/// A law: in every run of a script each session is opened once, and each line starts in its turn, once the earlier lines of its session
/// are answered and before its own answer; only a change or a lock starts again. Openings, starts and answers stand after all answers
/// of the earlier waves, those of control lines included.
pub fn each_line_has_its_turn()
    ensures { (script : ScriptParts) (g : Lcg) (first : World) (disk : State) (book : List Step) (h : Lcg) (w : World)
        (disk_now : State) → IsWellFormed script → IsFirstWorld script first → IsRun g first disk book h w disk_now →
        turns_are_kept script w.core.journal ≡ true }
{}
