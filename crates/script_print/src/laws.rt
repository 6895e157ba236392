ghost use Rattle.std.specs.Prelude.{◌≡◌, ℕ, List, Ok};
ghost use Rattle.script_text.specs.Reading.{reading};
ghost use Rattle.script_text.specs.ScriptParts.{ScriptParts};
ghost use Rattle.script_print.specs.Printed.{printed};

/// A script that some text reads as, printed, reads back as itself.
pub fn a_printed_script_reads_back()
    ensures { (text : List ℕ) (parts : ScriptParts) → reading text ≡ Ok parts →
        reading (printed parts) ≡ Ok parts }
{}
