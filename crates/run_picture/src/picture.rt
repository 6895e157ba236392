//! The picture of a run.

ghost use Rattle.std.specs.Prelude.{◌≡◌, IfOk, string_bytes};
ghost use Rattle.run_picture.specs.Texts.{svg_text};
ghost use Rattle.run_picture.specs.declared.shapes.Picture.{Picture};

use crate::drawing::draw;
use crate::shapes::Picture;
use crate::svg::svg_text;
use crate::telling::tell;
use crate::turns::Turn;
use base_types::NoMemory;
use journal::Journal;
use script_text::Script;
use std::alloc::Global;

/// How many rows a picture has, at most, beside those of its last step.
pub const LONGEST: u32 = 160;

/// The picture of a run from a step on.
fn picture_of(
    alloc: Global,
    script: &Script,
    journal: &Journal,
    turns: &[Turn],
    from: u64,
) -> Result<Picture, NoMemory> {
    let story = tell(alloc, script, journal, turns, from, LONGEST)?;
    let steps = turns.len();
    let last = story.last();
    let title = format!(in alloc; "Steps {from} to {last} of {steps}")?;
    draw(alloc, title.as_str(), script.settings().instances, &story)
}

/// The picture of a run from a step on, as far as it has room: a lane for each instance, a row for each step that has
/// something to show, a bar for each statement from its start to its answer, and an arrow for each block that moves.
///
/// # Errors
///
/// There is no memory for the picture.
pub fn picture_text(
    alloc: Global,
    script: &Script,
    journal: &Journal,
    turns: &[Turn],
    from: u64,
) -> Result<String, NoMemory>
    ensures { IfOk result (λ text. (picture : Picture) × (string_bytes text ≡ svg_text picture)) }
{
    let picture = picture_of(alloc, script, journal, turns, from)?;
    let text = svg_text(alloc, &picture)?;
    Ok(text)
}
