//! The places of all shapes.

ghost use Rattle.std.specs.Prelude.{◌<◌};

use crate::shapes::{Look, Picture, Shape};
use crate::story::{Bar, Row, Spell, Story};
use base_types::{InstNo, NoMemory};
use std::alloc::Global;

/// The height of a row.
const ROW: u32 = 18;

/// The room for a step's number.
const AXIS: u32 = 56;

/// The width of a statement.
const SLOT: u32 = 12;

/// The room for a row's words in a lane.
const WORDS: u32 = 330;

/// How many letters there is room for.
const MOST_LETTERS: usize = 46;

/// The width of a letter.
const LETTER: u32 = 7;

/// The room at a lane's edges, and between lanes.
const EDGE: u32 = 8;

/// The width of a word of the legend.
const SAMPLE: u32 = 132;

/// What the legend explains.
const LEGEND: [(Look, &str); 9] = [
    (Look::Reading, "get, scan"),
    (Look::Changing, "a change"),
    (Look::Ending, "commit, rollback"),
    (Look::Refused, "refused"),
    (Look::Block, "block moves"),
    (Look::Copy, "copy for a read"),
    (Look::Up, "instance is up"),
    (Look::Paused, "recovery, join"),
    (Look::Down, "down"),
];

/// A text, cut where there is no more room.
fn shortened(alloc: Global, text: &str) -> Result<String, NoMemory> {
    let mut short = String::new(alloc);
    let mut count: usize = 0;
    for letter in text.chars() {
        if count == MOST_LETTERS {
            short.push_str("..")?;
            break;
        }
        short.push(letter)?;
        count = count.saturating_add(1);
    }
    Ok(short)
}

/// How many letters of a row's words stand in its lane, at most.
fn letters(row: &Row) -> u32 {
    u32::try_from(row.words.text.len().min(MOST_LETTERS)).unwrap_or(0)
}

/// Where lanes and rows stand.
#[derive(Clone, Copy)]
struct Plan {
    lanes: u32,
    slots: u32,
    rows: u32,
}

impl Plan {
    fn lane_width(&self) -> u32 {
        SLOT.saturating_mul(self.slots)
            .saturating_add(WORDS)
            .saturating_add(2 * EDGE)
    }

    fn lane(&self, inst: InstNo) -> u32 {
        let step = self.lane_width().saturating_add(EDGE);
        u32::from(inst.get())
            .saturating_mul(step)
            .saturating_add(AXIS)
    }

    fn words(&self, inst: InstNo) -> u32 {
        SLOT.saturating_mul(self.slots)
            .saturating_add(self.lane(inst))
            .saturating_add(2 * EDGE)
    }

    fn width(&self) -> u32 {
        let step = self.lane_width().saturating_add(EDGE);
        self.lanes.saturating_mul(step).saturating_add(AXIS)
    }

    /// How many samples of the legend stand beside each other.
    fn samples(&self) -> u32
        ensures { 0 < result }
    {
        (self.width() / SAMPLE).max(1)
    }

    /// Where the note below the legend stands.
    fn note(&self) -> u32 {
        let lines = 8 / self.samples() + 1;
        ROW.saturating_mul(lines).saturating_add(40)
    }

    /// Where the rows begin.
    fn top(&self) -> u32 {
        self.note().saturating_add(44)
    }

    fn row(&self, at: u32) -> u32 {
        ROW.saturating_mul(at).saturating_add(self.top())
    }

    fn height(&self) -> u32 {
        self.row(self.rows).saturating_add(EDGE)
    }
}

/// Draws by a plan.
#[derive(Drop)]
struct Pen {
    alloc: Global,
    plan: Plan,
    shapes: Vec<Shape>,
}

impl Pen {
    fn label(&mut self, x: u32, y: u32, text: &str, look: Look) -> Result<(), NoMemory> {
        let text = String::from_str(self.alloc, text)?;
        self.shapes.push(Shape::Label { x, y, text, look })?;
        Ok(())
    }

    fn rect(
        &mut self,
        x: u32,
        y: u32,
        width: u32,
        height: u32,
        look: Look,
    ) -> Result<(), NoMemory> {
        self.shapes.push(Shape::Box {
            x,
            y,
            width,
            height,
            look,
        })?;
        Ok(())
    }

    fn line(&mut self, x: u32, to_x: u32, y: u32, look: Look) -> Result<(), NoMemory> {
        self.shapes.push(Shape::Line {
            x,
            y,
            to_x,
            to_y: y,
            look,
        })?;
        Ok(())
    }

    fn spell(&mut self, spell: &Spell) -> Result<(), NoMemory> {
        let plan = self.plan;
        let y = plan.row(spell.since);
        let height = plan.row(spell.until).saturating_sub(y);
        self.rect(
            plan.lane(spell.inst),
            y,
            plan.lane_width(),
            height,
            spell.look,
        )
    }

    fn bar(&mut self, bar: &Bar) -> Result<(), NoMemory> {
        let plan = self.plan;
        let x = SLOT
            .saturating_mul(u32::from(bar.slot))
            .saturating_add(plan.lane(bar.inst))
            .saturating_add(EDGE);
        let y = plan.row(bar.since).saturating_add(3);
        let height = plan.row(bar.until).saturating_sub(y).saturating_sub(3);
        self.rect(x, y, SLOT - 3, height, bar.look)
    }

    /// An arrow at a row, from the lane of one instance to the words of another.
    fn arrow(&mut self, y: u32, from: InstNo, row: &Row, look: Look) -> Result<(), NoMemory> {
        let plan = self.plan;
        let start = plan.words(from);
        let to_left = row.inst.get() < from.get();
        let tip = if to_left {
            LETTER
                .saturating_mul(letters(row))
                .saturating_add(plan.words(row.inst))
                .saturating_add(EDGE)
        } else {
            plan.words(row.inst).saturating_sub(EDGE / 2)
        };
        self.rect(start, y.saturating_sub(3), 6, 6, look)?;
        self.line(start, tip, y, look)?;
        self.shapes.push(Shape::Tip {
            x: tip,
            y,
            to_left,
            look,
        })?;
        Ok(())
    }

    fn row(&mut self, at: u32, row: &Row) -> Result<(), NoMemory> {
        let y = self.plan.row(at);
        let base = y.saturating_add(13);
        if let Some(step) = row.step {
            let number = format!(in self.alloc; "{step}")?;
            self.label(EDGE, base, number.as_str(), Look::Number)?;
        }
        if let Some((from, look)) = row.from {
            self.arrow(y.saturating_add(9), from, row, look)?;
        }
        let words = shortened(self.alloc, row.words.text.as_str())?;
        let x = self.plan.words(row.inst);
        self.label(x, base, words.as_str(), row.words.look)
    }

    fn wave(&mut self, at: u32) -> Result<(), NoMemory> {
        let y = self.plan.row(at);
        let width = self.plan.width();
        self.line(0, width, y, Look::Between)
    }

    fn sample(&mut self, at: u32, look: Look, text: &str) -> Result<(), NoMemory> {
        let samples = self.plan.samples();
        let x = (at % samples).saturating_mul(SAMPLE).saturating_add(EDGE);
        let y = (at / samples).saturating_mul(ROW).saturating_add(30);
        self.rect(x, y, 12, 12, look)?;
        self.label(
            x.saturating_add(18),
            y.saturating_add(10),
            text,
            Look::Words,
        )
    }

    fn legend(&mut self) -> Result<(), NoMemory> {
        let mut at: u32 = 0;
        for (look, text) in LEGEND {
            self.sample(at, look, text)?;
            at = at.saturating_add(1);
        }
        let y = self.plan.note();
        self.label(
            EDGE,
            y,
            "A number before words is a line of the script.",
            Look::Words,
        )
    }

    fn head(&mut self, inst: InstNo) -> Result<(), NoMemory> {
        let number = inst.get();
        let text = format!(in self.alloc; "instance {number}")?;
        let x = self.plan.lane(inst).saturating_add(EDGE);
        let y = self.plan.top().saturating_sub(8);
        self.label(x, y, text.as_str(), Look::Head)
    }

    fn rows(&mut self, story: &Story) -> Result<(), NoMemory> {
        let mut at: u32 = 0;
        for row in story.rows() {
            self.row(at, row)?;
            at = at.saturating_add(1);
        }
        Ok(())
    }
}

/// The picture of what was told, under a title.
pub(crate) fn draw(
    alloc: Global,
    title: &str,
    instances: u8,
    story: &Story,
) -> Result<Picture, NoMemory> {
    let plan = Plan {
        lanes: u32::from(instances),
        slots: story.slots(),
        rows: story.height(),
    };
    let mut pen = Pen {
        alloc,
        plan,
        shapes: Vec::new(alloc),
    };
    pen.rect(0, 0, plan.width(), plan.height(), Look::Paper)?;
    pen.label(EDGE, 20, title, Look::Title)?;
    pen.legend()?;
    for inst in 0..instances {
        pen.head(InstNo(inst))?;
    }
    for spell in story.spells() {
        pen.spell(spell)?;
    }
    for bar in story.bars() {
        pen.bar(bar)?;
    }
    for at in story.waves() {
        pen.wave(*at)?;
    }
    pen.rows(story)?;
    Ok(Picture {
        width: plan.width(),
        height: plan.height(),
        shapes: pen.shapes,
    })
}
