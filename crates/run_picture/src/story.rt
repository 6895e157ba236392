//! What stands in a picture, by rows and lanes, before it has a place in points.

use crate::shapes::Look;
use crate::sign_words::Words;
use base_types::{InstNo, NoMemory};
use std::alloc::Global;

/// The most statements of an instance that have places of their own beside each other.
const SLOTS: u8 = 12;

/// A row: what an instance did in a step.
#[derive(Debug, Drop)]
pub(crate) struct Row {
    /// The step's number, where it is the first row of the step.
    pub step: Option<u64>,
    pub inst: InstNo,
    pub words: Words,
    /// The instance from which a block or a copy comes, and how its arrow looks.
    pub from: Option<(InstNo, Look)>,
}

/// A statement that is under way: its line, where it shows, and since which row.
#[derive(Clone, Copy, Debug, PartialEq, Eq)]
struct Open {
    line: u32,
    inst: InstNo,
    slot: u8,
    since: u32,
    look: Look,
}

/// A statement from its start to its answer.
#[derive(Clone, Copy, Debug, PartialEq, Eq)]
pub(crate) struct Bar {
    pub inst: InstNo,
    pub slot: u8,
    pub since: u32,
    pub until: u32,
    pub look: Look,
}

impl Open {
    /// The statement up to a row.
    fn until(&self, until: u32, look: Look) -> Bar {
        Bar {
            inst: self.inst,
            slot: self.slot,
            since: self.since,
            until,
            look,
        }
    }
}

/// How the ground of a lane looks for some rows.
#[derive(Clone, Copy, Debug, PartialEq, Eq)]
pub(crate) struct Spell {
    pub inst: InstNo,
    pub since: u32,
    pub until: u32,
    pub look: Look,
}

/// The rows of a picture, from a step on, with its bars and grounds.
#[derive(Debug, Drop)]
pub(crate) struct Story {
    alloc: Global,
    /// Whether the steps are shown by now.
    is_shown: bool,
    rows: Vec<Row>,
    bars: Vec<Bar>,
    spells: Vec<Spell>,
    waves: Vec<u32>,
    open: Vec<Open>,
    grounds: [(u32, Look); 8],
    last: u64,
}

impl Story {
    pub(crate) fn new(alloc: Global) -> Story {
        Story {
            alloc,
            is_shown: false,
            rows: Vec::new(alloc),
            bars: Vec::new(alloc),
            spells: Vec::new(alloc),
            waves: Vec::new(alloc),
            open: Vec::new(alloc),
            grounds: [(0, Look::Up); 8],
            last: 0,
        }
    }

    /// Shows what comes from now on.
    pub(crate) fn show(&mut self) {
        self.is_shown = true;
    }

    /// A step is told, the one of this number.
    pub(crate) fn count(&mut self, number: u64) {
        self.last = number;
    }

    /// The number of the last step that was told.
    pub(crate) fn last(&self) -> u64 {
        self.last
    }

    /// How many rows there are.
    pub(crate) fn height(&self) -> u32 {
        u32::try_from(self.rows.len()).unwrap_or(u32::MAX)
    }

    pub(crate) fn rows(&self) -> &[Row] {
        self.rows.as_slice()
    }

    pub(crate) fn bars(&self) -> &[Bar] {
        self.bars.as_slice()
    }

    pub(crate) fn spells(&self) -> &[Spell] {
        self.spells.as_slice()
    }

    /// The rows before which a wave begins.
    pub(crate) fn waves(&self) -> &[u32] {
        self.waves.as_slice()
    }

    pub(crate) fn push_row(&mut self, row: Row) -> Result<(), NoMemory> {
        if self.is_shown {
            self.rows.push(row)?;
        }
        Ok(())
    }

    pub(crate) fn push_wave(&mut self) -> Result<(), NoMemory> {
        let height = self.height();
        if self.is_shown {
            self.waves.push(height)?;
        }
        Ok(())
    }

    /// The first place of an instance at which no statement is under way, or the last one.
    fn free_slot(&self, inst: InstNo) -> u8 {
        let open = self.open.as_slice();
        for slot in 0..SLOTS {
            if !open
                .iter()
                .any(|other| other.inst == inst && other.slot == slot)
            {
                return slot;
            }
        }
        SLOTS
    }

    /// A statement starts, or starts again.
    pub(crate) fn begin(&mut self, line: u32, inst: InstNo, look: Look) -> Result<(), NoMemory> {
        if self.open.iter().any(|other| other.line == line) {
            return Ok(());
        }
        let slot = self.free_slot(inst);
        let since = self.height();
        self.open.push(Open {
            line,
            inst,
            slot,
            since,
            look,
        })?;
        Ok(())
    }

    /// A statement is answered in the row that comes next.
    pub(crate) fn end(&mut self, line: u32, is_refused: bool) -> Result<(), NoMemory> {
        let until = self.height().saturating_add(1);
        let Some(at) = self.open.iter().position(|open| open.line == line) else {
            return Ok(());
        };
        let open = self.open.swap_remove(at);
        let look = if is_refused { Look::Refused } else { open.look };
        if self.is_shown {
            self.bars.push(open.until(until, look))?;
        }
        Ok(())
    }

    /// The ground of an instance's lane looks so from the next row on.
    pub(crate) fn turn_ground(&mut self, inst: InstNo, look: Look) -> Result<(), NoMemory> {
        let until = self.height();
        let at = usize::from(inst.get());
        if at < 8 {
            let (since, old) = self.grounds[at];
            self.push_spell(inst, since, until, old)?;
            self.grounds[at] = (until, look);
        }
        Ok(())
    }

    fn push_spell(
        &mut self,
        inst: InstNo,
        since: u32,
        until: u32,
        look: Look,
    ) -> Result<(), NoMemory> {
        if since < until {
            self.spells.push(Spell {
                inst,
                since,
                until,
                look,
            })?;
        }
        Ok(())
    }

    /// The picture ends behind the last row.
    pub(crate) fn close(&mut self, instances: u8) -> Result<(), NoMemory> {
        let until = self.height();
        for inst in 0..instances {
            self.turn_ground(InstNo(inst), Look::Up)?;
        }
        for open in &self.open {
            self.bars.push(open.until(until, open.look))?;
        }
        Ok(())
    }

    /// How many statements stand beside each other, at most.
    pub(crate) fn slots(&self) -> u32 {
        let mut most = 0;
        for bar in &self.bars {
            most = u32::from(bar.slot).saturating_add(1).max(most);
        }
        most
    }
}
