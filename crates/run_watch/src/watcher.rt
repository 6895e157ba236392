//! A run is watched, and drawn as it comes to its end.

use crate::signs::sign_of;
use base_types::{InstNo, NoMemory, Sequence};
use inst_node::Step;
use run_picture::{Sign, Turn, picture_text};
use script_text::Script;
use std::alloc::Global;
use world_machine::{Observer, World};

/// A step that was seen before it was made, and how many entries the journal had then.
#[derive(Clone, Copy, Debug, PartialEq, Eq)]
struct Seen {
    inst: InstNo,
    sign: Sign,
    before: usize,
}

/// Looks on at a run, and draws it from a step on.
#[derive(Drop)]
pub struct Watcher {
    alloc: Global,
    from: u64,
    turns: Sequence<Turn>,
    last: Option<Seen>,
    picture: Option<String>,
}

impl Watcher {
    /// Nothing was seen yet. The picture begins with the step that has this number, counted from 0.
    pub fn new(alloc: Global, from: u64) -> Watcher {
        Watcher {
            alloc,
            from,
            turns: Sequence::new(alloc),
            last: None,
            picture: None,
        }
    }

    // The last step that was seen was made, and the journal has so many entries.
    fn close(&mut self, entries: usize) -> Result<(), NoMemory> {
        if let Some(seen) = self.last {
            let told = entries.saturating_sub(seen.before);
            self.turns.push(Turn {
                inst: seen.inst,
                sign: seen.sign,
                entries: u32::try_from(told).unwrap_or(u32::MAX),
            })?;
        }
        Ok(())
    }

    /// The picture, once the run has come to its end: an SVG text.
    pub fn into_picture(self) -> Option<String> {
        self.picture
    }
}

impl Observer for Watcher {
    fn see(&mut self, world: &World, step: &Step) -> Result<(), NoMemory> {
        let before = world.core.journal.len();
        self.close(before)?;
        self.last = Some(Seen {
            inst: step.inst,
            sign: sign_of(world, step),
            before,
        });
        Ok(())
    }

    fn end(&mut self, script: &Script, world: &World) -> Result<(), NoMemory> {
        let journal = &world.core.journal;
        self.close(journal.len())?;
        self.last = None;
        let text = picture_text(
            self.alloc,
            script,
            journal,
            self.turns.as_slice(),
            self.from,
        )?;
        self.picture = Some(text);
        Ok(())
    }
}
