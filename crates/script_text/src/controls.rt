//! The lines that open sessions, end waves, and tell instances what to do.

ghost use Rattle.std.specs.Prelude.{◌≡◌, Ok, Err, if◌then◌else◌};
ghost use Rattle.script_text.specs.Forms.{session_line, crash_after_line, crash_mark_line, start_line, remaster_line};
ghost use Rattle.script_text.specs.Forms.{checkpoint_line, hold_line, go_line, is_apart, with_item};
ghost use Rattle.script_text.specs.Rules.{judged};
ghost use Rattle.script_text.specs.Shapes.{Takes};

use crate::item::Item;
use crate::limits::{BUCKETS, SESSIONS, STEPS};
use crate::rule::{LineError, Rule};
use crate::said::Said;
use crate::spelling::{keep_of, name_of, number_of};
use crate::wave::Wave;
use std::alloc::Global;
use std::mem;

impl Said {
    /// `session NAME on I`
    #[tactic(auto, unfolding(crate::specs::Rules::judged, crate::specs::Forms::session_line))]
    pub fn take_session(&mut self, alloc: Global, name: &[u8], inst: &[u8]) -> Result<(), LineError>
        ensures { Takes result self.new (judged (session_line self.old name.now inst.now)) }
    {
        let name = name_of(name)?;
        let inst = number_of(inst)?;
        let inst = self.inst_of(inst)?;
        let session = self.sessions.len();
        if session >= SESSIONS {
            return Err(LineError::Broken(Rule::Range));
        }
        if self.sessions.find(name).is_some() {
            return Err(LineError::Broken(Rule::Session));
        }
        self.sessions.open(alloc, name)?;
        self.homes.push(inst)?;
        self.push_item(
            alloc,
            Item::Session {
                session: session as u16,
                inst,
            },
        )?;
        Ok(())
    }

    /// Adds an item that no other of the wave may clash with.
    fn push_alone(&mut self, alloc: Global, item: Item, rule: Rule) -> Result<(), LineError>
        ensures { Takes result self.new (if is_apart self.old item then Ok (with_item self.old item) else Err rule) }
    {
        if !self.is_apart(&item) {
            return Err(LineError::Broken(rule));
        }
        self.push_item(alloc, item)?;
        Ok(())
    }

    /// `crash I after N keep K`
    #[tactic(auto, unfolding(crate::specs::Rules::judged, crate::specs::Forms::crash_after_line))]
    pub fn take_crash_after(
        &mut self,
        alloc: Global,
        inst: &[u8],
        steps: &[u8],
        keep: &[u8],
    ) -> Result<(), LineError>
        ensures { Takes result self.new (judged (crash_after_line self.old inst.now steps.now keep.now)) }
    {
        let inst = number_of(inst)?;
        let steps = number_of(steps)?;
        let keep = keep_of(keep)?;
        let inst = self.inst_of(inst)?;
        if steps > STEPS {
            return Err(LineError::Broken(Rule::Range));
        }
        let item = Item::CrashAfter {
            inst,
            steps: steps as u32,
            keep,
        };
        self.push_alone(alloc, item, Rule::Twice)
    }

    /// `crash I at mark keep K`
    #[tactic(auto, unfolding(crate::specs::Rules::judged, crate::specs::Forms::crash_mark_line))]
    pub fn take_crash_mark(
        &mut self,
        alloc: Global,
        inst: &[u8],
        keep: &[u8],
    ) -> Result<(), LineError>
        ensures { Takes result self.new (judged (crash_mark_line self.old inst.now keep.now)) }
    {
        let inst = number_of(inst)?;
        let keep = keep_of(keep)?;
        let inst = self.inst_of(inst)?;
        self.push_alone(alloc, Item::CrashMark { inst, keep }, Rule::Twice)
    }

    /// `start I`
    #[tactic(auto, unfolding(crate::specs::Rules::judged, crate::specs::Forms::start_line))]
    pub fn take_start(&mut self, alloc: Global, inst: &[u8]) -> Result<(), LineError>
        ensures { Takes result self.new (judged (start_line self.old inst.now)) }
    {
        let inst = number_of(inst)?;
        let inst = self.inst_of(inst)?;
        self.push_alone(alloc, Item::Start { inst }, Rule::Twice)
    }

    /// `remaster B to I`
    #[tactic(auto, unfolding(crate::specs::Rules::judged, crate::specs::Forms::remaster_line))]
    pub fn take_remaster(
        &mut self,
        alloc: Global,
        bucket: &[u8],
        inst: &[u8],
    ) -> Result<(), LineError>
        ensures { Takes result self.new (judged (remaster_line self.old bucket.now inst.now)) }
    {
        let bucket = number_of(bucket)?;
        let inst = number_of(inst)?;
        if bucket >= BUCKETS {
            return Err(LineError::Broken(Rule::Range));
        }
        let to = self.inst_of(inst)?;
        self.push_item(
            alloc,
            Item::Remaster {
                bucket: bucket as u8,
                to,
            },
        )?;
        Ok(())
    }

    /// `checkpoint I`
    #[tactic(auto, unfolding(crate::specs::Rules::judged, crate::specs::Forms::checkpoint_line))]
    pub fn take_checkpoint(&mut self, alloc: Global, inst: &[u8]) -> Result<(), LineError>
        ensures { Takes result self.new (judged (checkpoint_line self.old inst.now)) }
    {
        let inst = number_of(inst)?;
        let inst = self.inst_of(inst)?;
        self.push_item(alloc, Item::Checkpoint { inst })?;
        Ok(())
    }

    /// `hold R until M`
    #[tactic(auto, unfolding(crate::specs::Rules::judged, crate::specs::Forms::hold_line))]
    pub fn take_hold(&mut self, alloc: Global, reader: &[u8], until: &[u8]) -> Result<(), LineError>
        ensures { Takes result self.new (judged (hold_line self.old reader.now until.now)) }
    {
        let reader = name_of(reader)?;
        let until = name_of(until)?;
        let reader = self.session_of(reader)?;
        let until = self.session_of(until)?;
        if reader == until || !self.are_together(reader, until) {
            return Err(LineError::Broken(Rule::Session));
        }
        self.push_alone(alloc, Item::Hold { reader, until }, Rule::Session)
    }

    /// `go` ends the wave.
    #[tactic(auto, unfolding(crate::specs::Rules::judged, crate::specs::Forms::go_line))]
    pub fn take_go(&mut self, alloc: Global) -> Result<(), LineError>
        ensures { Takes result self.new (judged (go_line self.old)) }
    {
        let wave = mem::replace(&mut self.wave, Wave::new(alloc));
        self.waves.push(wave)?;
        self.begun = true;
        Ok(())
    }
}
