//! The lines of settings.

ghost use Rattle.std.specs.Prelude.{◌≡◌, ◌&&◌, not};
ghost use Rattle.script_text.specs.Forms.{instances_line, blocks_line, undo_line, cache_line, seed_line};
ghost use Rattle.script_text.specs.Rules.{judged};
ghost use Rattle.script_text.specs.Shapes.{Takes};

use crate::limits::{BLOCKS, CACHE, INSTANCES, LEAST_CACHE, LEAST_UNDO, UNDO, UNDO_BLOCK};
use crate::rule::{LineError, Rule};
use crate::said::Said;
use crate::spelling::number_of;

impl Said {
    /// `instances N`
    #[tactic(auto, unfolding(crate::specs::Rules::judged, crate::specs::Forms::instances_line))]
    pub fn take_instances(&mut self, count: &[u8]) -> Result<(), LineError>
        ensures { Takes result self.new (judged (instances_line self.old count.now)) }
    {
        let count = number_of(count)?;
        if count < 1 || count > INSTANCES {
            return Err(LineError::Broken(Rule::Range));
        }
        if self.begun || self.instances.is_some() {
            return Err(LineError::Broken(Rule::Order));
        }
        self.instances = Some(count as u8);
        Ok(())
    }

    /// `blocks N`
    #[tactic(auto, unfolding(crate::specs::Rules::judged, crate::specs::Forms::blocks_line))]
    pub fn take_blocks(&mut self, count: &[u8]) -> Result<(), LineError>
        ensures { Takes result self.new (judged (blocks_line self.old count.now)) }
    {
        let count = number_of(count)?;
        if count < 1 || count > BLOCKS {
            return Err(LineError::Broken(Rule::Range));
        }
        if self.begun || self.blocks.is_some() {
            return Err(LineError::Broken(Rule::Order));
        }
        self.blocks = Some(count as u8);
        Ok(())
    }

    /// `undo N`
    #[tactic(auto, unfolding(crate::specs::Rules::judged, crate::specs::Forms::undo_line))]
    pub fn take_undo(&mut self, count: &[u8]) -> Result<(), LineError>
        ensures { Takes result self.new (judged (undo_line self.old count.now)) }
    {
        let count = number_of(count)?;
        if count < LEAST_UNDO || count > UNDO || count % UNDO_BLOCK != 0 {
            return Err(LineError::Broken(Rule::Range));
        }
        if self.begun || self.undo.is_some() {
            return Err(LineError::Broken(Rule::Order));
        }
        self.undo = Some(count as u8);
        Ok(())
    }

    /// `cache N`
    #[tactic(auto, unfolding(crate::specs::Rules::judged, crate::specs::Forms::cache_line))]
    pub fn take_cache(&mut self, count: &[u8]) -> Result<(), LineError>
        ensures { Takes result self.new (judged (cache_line self.old count.now)) }
    {
        let count = number_of(count)?;
        if count < LEAST_CACHE || count > CACHE {
            return Err(LineError::Broken(Rule::Range));
        }
        if self.begun || self.cache.is_some() {
            return Err(LineError::Broken(Rule::Order));
        }
        self.cache = Some(count as u8);
        Ok(())
    }

    /// `seed N`
    #[tactic(auto, unfolding(crate::specs::Rules::judged, crate::specs::Forms::seed_line))]
    pub fn take_seed(&mut self, seed: &[u8]) -> Result<(), LineError>
        ensures { Takes result self.new (judged (seed_line self.old seed.now)) }
    {
        let seed = number_of(seed)?;
        if self.begun || self.seed.is_some() {
            return Err(LineError::Broken(Rule::Order));
        }
        self.seed = Some(seed);
        Ok(())
    }
}
