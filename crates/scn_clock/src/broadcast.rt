ghost use Rattle.std.specs.Prelude.{◌≡◌};
ghost use Rattle.scn_clock.specs.Broadcast.{heard_by, is_whole, limited, news_of};

use base_types::{InstNo, Scn};
use inst_set::InstSet;

/// The news of a transaction's end, on its way to the other instances.
#[derive(Clone, Copy, Debug, PartialEq, Eq)]
pub struct Broadcast {
    /// The SCN of the end.
    pub end: Scn,
    /// The instances that are to hear of it.
    pub asked: InstSet,
    /// The instances that have heard of it.
    pub heard: InstSet,
}

impl Broadcast {
    /// The news of an end, of which none has heard.
    pub fn new(end: Scn, asked: &InstSet) -> Broadcast
        ensures { result ≡ news_of end asked.now }
    {
        Broadcast {
            end,
            asked: *asked,
            heard: InstSet::new(),
        }
    }

    /// Notes that an instance has heard.
    pub fn hear(&mut self, inst: InstNo)
        ensures { self.new ≡ heard_by self.old inst }
    {
        self.heard.insert(inst);
    }

    /// Asks those alone who live.
    pub fn limit_to(&mut self, live: &InstSet)
        ensures { self.new ≡ limited self.old live.now }
    {
        self.asked = self.asked.limited_to(live);
    }

    /// Whether each of the asked has heard.
    pub fn is_whole(&self) -> bool
        ensures { result ≡ is_whole self.now }
    {
        self.heard.holds_all(&self.asked)
    }
}
