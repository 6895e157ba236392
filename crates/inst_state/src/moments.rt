//! What an instance is, and what its sessions are about to do.

ghost use Rattle.std.specs.Prelude.{◌≡◌, unwrap_or};
ghost use Rattle.std.specs.Option.{option_copied};
ghost use Rattle.std.specs.List.{list_any};
ghost use Rattle.std.specs.Prelude.{nat_le};
ghost use Rattle.inst_state.specs.Sessions.{is_idle, new_session, snapshot_of};
ghost use Rattle.inst_state.specs.State.{asks_at, behind_of, end_waits, free_bytes, has_lines_left, has_room, is_before_first, is_down, is_durable, is_forced, is_stopped, is_up, line_at, line_now, may_begin, newest_at, on_disk, session_at, stmt_at, until_of, works};

use crate::inst::{Inst, Life};
use crate::line::{Asks, Line};
use crate::session::{Doing, Session};
use base_types::{BlockNo, Scn, Xid};

impl Life {
    pub fn is_up(&self) -> bool
        ensures { result ≡ is_up self.now }
    {
        matches!(self, Life::Up)
    }

    pub fn is_down(&self) -> bool
        ensures { result ≡ is_down self.now }
    {
        matches!(self, Life::Down)
    }
}

impl Inst {
    /// It makes local steps for its sessions.
    pub fn works(&self) -> bool
        ensures { result ≡ works self.now }
    {
        self.life.is_up() && !self.paused
    }

    /// A session, by its number; `None` stands for one that wasn't opened yet.
    #[tactic(auto, using(crate::proofs::Mapped::get_or_default))]
    pub fn session(&self, z: usize) -> Option<&Session>
        ensures { unwrap_or (option_copied result) new_session ≡ session_at self.now z }
    {
        self.sessions.get(z)
    }

    /// What a session does with its next line.
    pub fn doing(&self, z: usize) -> Doing
        ensures { result ≡ (session_at self.now z).doing }
    {
        match self.session(z) {
            Some(session) => session.doing,
            None => Doing::Idle,
        }
    }

    /// Whether a session was opened, and its instance has been up since.
    pub fn is_connected(&self, z: usize) -> bool
        ensures { result ≡ (session_at self.now z).connected }
    {
        match self.session(z) {
            Some(session) => session.connected,
            None => false,
        }
    }

    /// The open transaction of a session.
    pub fn own(&self, z: usize) -> Option<Xid>
        ensures { result ≡ (session_at self.now z).own }
    {
        match self.session(z) {
            Some(session) => session.own,
            None => None,
        }
    }

    /// How many changes and locks of a session's transaction stand.
    pub fn standing(&self, z: usize) -> u32
        ensures { result ≡ (session_at self.now z).standing }
    {
        match self.session(z) {
            Some(session) => session.standing,
            None => 0,
        }
    }

    /// The SCN up to which a session's line sees, where it is under way.
    pub fn snapshot(&self, z: usize) -> Option<Scn>
        ensures { result ≡ snapshot_of (session_at self.now z).doing }
    {
        self.doing(z).snapshot()
    }

    fn next(&self, z: usize) -> usize
        ensures { result ≡ (session_at self.now z).next }
    {
        match self.session(z) {
            Some(session) => session.next,
            None => 0,
        }
    }

    /// A session's next line.
    pub fn line(&self, z: usize) -> Option<&Line>
        ensures { option_copied result ≡ line_at self.now z }
    {
        let next = self.next(z);
        match self.plan.lines.get(z) {
            Some(lines) => lines.get(next),
            None => None,
        }
    }

    /// What a session's next line asks.
    pub fn asks(&self, z: usize) -> Option<&Asks>
        ensures { option_copied result ≡ asks_at self.now z }
    {
        match self.line(z) {
            Some(line) => Some(&line.asks),
            None => None,
        }
    }

    /// The number of a session's next line; 0 where there is none.
    pub fn stmt(&self, z: usize) -> u32
        ensures { result ≡ stmt_at self.now z }
    {
        match self.line(z) {
            Some(line) => line.stmt,
            None => 0,
        }
    }

    /// A session's next line, where it is of the wave that the instance is in.
    pub fn line_now(&self, z: usize) -> Option<&Line>
        ensures { option_copied result ≡ line_now self.now z }
    {
        match self.line(z) {
            Some(line) if line.wave == self.wave.entered => Some(line),
            _ => None,
        }
    }

    fn until(&self, z: usize) -> Option<u16>
        ensures { result ≡ until_of (line_now self.now z) }
    {
        match self.line_now(z) {
            Some(line) => line.until,
            None => None,
        }
    }

    fn behind(&self, z: usize) -> Option<u16>
        ensures { result ≡ behind_of (line_now self.now z) }
    {
        match self.line_now(z) {
            Some(line) => line.behind,
            None => None,
        }
    }

    /// Whether a `hold` line keeps a session's line from all but its first start.
    pub fn is_stopped(&self, z: usize) -> bool
        ensures { result ≡ is_stopped self.now z }
    {
        match self.until(z) {
            Some(until) => self.line_now(usize::from(until)).is_some(),
            None => false,
        }
    }

    // Whether a reader that a `hold` line names hasn't started its first line of the wave.
    fn is_before_first(&self, reader: Option<u16>) -> bool
        ensures { result ≡ is_before_first self.now reader }
    {
        match reader {
            Some(reader) => {
                let z = usize::from(reader);
                self.until(z).is_some() && self.doing(z).is_idle()
            }
            None => false,
        }
    }

    /// Whether a session has a line of the wave, and no `hold` line keeps it from its start.
    pub fn may_begin(&self, z: usize) -> bool
        ensures { result ≡ may_begin self.now z }
    {
        self.line_now(z).is_some() && !self.is_before_first(self.behind(z))
    }

    /// Whether an own end up to what is known waits for the disk.
    pub fn end_waits(&self) -> bool
        ensures { result ≡ end_waits self.now }
    {
        let known = self.clock.known;
        self.ends
            .as_slice()
            .iter()
            .any(|end| end.scn.get() <= known.get())
    }

    /// How many bytes of the redo buffer are free.
    pub fn free_bytes(&self) -> usize
        ensures { result ≡ free_bytes self.now }
    {
        65_536usize.saturating_sub(self.thread.waiting().len())
    }

    /// Whether there is room for one more record, whatever its kind.
    pub fn has_room(&self) -> bool
        ensures { result ≡ has_room self.now }
    {
        self.free_bytes() >= 236
            && self.thread.end().get() < 1 << 62
            && self.clock.scn.get() < 1 << 62
    }

    /// Whether no redo waits.
    pub fn is_forced(&self) -> bool
        ensures { result ≡ is_forced self.now }
    {
        self.thread.waiting().is_empty()
    }

    /// An SCN up to which each own record is on the disk.
    pub fn on_disk(&self) -> Scn
        ensures { result ≡ on_disk self.now }
    {
        if self.is_forced() {
            self.clock.scn
        } else {
            let durable = self.thread.durable_scn();
            Scn(durable.get().max(self.entry_scns.scn.get()))
        }
    }

    fn newest_at(&self, block: BlockNo) -> u64
        ensures { result ≡ newest_at self.now block }
    {
        let place = usize::from(block.get());
        if place < 64 { self.newest[place] } else { 0 }
    }

    /// Whether the own redo of a data block is on the disk.
    pub fn is_durable(&self, block: BlockNo) -> bool
        ensures { result ≡ is_durable self.now block }
    {
        self.newest_at(block) <= self.thread.durable().get()
    }
}
