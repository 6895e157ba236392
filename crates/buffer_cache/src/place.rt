ghost use Rattle.std.specs.Prelude.{◌≡◌, ◌≤◌, Some, None, fold, min, option_map, option_copied};
ghost use Rattle.std.specs.Option.{ForSome, option_and_then, option_to_list};
ghost use Rattle.buffer_cache.specs.Place.{CanChange, changed, clean_grant, empty_place, forgotten, frames_of, given_up, held_of, holds_clean, holds_dirty, holds_shared, is_marked, lacking, marked, mine_of, read_from_disk, regranted, shareable, shipped, upgraded, with_change, with_current, with_written, without_clean, without_grant, without_past, written};

use base_types::{RedoAt, Scn};
use block_image::{DataBlock, RowChange};
use wire_net::{CurrentImage, Mode, Role, Shipment};

/// What an instance has of a data block.
#[derive(Debug, Drop)]
pub struct Place {
    /// The current image, where it is held.
    pub current: Option<Current>,
    /// The newest past image.
    pub past: Option<PastImage>,
    /// The mode in which the block is asked for: a frame is reserved for it.
    pub asked: Option<Mode>,
    /// Whether a wish to write the block came that wasn't met yet.
    pub wish: bool,
}

/// A current image that is held.
#[derive(Debug, Drop)]
pub struct Current {
    /// Shared or Exclusive.
    pub mode: Mode,
    pub role: Role,
    /// Whether the disk's image is older.
    pub dirty: bool,
    /// The number of the grant by which it is held.
    pub grant: u64,
    /// The place of the first own record on the block that isn't known to be in the disk's image.
    pub mine: Option<RedoAt>,
    pub image: CurrentImage,
}

/// An image that was current here and dirty, as it was when it left.
#[derive(Debug, Drop)]
pub struct PastImage {
    pub image: DataBlock,
    /// The place of the first own record on the block that wasn't known to be in the disk's image.
    pub mine: Option<RedoAt>,
    /// Whether a write of the block was asked for, for this image and since the last report.
    pub asked: bool,
}

/// How a current image is held.
#[derive(Clone, Copy, Debug, PartialEq, Eq)]
pub struct Held {
    pub mode: Mode,
    pub role: Role,
    /// Whether the disk's image is older.
    pub dirty: bool,
    /// The place of the first own record on the block that isn't known to be in the disk's image.
    pub mine: Option<RedoAt>,
    pub grant: u64,
    /// The version of the image.
    pub version: u64,
}

impl Current {
    /// The image of a shipment, as it is held from then on.
    pub fn shipped(shipment: Shipment) -> Current
        ensures { result ≡ shipped shipment }
    {
        Current {
            mode: if shipment.shared {
                Mode::Shared
            } else {
                Mode::Exclusive
            },
            role: if shipment.dirty {
                Role::Global
            } else {
                Role::Local
            },
            dirty: shipment.dirty,
            grant: shipment.grant,
            mine: None,
            image: shipment.image,
        }
    }

    /// An image that was read from the disk, as it is held from then on.
    pub fn read_from_disk(grant: u64, mode: Mode, block: DataBlock) -> Current
        ensures { result ≡ read_from_disk grant mode block }
    {
        Current {
            mode,
            role: Role::Local,
            dirty: false,
            grant,
            mine: None,
            image: CurrentImage::new(block),
        }
    }

    /// How it is held.
    pub fn held(&self) -> Held
        ensures { result ≡ held_of self.now }
    {
        Held {
            mode: self.mode,
            role: self.role,
            dirty: self.dirty,
            mine: self.mine,
            grant: self.grant,
            version: self.image.image().version(),
        }
    }

    fn change(&mut self, change: &RowChange, scn: Scn, at: RedoAt)
        requires { CanChange change.now scn self.old }
        ensures { self.new ≡ changed change.now scn at self.old }
    {
        if self.mode == Mode::Exclusive {
            self.image.apply(change, scn);
            self.dirty = true;
            self.mine = Some(self.mine.unwrap_or(at));
        }
    }

    fn lack(&mut self, first: Option<RedoAt>)
        ensures { self.new ≡ lacking first self.old }
    {
        if self.dirty {
            self.mine = self.mine.or(first);
        }
    }

    fn wrote(&mut self)
        ensures { self.new ≡ written self.old }
    {
        self.role = Role::Local;
        self.dirty = false;
        self.mine = None;
    }
}

impl Place {
    /// The place of a block of which the instance has nothing.
    pub fn empty() -> Place
        ensures { result ≡ empty_place }
    {
        Place {
            current: None,
            past: None,
            asked: None,
            wish: false,
        }
    }

    /// How many frames it takes, 0 to 2.
    pub fn frames(&self) -> u8
        ensures taken { result ≡ frames_of self.now }
        ensures few { result ≤ 2 }
    {
        u8::from(self.current.is_some() || self.asked.is_some()) + u8::from(self.past.is_some())
    }

    /// How the current image is held.
    pub fn held(&self) -> Option<Held>
        ensures { result ≡ option_map held_of self.now.current }
    {
        Some(self.current.as_ref()?.held())
    }

    /// The current image.
    pub fn image(&self) -> Option<&DataBlock>
        ensures { option_copied result ≡ option_map (λ now. now.image) self.now.current }
    {
        Some(self.current.as_ref()?.image.image())
    }

    pub(crate) fn holds_shared(&self) -> bool
        ensures { result ≡ holds_shared self.now.current }
    {
        match &self.current {
            Some(now) => now.mode == Mode::Shared,
            None => false,
        }
    }

    /// Whether an image is held that the disk doesn't have.
    pub fn is_dirty(&self) -> bool
        ensures { result ≡ holds_dirty self.now.current }
    {
        match &self.current {
            Some(now) => now.dirty,
            None => false,
        }
    }

    /// Whether an image is held that the disk has too.
    pub fn is_clean(&self) -> bool
        ensures { result ≡ holds_clean self.now.current }
    {
        match &self.current {
            Some(now) => !now.dirty,
            None => false,
        }
    }

    /// The past image.
    pub fn past_image(&self) -> Option<&DataBlock>
        ensures { option_copied result ≡ option_map (λ past. past.image) self.now.past }
    {
        Some(&self.past.as_ref()?.image)
    }

    /// The version of the past image.
    pub fn past_version(&self) -> Option<u64>
        ensures { result ≡ option_map (λ past. past.image.front.version) self.now.past }
    {
        Some(self.past.as_ref()?.image.version())
    }

    /// The place of the first own record in the past image that may be missing in the disk's image.
    pub fn past_mine(&self) -> Option<RedoAt>
        ensures { result ≡ option_and_then (λ past. past.mine) self.now.past }
    {
        self.past.as_ref()?.mine
    }

    /// Whether a write was asked for that lets the past image go.
    pub fn is_past_asked(&self) -> bool
        ensures { result ≡ is_marked self.now.past }
    {
        match &self.past {
            Some(past) => past.asked,
            None => false,
        }
    }

    /// An equal of the current image, where it is clean and held in S.
    pub fn share(&self) -> Option<DataBlock>
        ensures { result ≡ shareable self.now.current }
    {
        let now = self.current.as_ref()?;
        if now.mode == Mode::Shared && !now.dirty {
            Some(now.image.image().copy())
        } else {
            None
        }
    }

    pub(crate) fn install(&mut self, current: Option<Current>)
        ensures { self.new ≡ with_current current self.old }
    {
        self.current = current;
        self.settle();
    }

    pub(crate) fn upgrade(&mut self, grant: u64)
        ensures { self.new ≡ with_current (option_map (upgraded grant) self.old.current) self.old }
    {
        if let Some(now) = &mut self.current {
            now.mode = Mode::Exclusive;
            now.grant = grant;
        }
        self.settle();
    }

    /// The current image stands for the past one from now on, and for the reservation.
    fn settle(&mut self)
        ensures { self.new ≡ with_current self.old.current self.old }
    {
        let first = self.past_mine();
        if let Some(now) = &mut self.current {
            now.lack(first);
        }
        self.past = None;
        self.asked = None;
    }

    pub(crate) fn change(&mut self, change: &RowChange, scn: Scn, at: RedoAt)
        requires { ForSome self.old.current (CanChange change.now scn) }
        ensures { self.new ≡ with_change change.now scn at self.old }
    {
        if let Some(now) = &mut self.current {
            now.change(change, scn, at);
        }
    }

    pub(crate) fn give_up(&mut self) -> Option<Current>
        ensures value { result ≡ self.old.current }
        ensures after { self.new ≡ given_up self.old }
    {
        let current = self.current.take();
        if let Some(now) = &current
            && now.dirty
        {
            self.past = Some(PastImage {
                image: now.image.image().copy(),
                mine: now.mine,
                asked: false,
            });
        }
        current
    }

    pub(crate) fn invalidate(&mut self, grant: u64)
        ensures { self.new ≡ without_grant grant self.old }
    {
        if let Some(now) = &self.current
            && now.grant == grant
        {
            self.current = None;
        }
    }

    pub(crate) fn evict(&mut self) -> Option<u64>
        ensures value { result ≡ clean_grant self.old.current }
        ensures after { self.new ≡ without_clean self.old }
    {
        let now = self.current.as_ref()?;
        if now.dirty {
            return None;
        }
        let grant = now.grant;
        self.current = None;
        Some(grant)
    }

    pub(crate) fn wrote(&mut self)
        ensures { self.new ≡ with_written self.old }
    {
        if let Some(now) = &mut self.current {
            now.wrote();
        }
        self.wish = false;
    }

    pub(crate) fn drop_past(&mut self, up_to: u64)
        ensures { self.new ≡ without_past up_to self.old }
    {
        if let Some(past) = &self.past
            && past.image.version() <= up_to
        {
            self.past = None;
        }
    }

    pub(crate) fn mark_past(&mut self, asked: bool)
        ensures { self.new ≡ record self.old { past = option_map (marked asked) self.old.past } }
    {
        if let Some(past) = &mut self.past {
            past.asked = asked;
        }
    }

    pub(crate) fn forget(&mut self)
        ensures { self.new ≡ forgotten self.old }
    {
        self.mark_past(false);
        self.asked = None;
        self.wish = false;
    }

    pub(crate) fn regrant(&mut self, grant: u64, role: Role)
        ensures { self.new ≡ regranted grant role self.old }
    {
        if let Some(now) = &mut self.current {
            now.role = role;
            now.grant = grant;
        }
    }

    // The least of a place and those of the first own records here that may be missing in the disk's image.
    pub(crate) fn least_mine(&self, so_far: RedoAt) -> RedoAt
        ensures { result ≡ fold min so_far (mine_of self.now) }
    {
        let current = match &self.current {
            Some(now) => now.mine,
            None => None,
        };
        least(least(so_far, current), self.past_mine())
    }
}

/// The lower of two places, where there is a second.
pub(crate) fn least(so_far: RedoAt, at: Option<RedoAt>) -> RedoAt
    ensures { result ≡ fold min so_far (option_to_list at) }
{
    match at {
        Some(at) if at < so_far => at,
        _ => so_far,
    }
}
