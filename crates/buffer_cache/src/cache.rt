ghost use Rattle.std.specs.Prelude.{◌≡◌, ◌≤◌, Some, None, IfOk, OnErr, OnOk, is_some, length, map, nat_eq, option_copied, option_map, replicate, unwrap_or};
ghost use Rattle.std.specs.List.{IsDistinct};
ghost use Rattle.std.specs.Map.{keys_of};
ghost use Rattle.std.specs.Option.{ForSome, option_and_then};
ghost use Rattle.buffer_cache.specs.Place.{CanChange, clean_grant, empty_place, forgotten, given_up, held_of, holds_clean, holds_dirty, holds_shared, is_marked, read_from_disk, shareable, shipped, upgraded, with_ask, with_change, with_past_asked, with_wish, with_written, without_clean, without_grant, without_past, regranted};
ghost use Rattle.buffer_cache.specs.Cache.{at_place, copy_at, empty_cache, forgets, free, installed, may_ask, place_at, position, taken, with_copy, with_copy_used, without_copy};

use crate::copy::KeptCopy;
use crate::place::{Current, Held, Place, least};
use base_types::{BlockNo, NoMemory, RedoAt, Scn};
use block_image::{DataBlock, RowChange};
use lru::LruCache;
use std::alloc::Global;
use std::marker::Model;
use std::num::NonZeroUsize;
use wire_net::{Mode, Role, Shipment};

/// An instance's images of data blocks: of each block its current image, its past image, what is asked for, and a copy
/// that is kept for readers. Of a block that there isn't, it has nothing, and nothing changes.
#[derive(Drop)]
pub struct BufferCache {
    frames: u8,
    places: Vec<Place>,
    copies: LruCache<u16, KeptCopy>,
}

impl Model for BufferCache {
    ghost use Rattle.std.specs.Prelude.{◌≡◌, ◌≤◌, vec_len};
    ghost use Rattle.buffer_cache.specs.Cache.{CacheState};

    ghost Value = { CacheState };

    ghost view = { λ it. record { frames = it.frames; places = it.places.items; copies = it.copies.entries } };

    ghost invariant = { λ it. (vec_len it.places ≤ 64) × (it.copies.cap ≡ it.frames) };
}

impl BufferCache {
    /// A cache of so many frames, at least 1, for so many blocks, at most 64. It keeps as many copies as there are
    /// frames.
    pub fn new(alloc: Global, frames: u8, blocks: u16) -> Result<BufferCache, NoMemory>
        requires some { 1 ≤ frames }
        requires few { blocks ≤ 64 }
        ensures { IfOk result (λ it. it ≡ empty_cache frames blocks) }
    {
        let room = NonZeroUsize::new(usize::from(frames)).unwrap();
        Ok(BufferCache {
            frames,
            places: empty_places(alloc, blocks)?,
            copies: LruCache::new(alloc, room)?,
        })
    }

    /// How many blocks there are.
    pub fn blocks(&self) -> u16
        ensures { result ≡ length self.now.places }
    {
        self.places.len() as u16
    }

    /// How many frames are taken.
    pub fn taken(&self) -> u8
        ensures { result ≡ taken self.now }
    {
        let mut taken = 0;
        for place in &self.places {
            taken += place.frames();
        }
        taken
    }

    /// How many frames are free.
    pub fn free(&self) -> u8
        ensures { result ≡ free self.now }
    {
        self.frames.saturating_sub(self.taken())
    }

    // What it has of a block; `None` where there is no such block.
    fn place(&self, b: BlockNo) -> Option<&Place>
        ensures { unwrap_or (option_copied result) empty_place ≡ place_at self.now b }
    {
        self.places.get(usize::from(b.get()))
    }

    /// Whether there is a frame for an ask: one is free, or the block is held in S, whose frame serves an upgrade.
    pub fn may_ask(&self, b: BlockNo) -> bool
        ensures { result ≡ may_ask self.now b }
    {
        self.taken() < self.frames || self.holds_shared(b)
    }

    fn holds_shared(&self, b: BlockNo) -> bool
        ensures { result ≡ holds_shared (place_at self.now b).current }
    {
        match self.place(b) {
            Some(place) => place.holds_shared(),
            None => false,
        }
    }

    /// Notes that a block is asked for in a mode: a frame is reserved, that of the current image where there is one.
    pub fn ask(&mut self, b: BlockNo, mode: Mode)
        ensures { self.new ≡ at_place (with_ask (Some mode)) self.old b }
    {
        if let Some(place) = self.places.get_mut(usize::from(b.get())) {
            place.asked = Some(mode);
        }
    }

    /// Ends the reservation for a block.
    pub fn release(&mut self, b: BlockNo)
        ensures { self.new ≡ at_place (with_ask None) self.old b }
    {
        if let Some(place) = self.places.get_mut(usize::from(b.get())) {
            place.asked = None;
        }
    }

    /// The mode in which a block is asked for; `None` where it isn't.
    pub fn asked(&self, b: BlockNo) -> Option<Mode>
        ensures { result ≡ (place_at self.now b).asked }
    {
        self.place(b)?.asked
    }

    /// How the current image of a block is held; `None` where it isn't.
    pub fn held(&self, b: BlockNo) -> Option<Held>
        ensures { result ≡ option_map held_of (place_at self.now b).current }
    {
        self.place(b)?.held()
    }

    /// The current image of a block, where it is held.
    pub fn image(&self, b: BlockNo) -> Option<&DataBlock>
        ensures { option_copied result ≡ option_map (λ now. now.image) (place_at self.now b).current }
    {
        self.place(b)?.image()
    }

    /// Whether an image of the block is held that the disk doesn't have.
    pub fn is_dirty(&self, b: BlockNo) -> bool
        ensures { result ≡ holds_dirty (place_at self.now b).current }
    {
        match self.place(b) {
            Some(place) => place.is_dirty(),
            None => false,
        }
    }

    /// Whether an image of the block is held that the disk has too.
    pub fn is_clean(&self, b: BlockNo) -> bool
        ensures { result ≡ holds_clean (place_at self.now b).current }
    {
        match self.place(b) {
            Some(place) => place.is_clean(),
            None => false,
        }
    }

    /// The past image of a block, where there is one.
    pub fn past(&self, b: BlockNo) -> Option<&DataBlock>
        ensures { option_copied result ≡ option_map (λ past. past.image) (place_at self.now b).past }
    {
        self.place(b)?.past_image()
    }

    /// The version of the past image of a block, where there is one.
    pub fn past_version(&self, b: BlockNo) -> Option<u64>
        ensures { result ≡ option_map (λ past. past.image.front.version) (place_at self.now b).past }
    {
        self.place(b)?.past_version()
    }

    /// The place of the first own record in a block's past image that may be missing in the disk's; `None` also where
    /// there is no past image.
    pub fn past_mine(&self, b: BlockNo) -> Option<RedoAt>
        ensures { result ≡ option_and_then (λ past. past.mine) (place_at self.now b).past }
    {
        self.place(b)?.past_mine()
    }

    /// Whether a write of the block was asked for that lets its past image go.
    pub fn is_past_asked(&self, b: BlockNo) -> bool
        ensures { result ≡ is_marked (place_at self.now b).past }
    {
        match self.place(b) {
            Some(place) => place.is_past_asked(),
            None => false,
        }
    }

    /// Whether a wish to write the block came that wasn't met yet.
    pub fn is_wished(&self, b: BlockNo) -> bool
        ensures { result ≡ (place_at self.now b).wish }
    {
        match self.place(b) {
            Some(place) => place.wish,
            None => false,
        }
    }

    /// Installs the image that another instance shipped. The reservation, the past image and the kept copy of its
    /// block go.
    pub fn install(&mut self, shipment: Shipment)
        ensures { self.new ≡ installed self.old shipment.block (Some (shipped shipment)) }
    {
        self.drop_copy(shipment.block);
        if let Some(place) = self.places.get_mut(usize::from(shipment.block.get())) {
            place.install(Some(Current::shipped(shipment)));
        }
    }

    /// Installs an image that was read from the disk: it is clean, and its role is local. The reservation, the past
    /// image and the kept copy of the block go.
    pub fn install_read(&mut self, b: BlockNo, grant: u64, mode: Mode, block: DataBlock)
        ensures { self.new ≡ installed self.old b (Some (read_from_disk grant mode block)) }
    {
        self.drop_copy(b);
        if let Some(place) = self.places.get_mut(usize::from(b.get())) {
            place.install(Some(Current::read_from_disk(grant, mode, block)));
        }
    }

    /// Holds the current image, where there is one, in X from now on, with a new grant. The reservation, the past
    /// image and the kept copy of the block go.
    pub fn install_held(&mut self, b: BlockNo, grant: u64)
        ensures { self.new ≡ installed self.old b (option_map (upgraded grant) (place_at self.old b).current) }
    {
        self.drop_copy(b);
        if let Some(place) = self.places.get_mut(usize::from(b.get())) {
            place.upgrade(grant);
        }
    }

    /// Makes a change of a row of an image that is held in X, by the own record at this place with this SCN. Where
    /// none is held so, nothing changes.
    pub fn change(&mut self, b: BlockNo, change: &RowChange, scn: Scn, at: RedoAt)
        requires { ForSome (place_at self.old b).current (CanChange change.now scn) }
        ensures { self.new ≡ at_place (with_change change.now scn at) self.old b }
    {
        if let Some(place) = self.places.get_mut(usize::from(b.get())) {
            place.change(change, scn, at);
        }
    }

    /// Moves the current image out; `None` where there is none. Of a dirty one an equal stays as the past image.
    pub fn give_up(&mut self, b: BlockNo) -> Option<Current>
        ensures value { result ≡ (place_at self.old b).current }
        ensures after { self.new ≡ at_place given_up self.old b }
    {
        match self.places.get_mut(usize::from(b.get())) {
            Some(place) => place.give_up(),
            None => None,
        }
    }

    /// An equal of the current image, where it is clean and held in S.
    pub fn share(&self, b: BlockNo) -> Option<DataBlock>
        ensures { result ≡ shareable (place_at self.now b).current }
    {
        self.place(b)?.share()
    }

    /// Drops the current image where it is held by this grant.
    pub fn invalidate(&mut self, b: BlockNo, grant: u64)
        ensures { self.new ≡ at_place (without_grant grant) self.old b }
    {
        if let Some(place) = self.places.get_mut(usize::from(b.get())) {
            place.invalidate(grant);
        }
    }

    /// Drops the current image where it is clean, and gives its grant; else `None`.
    pub fn evict(&mut self, b: BlockNo) -> Option<u64>
        ensures value { result ≡ clean_grant (place_at self.old b).current }
        ensures after { self.new ≡ at_place without_clean self.old b }
    {
        match self.places.get_mut(usize::from(b.get())) {
            Some(place) => place.evict(),
            None => None,
        }
    }

    /// Notes that the current image was written: it is clean, its role is local, and what was wished is done.
    pub fn wrote(&mut self, b: BlockNo)
        ensures { self.new ≡ at_place with_written self.old b }
    {
        if let Some(place) = self.places.get_mut(usize::from(b.get())) {
            place.wrote();
        }
    }

    /// Notes a wish that the block be written.
    pub fn wish(&mut self, b: BlockNo)
        ensures { self.new ≡ at_place with_wish self.old b }
    {
        if let Some(place) = self.places.get_mut(usize::from(b.get())) {
            place.wish = true;
        }
    }

    /// Drops the past image of a block where its version is at most this.
    pub fn drop_past(&mut self, b: BlockNo, up_to: u64)
        ensures { self.new ≡ at_place (without_past up_to) self.old b }
    {
        if let Some(place) = self.places.get_mut(usize::from(b.get())) {
            place.drop_past(up_to);
        }
    }

    /// Notes that a write of the block was asked for that lets its past image go.
    pub fn ask_past(&mut self, b: BlockNo)
        ensures { self.new ≡ at_place with_past_asked self.old b }
    {
        if let Some(place) = self.places.get_mut(usize::from(b.get())) {
            place.mark_past(true);
        }
    }

    /// Gives the current image, where it is held, a new grant and a role.
    pub fn regrant(&mut self, b: BlockNo, grant: u64, role: Role)
        ensures { self.new ≡ at_place (regranted grant role) self.old b }
    {
        if let Some(place) = self.places.get_mut(usize::from(b.get())) {
            place.regrant(grant, role);
        }
    }

    /// Forgets what was asked for, as a report does: reservations, wishes and kept copies go, and no write counts as
    /// asked for.
    pub fn forget(&mut self)
        ensures { self.new ≡ forgets self.old }
    {
        forget_all(&mut self.places);
        self.copies.clear();
    }

    /// Keeps a copy that serves statements up to an SCN, in the place of one of the same block. Where there are too
    /// many, the one used longest ago goes. An `Err` leaves the copies as they were.
    pub fn keep_copy(&mut self, image: DataBlock, upto: Scn) -> Result<(), NoMemory>
        ensures ok { OnOk result (self.new ≡ with_copy self.old image upto) }
        ensures err { OnErr result (self.new ≡ self.old) }
    {
        let number = image.number();
        self.copies.put(number.get(), KeptCopy { image, upto })?;
        Ok(())
    }

    /// The kept copy of a block, where it serves a statement of this SCN. The order of the copies stays.
    pub fn peek_copy(&self, b: BlockNo, scn: Scn) -> Option<&DataBlock>
        ensures { option_copied result ≡ copy_at self.now b scn }
    {
        self.copies.peek(&b.get())?.serving(scn)
    }

    /// Whether there is a kept copy of a block that serves a statement of this SCN: it is then the one used last.
    pub fn use_copy(&mut self, b: BlockNo, scn: Scn) -> bool
        ensures value { result ≡ is_some (copy_at self.old b scn) }
        ensures after { self.new ≡ with_copy_used self.old b scn }
    {
        let serves = self.peek_copy(b, scn).is_some();
        if serves {
            self.copies.promote(&b.get());
        }
        serves
    }

    /// How many copies are kept: at most one of a block, and at most as many as there are frames.
    pub fn copy_count(&self) -> usize
        ensures count { result ≡ length self.now.copies }
        ensures few { result ≤ self.now.frames }
        ensures one_each { IsDistinct nat_eq (keys_of self.now.copies) }
    {
        self.copies.len()
    }

    /// Drops the kept copy of a block.
    pub fn drop_copy(&mut self, b: BlockNo)
        ensures { self.new ≡ without_copy self.old b }
    {
        drop(self.copies.pop(&b.get()));
    }

    /// Where a recovery has to begin to read the own redo: the least place of an own record that may be missing in the
    /// disk's image of a block, where it is below both the first such record of the undo segment and what is durable.
    pub fn position(&self, first: Option<RedoAt>, durable: RedoAt) -> RedoAt
        ensures { result ≡ position self.now first durable }
    {
        let mut lowest = least(durable, first);
        for place in &self.places {
            lowest = place.least_mine(lowest);
        }
        lowest
    }
}

// Places for so many blocks.
fn empty_places(alloc: Global, blocks: u16) -> Result<Vec<Place>, NoMemory>
    ensures { IfOk result (λ places. places.items ≡ replicate blocks empty_place) }
{
    let mut places = Vec::with_capacity(alloc, usize::from(blocks))?;
    for _block in 0..blocks {
        places.push(Place::empty())?;
    }
    Ok(places)
}

fn forget_all(places: &mut [Place])
    ensures { places.new ≡ map forgotten places.old }
{
    for place in places.iter_mut() {
        place.forget();
    }
}
