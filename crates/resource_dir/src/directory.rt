//! The buckets of blocks that an instance masters.

ghost use Rattle.std.specs.Prelude.{◌≡◌, ◌++◌, ◌<◌, IfOk, None, OnOk, Some, is_some};
ghost use Rattle.std.specs.List.{list_all};
ghost use Rattle.std.specs.Option.{option_copied};
ghost use Rattle.resource_dir.specs.Directory.{bucket_of, bucket_takes, directory_takes, entry_of, is_quiet, is_quiet_bucket, is_quiet_entry, no_buckets, with_bucket};

use crate::Outbox;
use crate::takes::take;
use base_types::{BlockNo, NoMemory};
use std::marker::Model;
use wire_net::{DirEntries, Entry, Message};

/// The entries of a bucket: at place P that of the block with the number 16 P and the bucket's. Contracts see it as their
/// list.
#[derive(Debug, Drop)]
struct Bucket {
    entries: Vec<Entry>,
}

impl Model for Bucket {
    ghost use Rattle.std.specs.Prelude.{List};
    ghost use Rattle.wire_net.specs.declared.entry.Entry.{Entry};

    ghost Value = { List Entry };

    ghost view = { λ it. it.entries.items };
}

impl Bucket {
    // Takes a message to the master of the block whose entry stands at a place. Where none stands there it is dropped.
    fn take(&mut self, place: usize, message: &Message, out: &mut Outbox) -> Result<(), NoMemory>
        ensures entries { OnOk result (self.new ≡ (bucket_takes self.old place message.now).entries) }
        ensures sends { OnOk result (out.new ≡ out.old ++ (bucket_takes self.old place message.now).sends) }
    {
        if place >= self.entries.len() {
            return Ok(());
        }
        let entry = &mut self.entries[place];
        take(entry, message, out)
    }

    // Whether all entries are quiet.
    fn is_quiet(&self) -> bool
        ensures { result ≡ list_all is_quiet_entry self.now }
    {
        self.entries.iter().all(|entry| is_quiet_entry(entry))
    }
}

// Whether no operation is under way at an entry and no message waits there.
fn is_quiet_entry(entry: &Entry) -> bool
    ensures { result ≡ is_quiet_entry entry.now }
{
    entry.op.is_none() && entry.queue.is_empty()
}

// Whether all entries of a bucket are quiet, if the instance masters it.
fn is_quiet_bucket(bucket: &Option<Bucket>) -> bool
    ensures { result ≡ is_quiet_bucket bucket.now }
{
    match bucket {
        Some(bucket) => bucket.is_quiet(),
        None => true,
    }
}

/// The buckets that an instance masters, with the entries of their blocks.
#[derive(Debug, Drop)]
pub struct Directory {
    buckets: [Option<Bucket>; 16],
}

impl Directory {
    /// The directory of an instance that masters nothing.
    pub fn new() -> Directory
        ensures { result ≡ no_buckets }
    {
        Directory {
            buckets: [
                None, None, None, None, None, None, None, None, None, None, None, None, None, None,
                None, None,
            ],
        }
    }

    /// Whether the instance masters a bucket. No bucket has a number above 15.
    pub fn has(&self, bucket: u8) -> bool
        ensures { result ≡ is_some (bucket_of self.now bucket) }
    {
        match self.buckets.as_slice().get(usize::from(bucket)) {
            Some(bucket) => bucket.is_some(),
            None => false,
        }
    }

    /// The entry of a block; `None` where another instance is its master, and for a number that no data block has.
    pub fn entry(&self, block: BlockNo) -> Option<&Entry>
        ensures { option_copied result ≡ entry_of self.now block }
    {
        match &self.buckets[usize::from(block.get() % 16)] {
            Some(bucket) => bucket.entries.get(usize::from(block.get() / 16)),
            None => None,
        }
    }

    /// Takes a message on a block to its master, and the messages that waited for it as far as they can be taken now. What
    /// is sent stands in `out` behind what stood there. Where another instance is the block's master it is dropped.
    pub fn take(
        &mut self,
        block: BlockNo,
        message: &Message,
        out: &mut Outbox,
    ) -> Result<(), NoMemory>
        ensures directory { OnOk result (self.new ≡ (directory_takes self.old block message.now).directory) }
        ensures sends { OnOk result (out.new ≡ out.old ++ (directory_takes self.old block message.now).sends) }
    {
        match &mut self.buckets[usize::from(block.get() % 16)] {
            Some(bucket) => bucket.take(usize::from(block.get() / 16), message, out),
            None => Ok(()),
        }
    }

    /// Gives a bucket away, with all its entries and what waits there; `None` where the instance doesn't master it.
    pub fn send_bucket(&mut self, bucket: u8) -> Option<DirEntries>
        ensures entries { result ≡ bucket_of self.old bucket }
        ensures directory { self.new ≡ with_bucket self.old bucket None }
    {
        let place = usize::from(bucket);
        if place >= 16 {
            return None;
        }
        match self.buckets[place].take() {
            Some(bucket) => Some(DirEntries::from_vec(bucket.entries)),
            None => None,
        }
    }

    /// Masters a bucket from now on, with the entries that were sent.
    pub fn take_bucket(&mut self, bucket: u8, entries: DirEntries)
        ensures { self.new ≡ with_bucket self.old bucket (Some entries) }
    {
        let place = usize::from(bucket);
        if place < 16 {
            self.buckets[place] = Some(Bucket {
                entries: entries.into_vec(),
            });
        }
    }

    // Masters a bucket no more.
    pub(crate) fn drop_bucket(&mut self, bucket: u8)
        ensures { self.new ≡ with_bucket self.old bucket None }
    {
        let place = usize::from(bucket);
        if place < 16 {
            self.buckets[place] = None;
        }
    }

    /// Whether no operation is under way and no message waits.
    pub fn is_quiet(&self) -> bool
        ensures { result ≡ is_quiet self.now }
    {
        self.buckets.iter().all(|bucket| is_quiet_bucket(bucket))
    }
}

/// A law: a bucket that one instance sends and another one takes is there as it was, with what waits.
pub fn a_bucket_moves_whole(from: &mut Directory, to: &mut Directory, bucket: u8)
    requires { bucket < 16 }
    ensures { bucket_of (with_bucket to.old bucket (bucket_of from.old bucket)) bucket ≡ bucket_of from.old bucket }
{}
