ghost use Rattle.std.specs.Prelude.{◌≡◌};
ghost use Rattle.wire_net.specs.Entry.{above, empty_entry, grant_of, no_grants, no_versions, version_of, versions_above, with_grant, with_version};

use crate::fifo::Fifo;
use crate::message::{Mode, Waiting};
use base_types::InstNo;
use inst_set::InstSet;
use std::alloc::Global;
use std::marker::Model;

/// An instance that holds a block, with its grant.
#[derive(Clone, Copy, Debug, PartialEq, Eq)]
pub struct Holder {
    pub inst: InstNo,
    pub grant: u64,
}

/// An instance that keeps a past image of a block, with the image's version.
#[derive(Clone, Copy, Debug, PartialEq, Eq)]
pub struct PastHolder {
    pub inst: InstNo,
    pub version: u64,
}

/// The grants of the instances that share a block, at most one each. A number above 7 has none.
#[derive(Clone, Copy, Debug, PartialEq, Eq)]
pub struct Grants {
    by_inst: [Option<u64>; 8],
}

impl Grants {
    /// Nobody shares the block.
    pub fn new() -> Grants
        ensures { result ≡ no_grants }
    {
        Grants { by_inst: [None; 8] }
    }

    /// The grant of an instance; `None` where it doesn't share the block.
    pub fn get(&self, inst: InstNo) -> Option<u64>
        ensures { result ≡ grant_of self.now inst }
    {
        let place = usize::from(inst.get());
        if place < 8 { self.by_inst[place] } else { None }
    }

    /// Sets the grant of an instance, with `None` that it has none.
    pub fn set(&mut self, inst: InstNo, grant: Option<u64>)
        ensures { self.new ≡ with_grant self.old inst grant }
    {
        let place = usize::from(inst.get());
        if place < 8 {
            self.by_inst[place] = grant;
        }
    }
}

/// The versions of the past images of a block, at most one for each instance. A number above 7 has none.
#[derive(Clone, Copy, Debug, PartialEq, Eq)]
pub struct PastVersions {
    by_inst: [Option<u64>; 8],
}

impl PastVersions {
    /// Nobody keeps a past image.
    pub fn new() -> PastVersions
        ensures { result ≡ no_versions }
    {
        PastVersions { by_inst: [None; 8] }
    }

    /// The version of an instance's past image; `None` where it is known to keep none.
    pub fn get(&self, inst: InstNo) -> Option<u64>
        ensures { result ≡ version_of self.now inst }
    {
        let place = usize::from(inst.get());
        if place < 8 { self.by_inst[place] } else { None }
    }

    /// Sets the version of an instance's past image, with `None` that it keeps none.
    pub fn set(&mut self, inst: InstNo, version: Option<u64>)
        ensures { self.new ≡ with_version self.old inst version }
    {
        let place = usize::from(inst.get());
        if place < 8 {
            self.by_inst[place] = version;
        }
    }

    /// The versions that are above a limit.
    pub fn above(&self, limit: u64) -> PastVersions
        ensures { result ≡ versions_above self.now limit }
    {
        let at = |inst: u8| above(self.get(InstNo(inst)), limit);
        PastVersions {
            by_inst: [at(0), at(1), at(2), at(3), at(4), at(5), at(6), at(7)],
        }
    }
}

// A version, if it is above a limit.
fn above(version: Option<u64>, limit: u64) -> Option<u64>
    ensures { result ≡ above version limit }
{
    match version {
        Some(number) if number > limit => Some(number),
        _ => None,
    }
}

/// An operation that is under way: an instance is to get the block in a mode.
#[derive(Clone, Copy, Debug, PartialEq, Eq)]
pub struct Operation {
    pub asker: InstNo,
    pub mode: Mode,
    /// The mode in which the asker held the block as it asked.
    pub held: Mode,
    /// The new grant; `None` until it is drawn.
    pub grant: Option<u64>,
    /// The instances to which an Invalidate is out.
    pub waits: InstSet,
}

/// What the master of a block knows of it.
#[derive(Debug, Drop)]
pub struct Entry {
    /// The instance that holds it exclusively.
    pub x: Option<Holder>,
    /// The instances that share it.
    pub shared: Grants,
    /// The past images of it that are kept.
    pub past: PastVersions,
    /// The highest version that is known to be written.
    pub written: u64,
    /// The number of the next grant, from 1.
    pub next_grant: u64,
    pub op: Option<Operation>,
    /// The messages that wait for the end of the operation.
    pub queue: Fifo<Waiting>,
}

impl Entry {
    /// The entry of a block that was never asked for. It takes no memory.
    pub fn new(alloc: Global) -> Entry
        ensures { result ≡ empty_entry }
    {
        Entry {
            x: None,
            shared: Grants::new(),
            past: PastVersions::new(),
            written: 0,
            next_grant: 1,
            op: None,
            queue: Fifo::new(alloc),
        }
    }
}

/// The entries of a bucket: at place P that of the block with the number 16 P and the bucket's. Contracts see them as
/// their list.
#[derive(Debug, Drop)]
pub struct DirEntries {
    entries: Vec<Entry>,
}

impl Model for DirEntries {
    ghost use Rattle.std.specs.Prelude.{List};
    ghost use Rattle.wire_net.specs.declared.entry.Entry.{Entry};

    ghost Value = { List Entry };

    ghost view = { λ it. it.entries.items };
}

impl DirEntries {
    /// The entries in a `Vec`. It takes no memory.
    pub fn from_vec(entries: Vec<Entry>) -> DirEntries
        ensures { result ≡ entries.items }
    {
        DirEntries { entries }
    }

    /// The `Vec` with the entries.
    pub fn into_vec(self) -> Vec<Entry>
        ensures { result.items ≡ self }
    {
        self.entries
    }

    pub fn as_slice(&self) -> &[Entry]
        ensures { result.now ≡ self.now }
    {
        self.entries.as_slice()
    }
}
