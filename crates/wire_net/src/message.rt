ghost use Rattle.std.specs.Prelude.{◌≡◌};
ghost use Rattle.wire_net.specs.Links.{lane_for};

use crate::entry::{DirEntries, PastHolder};
use crate::image::CurrentImage;
use base_types::{BlockNo, InstNo, Scn};
use block_image::DataBlock;
use undo_image::{UndoBlock, UndoHeader};

/// How an instance holds a block.
#[derive(Clone, Copy, Debug, PartialEq, Eq)]
pub enum Mode {
    Null,
    Shared,
    Exclusive,
}

/// Whether past images of a block may be kept elsewhere.
#[derive(Clone, Copy, Debug, PartialEq, Eq)]
pub enum Role {
    Local,
    Global,
}

/// A current image on its way to an asker, with the asker's new grant.
#[derive(Debug, Drop)]
pub struct Shipment {
    pub block: BlockNo,
    pub grant: u64,
    pub image: CurrentImage,
    /// Whether the asker is to share the block; else it gets it alone.
    pub shared: bool,
    /// Whether the image is newer than the disk's.
    pub dirty: bool,
    /// The past image that the sender keeps.
    pub past: Option<PastHolder>,
}

/// A header or an undo block of a segment.
#[derive(Debug, Drop)]
pub enum UndoImage {
    Head(UndoHeader),
    Block(UndoBlock),
}

/// A message that found no current image at the holder that it names, with its fields.
#[derive(Clone, Copy, Debug, PartialEq, Eq)]
pub enum Unfound {
    CopyTo {
        block: BlockNo,
        grant: u64,
        reader: InstNo,
    },
    ShareTo {
        block: BlockNo,
        grant: u64,
        new_grant: u64,
        asker: InstNo,
    },
    ShipTo {
        block: BlockNo,
        grant: u64,
        new_grant: u64,
        asker: InstNo,
    },
    WritePlease {
        block: BlockNo,
        grant: u64,
        version: u64,
        holder: InstNo,
    },
}

/// A message that waits at the master for the end of an operation, with its fields.
#[derive(Clone, Copy, Debug, PartialEq, Eq)]
pub enum Waiting {
    Ask {
        block: BlockNo,
        mode: Mode,
        held: Mode,
        asker: InstNo,
    },
    WritePlease {
        block: BlockNo,
        version: u64,
        holder: InstNo,
    },
}

/// What an instance tells another one, or itself.
#[derive(Debug, Drop)]
pub enum Message {
    /// Asker to master: the block is wanted in a mode.
    Ask {
        block: BlockNo,
        mode: Mode,
        held: Mode,
        asker: InstNo,
    },
    /// Master to the exclusive holder: a reader wants a copy.
    CopyTo {
        block: BlockNo,
        grant: u64,
        reader: InstNo,
    },
    /// Master to a holder that shares the block: the asker is to share it too.
    ShareTo {
        block: BlockNo,
        grant: u64,
        new_grant: u64,
        asker: InstNo,
    },
    /// Master to the exclusive holder: the asker is to get the image.
    ShipTo {
        block: BlockNo,
        grant: u64,
        new_grant: u64,
        asker: InstNo,
    },
    /// Master to a holder that shares the block: its image has to go.
    Invalidate {
        block: BlockNo,
        grant: u64,
    },
    /// Master to asker: it holds the block from now on, with the disk's image or with the one that it has.
    Grant {
        block: BlockNo,
        grant: u64,
        mode: Mode,
        from_disk: bool,
    },
    /// Holder to asker: the image.
    Shipped(Shipment),
    /// Holder to reader: a copy, which shows all that was changed up to an SCN.
    Copy {
        image: DataBlock,
        upto: Scn,
    },
    /// Holder to master: the image of an Invalidate has gone.
    Gone {
        block: BlockNo,
        grant: u64,
    },
    /// Asker to master: the block is held, and a past image of it may be kept elsewhere.
    Done {
        block: BlockNo,
        grant: u64,
        mode: Mode,
        past: Option<PastHolder>,
    },
    /// Holder to master: the image was given up.
    GaveUp {
        block: BlockNo,
        grant: u64,
    },
    /// Holder to master: a message found no current image.
    Back(Unfound),
    /// Holder to master: the block was written at a version.
    Wrote {
        block: BlockNo,
        version: u64,
    },
    /// Holder of a past image to master, and master to the exclusive holder, whose grant it then bears: the block is to be
    /// written.
    WritePlease {
        block: BlockNo,
        version: u64,
        holder: InstNo,
        grant: Option<u64>,
    },
    /// Master to the holder of a past image: it may go.
    DropPast {
        block: BlockNo,
        version: u64,
    },
    /// Reader to the owner of a segment: a header or an undo block is wanted.
    NeedUndo {
        block: BlockNo,
        job: u16,
    },
    /// Owner to reader: the header or the undo block.
    UndoIs {
        image: UndoImage,
        job: u16,
    },
    /// Committer to each other instance: a transaction ended at an SCN.
    Commit {
        c: Scn,
    },
    /// The answer to it.
    Heard {
        c: Scn,
    },
    /// Old master to new master: the entries of a bucket.
    Bucket {
        bucket: u8,
        entries: DirEntries,
    },
}

/// The two links from an instance to another one: what asks for undo and answers with it doesn't wait behind other
/// messages.
#[derive(Clone, Copy, Debug, PartialEq, Eq)]
pub enum Lane {
    Main,
    Undo,
}

impl Message {
    /// The link that bears it.
    pub fn lane(&self) -> Lane
        ensures { result ≡ lane_for self.now }
    {
        match self {
            Message::NeedUndo { block: _, job: _ } | Message::UndoIs { image: _, job: _ } => {
                Lane::Undo
            }
            _ => Lane::Main,
        }
    }
}

/// A message with its sender's clock.
#[derive(Debug, Drop)]
pub struct Packet {
    pub scn: Scn,
    pub message: Message,
}
