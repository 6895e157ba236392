//! The image that a read has in hand, and the undo that was handed in for it.

ghost use Rattle.std.specs.Prelude.{◌≡◌};
ghost use Rattle.std.specs.Option.{option_copied};
ghost use Rattle.inst_state.specs.Hand.{came, current_image, handed_at, image_for, image_if_of, image_in_hand, kept, name_in_hand, name_of, reads_kept, same_name, snapshot_at};

use crate::inst::Inst;
use crate::needs::Needed;
use crate::session::{CameCopy, ImageName};
use base_types::{BlockNo, Scn};
use block_image::DataBlock;
use undo_segment::Handed;
use wire_net::Mode;

/// The name of an image.
pub fn name_of(image: &DataBlock) -> ImageName
    ensures { result ≡ name_of image.now }
{
    ImageName {
        block: image.number(),
        version: image.version(),
    }
}

/// Whether two names are of one image, if there are both.
pub fn same_name(one: Option<ImageName>, other: Option<ImageName>) -> bool
    ensures { result ≡ same_name one other }
{
    match (one, other) {
        (Some(one), Some(other)) => one.block == other.block && one.version == other.version,
        _ => false,
    }
}

fn image_if_of(block: BlockNo, copy: &Option<CameCopy>) -> Option<&DataBlock>
    ensures { option_copied result ≡ image_if_of block copy.now }
{
    match copy {
        Some(copy) if copy.image.number() == block => Some(&copy.image),
        _ => None,
    }
}

impl Inst {
    // The image of a block that came for a session's line.
    fn came(&self, z: usize, block: BlockNo) -> Option<&DataBlock>
        ensures { option_copied result ≡ came self.now z block }
    {
        match self.session(z) {
            Some(session) => image_if_of(block, &session.job.copy),
            None => None,
        }
    }

    /// The SCN up to which a session's line sees; 0 where it isn't under way.
    pub fn snapshot_or_zero(&self, z: usize) -> Scn
        ensures { result ≡ snapshot_at self.now z }
    {
        match self.snapshot(z) {
            Some(snapshot) => snapshot,
            None => Scn(0),
        }
    }

    fn image_for(&self, z: usize, need: Needed) -> Option<&DataBlock>
        ensures { option_copied result ≡ image_for self.now z need }
    {
        if self.holds(need.block, need.mode) {
            return self.cache.image(need.block);
        }
        if matches!(need.mode, Mode::Exclusive) {
            return None;
        }
        match self.came(z, need.block) {
            Some(image) => Some(image),
            None => self.cache.peek_copy(need.block, self.snapshot_or_zero(z)),
        }
    }

    /// The image that a session's line has in hand: the current one of the block that it needs, where that is held as
    /// needed, else, of a reader, the copy that came for it, else the kept copy that serves it.
    pub fn image_in_hand(&self, z: usize) -> Option<&DataBlock>
        ensures { option_copied result ≡ image_in_hand self.now z }
    {
        match self.needed(z) {
            Some(need) => self.image_for(z, need),
            None => None,
        }
    }

    /// Whether a reader that needs a block has a kept copy in hand, if it has any image.
    pub fn reads_kept(&self, z: usize, need: Needed) -> bool
        ensures { result ≡ reads_kept self.now z need }
    {
        !self.holds(need.block, need.mode)
            && !matches!(need.mode, Mode::Exclusive)
            && self.came(z, need.block).is_none()
    }

    /// The name of the image that a session's line has in hand.
    pub fn name_in_hand(&self, z: usize) -> Option<ImageName>
        ensures { result ≡ name_in_hand self.now z }
    {
        match self.image_in_hand(z) {
            Some(image) => Some(name_of(image)),
            None => None,
        }
    }

    /// The headers and undo blocks of other segments that were handed in for the image that a session's line has in hand.
    pub fn handed_at(&self, z: usize) -> &Handed
        ensures { result.now ≡ handed_at self.now z }
    {
        match self.session(z) {
            Some(session) => {
                if same_name(session.job.handed_for, self.name_in_hand(z)) {
                    &session.job.handed
                } else {
                    &self.plan.nothing
                }
            }
            None => &self.plan.nothing,
        }
    }
}
