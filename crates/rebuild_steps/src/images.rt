//! The images of blocks, whatever stands in them.

ghost use Rattle.std.specs.Prelude.{◌≡◌, ◌<◌, true, IfOk};
ghost use Rattle.std.specs.Option.{option_copied};
ghost use Rattle.rebuild_steps.specs.Images.{LoadsImage, bytes_of, image_rolled, is_image_of, kind_of, newer, rolled_from, version_of};

use base_types::{BlockNo, InstNo, Layout};
use block_image::DataBlock;
use disk_calls::{load_data, load_head, load_undo};
use rac_disk::SharedDisk;
use recovery::{roll_block, roll_header, roll_undo_block};
use redo_merge::Tagged;
use undo_image::{UndoBlock, UndoHeader};
use undo_segment::LoadError;

/// What stands in a block, by its place on the disk.
#[derive(Clone, Copy, Debug, PartialEq, Eq)]
pub enum Kind {
    Data,
    /// The header of this instance's undo segment.
    Head(InstNo),
    /// An undo block of this instance's segment.
    Undo(InstNo),
}

/// An image of a block.
#[derive(Drop)]
pub enum Image {
    Data(DataBlock),
    Head(UndoHeader),
    Undo(UndoBlock),
}

// What stands in a block.
pub(crate) fn kind_of(layout: &Layout, block: BlockNo) -> Kind
    requires { block < 200 }
    ensures { result ≡ kind_of layout.now block }
{
    if block.get() < layout.blocks {
        return Kind::Data;
    }
    let count = 1 + layout.undo / 4;
    let at = block.get() - layout.blocks;
    let seg = InstNo((at / count) as u8);
    if at % count == 0 {
        Kind::Head(seg)
    } else {
        Kind::Undo(seg)
    }
}

// Reads the image of a block. What stands there is looked at, as each kind of block asks for; an error says that the call
// failed, or that what stands there is no such block.
pub(crate) fn load_image<D: SharedDisk>(
    layout: &Layout,
    block: BlockNo,
    disk: &mut D,
) -> Result<Image, LoadError>
    requires { block < 200 }
    ensures fits { IfOk result (λ image. is_image_of block (kind_of layout.now block) image ≡ true) }
    ensures disk { LoadsImage layout.now block result (D.state disk.old) (D.state disk.new) }
{
    match kind_of(layout, block) {
        Kind::Data => Ok(Image::Data(load_data(block, disk)?)),
        Kind::Head(seg) => Ok(Image::Head(load_head(block, seg, disk)?)),
        Kind::Undo(seg) => Ok(Image::Undo(load_undo(block, seg, disk)?)),
    }
}

impl Image {
    pub fn version(&self) -> u64
        ensures { result ≡ version_of self.now }
    {
        match self {
            Image::Data(block) => block.version(),
            Image::Head(head) => head.version(),
            Image::Undo(block) => block.version(),
        }
    }

    /// The bytes of the block.
    pub fn bytes(&self) -> [u8; 512]
        ensures { result ≡ bytes_of self.now }
    {
        let mut bytes = [0; 512];
        match self {
            Image::Data(block) => block.write(&mut bytes),
            Image::Head(head) => head.write(&mut bytes),
            Image::Undo(block) => block.write(&mut bytes),
        }
        bytes
    }

    // The image after the changes of its block by these records that it doesn't have yet.
    fn rolled(self, merged: &[Tagged]) -> Option<Image>
        ensures { result ≡ image_rolled merged.now self }
    {
        match self {
            Image::Data(block) => Some(Image::Data(roll_block(block, merged)?)),
            Image::Head(head) => Some(Image::Head(roll_header(head, merged)?)),
            Image::Undo(block) => Some(Image::Undo(roll_undo_block(block, merged)?)),
        }
    }

    // The newer one of the image that stands on the disk and the past image of the block, if one is there.
    fn or_newer(self, past: Option<&DataBlock>) -> Image
        ensures { result ≡ newer (option_copied past.entry) self }
    {
        match (self, past) {
            (Image::Data(block), Some(past)) => {
                if past.version() > block.version() {
                    Image::Data(past.copy())
                } else {
                    Image::Data(block)
                }
            }
            (image, _) => image,
        }
    }

    /// What redo makes of a block: the newer one of the image that stands on the disk and its past image, if one is there,
    /// rolled forward. `None`, which comes of no run, where the records don't fit it.
    pub fn rebuilt(self, past: Option<&DataBlock>, merged: &[Tagged]) -> Option<Image>
        ensures { result ≡ rolled_from merged.now (option_copied past.entry) self }
    {
        self.or_newer(past).rolled(merged)
    }
}
