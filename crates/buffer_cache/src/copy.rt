ghost use Rattle.std.specs.Prelude.{◌≡◌, Some, option_copied};
ghost use Rattle.buffer_cache.specs.Cache.{fitting};

use base_types::Scn;
use block_image::DataBlock;

/// A copy of a block that is kept for readers.
#[derive(Debug, Drop)]
pub struct KeptCopy {
    pub image: DataBlock,
    /// It serves each statement whose SCN is at most this.
    pub upto: Scn,
}

impl KeptCopy {
    /// The image, where it serves a statement of this SCN.
    pub fn serving(&self, scn: Scn) -> Option<&DataBlock>
        ensures { option_copied result ≡ fitting scn (Some self.now) }
    {
        if scn <= self.upto {
            Some(&self.image)
        } else {
            None
        }
    }
}
