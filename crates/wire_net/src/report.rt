use crate::message::Mode;
use base_types::{BlockNo, Scn, Sequence};

/// What an instance reports of a block after a change of membership: its current image, its past image, or both.
#[derive(Clone, Copy, Debug, PartialEq, Eq)]
pub struct Frame {
    pub block: BlockNo,
    /// The mode of the current image, `Null` where there is none.
    pub mode: Mode,
    /// The version of the current image, 0 where there is none.
    pub version: u64,
    /// Whether the current image is newer than the disk's.
    pub dirty: bool,
    /// The version of the past image.
    pub past: Option<u64>,
}

/// What an instance reports after a change of membership: its two clocks and its frames.
#[derive(Debug, Drop)]
pub struct Report {
    pub scn: Scn,
    pub known: Scn,
    pub frames: Sequence<Frame>,
}
