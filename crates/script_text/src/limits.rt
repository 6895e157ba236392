/// How many lines a script has at most.
pub(crate) const LINES: u32 = 10_000;

/// How many bytes a line has at most, without its end.
pub(crate) const LINE_BYTES: usize = 200;

/// How many instances there are at most.
pub(crate) const INSTANCES: u64 = 8;

/// How many data blocks there are at most.
pub(crate) const BLOCKS: u64 = 64;

/// How many undo records a segment has room for at least.
pub(crate) const LEAST_UNDO: u64 = 8;

/// How many undo records a segment has room for at most.
pub(crate) const UNDO: u64 = 64;

/// How many undo records an undo block has room for.
pub(crate) const UNDO_BLOCK: u64 = 4;

/// How many frames a buffer cache has at least.
pub(crate) const LEAST_CACHE: u64 = 4;

/// How many frames a buffer cache has at most.
pub(crate) const CACHE: u64 = 64;

/// How many sessions a script opens at most.
pub(crate) const SESSIONS: usize = 1024;

/// How many rows a block has.
pub(crate) const BLOCK_ROWS: u64 = 8;

/// How many buckets of masters there are.
pub(crate) const BUCKETS: u64 = 16;

/// The steps of a wave after which a crash is asked for, at most.
pub(crate) const STEPS: u64 = 1_000_000;

/// How many instances there are where nothing is set.
pub(crate) const DEFAULT_INSTANCES: u8 = 2;

/// How many blocks there are where nothing is set.
pub(crate) const DEFAULT_BLOCKS: u8 = 4;

/// How many undo records a segment has room for where nothing is set.
pub(crate) const DEFAULT_UNDO: u8 = 16;

/// How many frames a cache has where nothing is set.
pub(crate) const DEFAULT_CACHE: u8 = 16;

/// Which schedule is taken where nothing is set.
pub(crate) const DEFAULT_SEED: u64 = 1;
