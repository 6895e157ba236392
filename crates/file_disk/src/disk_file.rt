ghost use Rattle.std.specs.Prelude.{◌≡◌, ◌≤◌, ℕ, List, Option, length, take, drop, IfOk, IfSome, OnOk};
ghost use Rattle.file_disk.specs.Files.{FileCall, Written, Cut, Synced, added};

use rac_disk::Failed;

/// A file of a disk. What it holds outlives a crash once it is synced.
pub trait DiskFile {
    /// The calls that changed it, the oldest first, where it tells them.
    ghost calls: { Self → Option (List FileCall) };

    /// The bytes that it holds, where it tells them.
    ghost holds: { Self → Option (List ℕ) };

    /// How many bytes it has.
    fn len(&mut self) -> Result<u64, Failed>
        ensures len { IfOk result (λ len. IfSome (holds self.old) (λ bytes. len ≡ length bytes)) }
        ensures calls { calls self.new ≡ calls self.old }
        ensures holds { holds self.new ≡ holds self.old };

    /// Reads from a place on, until `out` is full or the file ends; how many bytes these are.
    fn read(&mut self, at: u64, out: &mut [u8]) -> Result<usize, Failed>
        ensures within { IfOk result (λ count. count ≤ length out.new) }
        ensures bytes { IfOk result (λ count. IfSome (holds self.old) (λ bytes. take count out.new ≡ take (length out.new) (drop at bytes))) }
        ensures calls { calls self.new ≡ calls self.old }
        ensures holds { holds self.new ≡ holds self.old };

    /// Writes all the bytes from a place on. A failed write may have written any first part of them.
    fn write(&mut self, at: u64, bytes: &[u8]) -> Result<(), Failed>
        ensures { OnOk result (calls self.new ≡ added (Written at bytes.now) (calls self.old)) };

    /// Cuts it to its first `len` bytes where it has more. A failed cut leaves it as it was or cut.
    fn cut(&mut self, len: u64) -> Result<(), Failed>
        ensures { OnOk result (calls self.new ≡ added (Cut len) (calls self.old)) };

    /// Flushes what was written, and syncs what it holds and its length.
    fn sync(&mut self) -> Result<(), Failed>
        ensures { OnOk result (calls self.new ≡ added Synced (calls self.old)) };
}
