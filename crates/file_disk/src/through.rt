//! What is done to one file of a disk: changes that are synced before they are answered, and reads that are
//! compared with what the disk is known to hold.

ghost use Rattle.std.specs.Prelude.{◌≡◌, ◌≢◌, ◌<◌, ◌≤◌, ◌+◌, ◌^◌, ℕ, length, take, min, IfOk, IfErr, OnOk};
ghost use Rattle.file_disk.specs.Files.{Written, Cut, of_log, synced};

use crate::disk_file::DiskFile;
use base_types::InstNo;
use rac_disk::Failed;

/// Writes all the bytes from a place on, and syncs them.
pub fn write_through<F: DiskFile>(file: &mut F, at: u64, bytes: &[u8]) -> Result<(), Failed>
    ensures { OnOk result (F.calls file.new ≡ synced (Written at bytes.now) (F.calls file.old)) }
{
    file.write(at, bytes)?;
    file.sync()
}

/// Cuts the file to its first `len` bytes where it has more, and syncs its length, also where it has no more:
/// a cut that failed may have left the length short and not synced.
pub fn cut_through<F: DiskFile>(file: &mut F, len: u64) -> Result<(), Failed>
    ensures { OnOk result (F.calls file.new ≡ synced (Cut len) (F.calls file.old)) }
{
    file.cut(len)?;
    file.sync()
}

/// How many bytes the file has. It fails where these aren't so many as are known.
pub fn known_len<F: DiskFile>(file: &mut F, known: u64) -> Result<u64, Failed>
    ensures len { IfOk result (λ len. len ≡ known) }
    ensures calls { F.calls file.new ≡ F.calls file.old }
{
    let len = file.len()?;
    if len != known {
        return Err(Failed);
    }
    Ok(len)
}

/// Reads from a place on, from which these bytes are known to stand to the file's end; how many were read. It
/// fails where they aren't the known ones, as many as fit.
pub fn read_known<F: DiskFile>(
    file: &mut F,
    at: u64,
    out: &mut [u8],
    known: &[u8],
) -> Result<usize, Failed>
    ensures count { IfOk result (λ count. count ≡ min (length known.now) (length out.new)) }
    ensures bytes { IfOk result (λ count. take count out.new ≡ take count known.now) }
    ensures calls { F.calls file.new ≡ F.calls file.old }
{
    let count = file.read(at, out)?;
    if count != known.len().min(out.len()) {
        return Err(Failed);
    }
    if out[..count] != known[..count] {
        return Err(Failed);
    }
    Ok(count)
}

/// How many of these first bytes the file has from a place on, as far as it can be read.
pub fn same_front<F: DiskFile>(file: &mut F, at: u64, bytes: &[u8]) -> usize
    requires { at + length bytes.now < 2 ^ 64 }
    ensures within { result ≤ length bytes.now }
    ensures calls { F.calls file.new ≡ F.calls file.old }
{
    let mut same = 0;
    while same < bytes.len() {
        let more = same_piece(file, at + same as u64, &bytes[same..]);
        if more == 0 {
            break;
        }
        same += more;
    }
    same
}

// The same of at most 512 bytes.
fn same_piece<F: DiskFile>(file: &mut F, at: u64, bytes: &[u8]) -> usize
    ensures within { result ≤ length bytes.now }
    ensures calls { F.calls file.new ≡ F.calls file.old }
{
    let mut out = [0; 512];
    match file.read(at, &mut out) {
        Ok(count) => equal_front(&out[..count], bytes),
        Err(Failed) => 0,
    }
}

// How many first bytes are equal.
fn equal_front(left: &[u8], right: &[u8]) -> usize
    ensures within { result ≤ length right.now }
    ensures equal { take result left.now ≡ take result right.now }
{
    let mut same = 0;
    while same < left.len().min(right.len()) {
        if left[same] != right[same] {
            break;
        }
        same += 1;
    }
    same
}

/// Whether the file has at most so many bytes, as far as it can be asked.
pub fn is_cut<F: DiskFile>(file: &mut F, len: u64) -> bool
    ensures { F.calls file.new ≡ F.calls file.old }
{
    match file.len() {
        Ok(left) => left <= len,
        Err(Failed) => false,
    }
}

/// Writes all the bytes from a place on in the file of a thread's log, and syncs them. An `Err` has how many
/// first bytes of them the file has then, as far as it can be read.
pub fn append_through<F: DiskFile>(
    files: &mut [F],
    thread: InstNo,
    at: u64,
    bytes: &[u8],
) -> Result<(), usize>
    requires thread { thread < length files.old }
    requires place { at + length bytes.now < 2 ^ 64 }
    ensures within { IfErr result (λ count. count ≤ length bytes.now) }
    ensures file { OnOk result (of_log F.calls files.new thread ≡ synced (Written at bytes.now) (of_log F.calls files.old thread)) }
    ensures others { (k : ℕ) → k ≢ thread → of_log F.calls files.new k ≡ of_log F.calls files.old k }
{
    let file = &mut files[usize::from(thread.0)];
    match write_through(file, at, bytes) {
        Ok(()) => Ok(()),
        Err(Failed) => Err(same_front(file, at, bytes)),
    }
}

/// Cuts the file of a thread's log to its first `len` bytes where it has more, and syncs its length. An `Err`
/// says whether the file is cut then, as far as it can be asked.
pub fn cut_log_through<F: DiskFile>(files: &mut [F], thread: InstNo, len: u64) -> Result<(), bool>
    requires { thread < length files.old }
    ensures file { OnOk result (of_log F.calls files.new thread ≡ synced (Cut len) (of_log F.calls files.old thread)) }
    ensures others { (k : ℕ) → k ≢ thread → of_log F.calls files.new k ≡ of_log F.calls files.old k }
{
    let file = &mut files[usize::from(thread.0)];
    match cut_through(file, len) {
        Ok(()) => Ok(()),
        Err(Failed) => Err(is_cut(file, len)),
    }
}
