//! A database is made anew on a disk.

ghost use Rattle.std.specs.Prelude.{◌≡◌, ◌<◌, ◌++◌};
ghost use Rattle.base_types.specs.Layout.{IsLayout, total_of};
ghost use Rattle.disk_calls.specs.Calls.{WritesBlockAs, WritesControlAs};
ghost use Rattle.rac_disk.specs.State.{WhereTold};
ghost use Rattle.first_state.specs.Create.{CountsFaults, LeavesNew, MakesEach, creation, empties, entry_bytes_of, first_block, first_entry, first_status, for_each, puts_block, puts_entry, segment_block};

use base_types::{BlockNo, InstNo, Layout, RedoAt, Scn};
use block_image::DataBlock;
use control_image::{ControlEntry, ThreadStatus};
use disk_calls::{Written, cut_log, write_block, write_control};
use rac_disk::SharedDisk;
use undo_image::{UndoBlock, UndoHeader};

/// How the creation of a database went.
#[derive(Clone, Copy, Debug, PartialEq, Eq)]
pub enum Created {
    /// All calls were done.
    Whole,
    /// A call failed, and none was made after it.
    Failed,
}

fn put_segment_block(number: BlockNo, seg: InstNo, place: u16, out: &mut [u8; 512])
    ensures { out.new ≡ segment_block number seg place }
{
    if place == 0 {
        UndoHeader::empty(number, seg).write(out);
    } else {
        UndoBlock::empty(number, seg).write(out);
    }
}

// Puts the bytes of a block of a new database.
#[tactic(auto, using(crate::proofs::Made::quotient_fits))]
fn put_first(layout: &Layout, number: BlockNo, out: &mut [u8; 512])
    requires layout { IsLayout layout.now }
    requires number { number < 200 }
    ensures { out.new ≡ first_block layout.now number }
{
    if number.get() < layout.blocks {
        DataBlock::empty(number).write(out);
    } else {
        let place = number.get() - layout.blocks;
        let length = 1 + layout.undo / 4;
        put_segment_block(number, InstNo((place / length) as u8), place % length, out);
    }
}

fn first_status(layout: &Layout, thread: u8) -> ThreadStatus
    ensures { result ≡ first_status layout.now thread }
{
    if thread < layout.instances {
        ThreadStatus::Running
    } else {
        ThreadStatus::Closed
    }
}

fn first_entry(layout: &Layout, thread: u8) -> ControlEntry
    ensures { result ≡ first_entry layout.now thread }
{
    ControlEntry {
        status: first_status(layout, thread),
        position: RedoAt(0),
        highest_scn: Scn(0),
        highest_end_scn: Scn(0),
    }
}

fn empty_logs<D: SharedDisk>(disk: &mut D) -> Created
    ensures { MakesEach (for_each empties 8) result (D.state disk.old) (D.state disk.new) }
{
    for thread in 0..8u8 {
        match cut_log(disk, InstNo(thread), 0) {
            Written::Done => {}
            Written::Failed => return Created::Failed,
        }
    }
    Created::Whole
}

fn write_first<D: SharedDisk>(layout: &Layout, number: BlockNo, disk: &mut D) -> Written
    requires layout { IsLayout layout.now }
    requires number { number < 200 }
    ensures { WritesBlockAs number (first_block layout.now number) result (D.state disk.old) (D.state disk.new) }
{
    let mut bytes = [0; 512];
    put_first(layout, number, &mut bytes);
    write_block(disk, number, &bytes)
}

fn write_blocks<D: SharedDisk>(layout: &Layout, disk: &mut D) -> Created
    requires { IsLayout layout.now }
    ensures { MakesEach (for_each (puts_block layout.now) (total_of layout.now)) result (D.state disk.old) (D.state disk.new) }
{
    for number in 0..layout.total() {
        match write_first(layout, BlockNo(number), disk) {
            Written::Done => {}
            Written::Failed => return Created::Failed,
        }
    }
    Created::Whole
}

// The bytes of the control entry of a thread in which nothing was recorded.
#[tactic(auto, unfolding(crate::specs::Create::entry_bytes_of))]
fn entry_bytes(layout: &Layout, thread: u8) -> [u8; 32]
    ensures { result ≡ entry_bytes_of layout.now thread }
{
    first_entry(layout, thread).write()
}

fn write_entry<D: SharedDisk>(layout: &Layout, thread: InstNo, disk: &mut D) -> Written
    requires { thread < 8 }
    ensures { WritesControlAs thread (entry_bytes_of layout.now thread) result (D.state disk.old) (D.state disk.new) }
{
    write_control(disk, thread, &entry_bytes(layout, thread.get()))
}

fn write_entries<D: SharedDisk>(layout: &Layout, disk: &mut D) -> Created
    ensures { MakesEach (for_each (puts_entry layout.now) 8) result (D.state disk.old) (D.state disk.new) }
{
    for thread in 0..8u8 {
        match write_entry(layout, InstNo(thread), disk) {
            Written::Done => {}
            Written::Failed => return Created::Failed,
        }
    }
    Created::Whole
}

// Writes the control entries, if the blocks are written.
fn go_on<D: SharedDisk>(layout: &Layout, disk: &mut D) -> Created
    requires { IsLayout layout.now }
    ensures { MakesEach (for_each (puts_block layout.now) (total_of layout.now) ++ for_each (puts_entry layout.now) 8) result (D.state disk.old) (D.state disk.new) }
{
    match write_blocks(layout, disk) {
        Created::Whole => write_entries(layout, disk),
        Created::Failed => Created::Failed,
    }
}

// The calls of a creation.
fn make<D: SharedDisk>(layout: &Layout, disk: &mut D) -> Created
    requires { IsLayout layout.now }
    ensures { MakesEach (creation layout.now) result (D.state disk.old) (D.state disk.new) }
{
    match empty_logs(disk) {
        Created::Whole => go_on(layout, disk),
        Created::Failed => Created::Failed,
    }
}

/// Makes a database anew: all logs are empty, no row and no undo record was ever written, and the threads of the instances
/// are in use. A call that fails ends it.
#[tactic(auto, using(crate::proofs::Holds::counts_faults, crate::proofs::Holds::leaves_new))]
pub fn create<D: SharedDisk>(layout: &Layout, disk: &mut D) -> Created
    requires { IsLayout layout.now }
    ensures calls { MakesEach (creation layout.now) result (D.state disk.old) (D.state disk.new) }
    ensures disk { WhereTold (D.state disk.old).told (D.state disk.new).told (LeavesNew layout.now result) }
    ensures counts { CountsFaults result (D.state disk.old) (D.state disk.new) }
{
    make(layout, disk)
}
