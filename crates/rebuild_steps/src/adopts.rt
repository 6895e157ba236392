//! The leader adopts the segments of instances that aren't there.

ghost use Rattle.std.specs.Prelude.{◌≡◌, ◌++◌, ◌<◌, All, IfErr, IfOk, OnOk, filter};
ghost use Rattle.base_types.specs.Layout.{IsLayout};
ghost use Rattle.redo_merge.specs.Merge.{sorted};
ghost use Rattle.rebuild_steps.specs.Adopt.{FailsToRead, ReadsEach, adopted, has_adopted, is_down_segment, is_to_adopt, seg_of, to_adopt};

use base_types::{InstNo, Layout, NoMemory};
use inst_set::ALL_INSTS;
use inst_state::{Core, Inst, Table};
use rac_disk::SharedDisk;
use std::alloc::Global;
use undo_segment::{LoadError, Segment};

fn seg_of(segment: &Segment) -> InstNo
    ensures { result ≡ seg_of segment.now }
{
    segment.header().seg()
}

// Whether the instance of a segment isn't there, or is this one, which has come in with nobody live.
fn is_down_segment(inst: &Inst, core: &Core, seg: InstNo) -> bool
    ensures { result ≡ is_down_segment inst.now core.now seg }
{
    !core.is_live(seg) || seg == inst.plan.me && core.recovery.former.has(seg)
}

fn has_adopted(adopted: &[Segment], seg: InstNo) -> bool
    ensures { result ≡ has_adopted adopted.now seg }
{
    adopted.iter().any(|segment| seg_of(segment) == seg)
}

fn is_to_adopt(inst: &Inst, core: &Core, seg: InstNo) -> bool
    ensures { result ≡ is_to_adopt inst.now core.now seg }
{
    seg.get() < inst.plan.layout.instances
        && is_down_segment(inst, core, seg)
        && !has_adopted(inst.leading.adopted.as_slice(), seg)
}

fn to_adopt_of(
    alloc: Global,
    inst: &Inst,
    core: &Core,
    insts: &[InstNo],
) -> Result<Vec<InstNo>, NoMemory>
    ensures { IfOk result (λ segs. segs.items ≡ filter (is_to_adopt inst.now core.now) insts.now) }
{
    let mut segs = Vec::new(alloc);
    for seg in insts {
        if is_to_adopt(inst, core, *seg) {
            segs.push(*seg)?;
        }
    }
    Ok(segs)
}

// The instances whose segments the leader is to adopt, ascending.
#[tactic(auto, unfolding(crate::specs::Adopt::to_adopt))]
pub(crate) fn to_adopt(alloc: Global, inst: &Inst, core: &Core) -> Result<Vec<InstNo>, NoMemory>
    ensures { IfOk result (λ segs. segs.items ≡ to_adopt inst.now core.now) }
{
    to_adopt_of(alloc, inst, core, &ALL_INSTS)
}

// Reads the segments of these instances, one behind the other.
pub(crate) fn read_segments<D: SharedDisk>(
    alloc: Global,
    layout: &Layout,
    segs: &[InstNo],
    disk: &mut D,
) -> Result<Vec<Segment>, LoadError>
    requires layout { IsLayout layout.now }
    requires in_range { All (λ seg. seg < layout.now.instances) segs.now }
    ensures ok { IfOk result (λ owns. ReadsEach layout.now segs.now owns.items (D.state disk.old) (D.state disk.new)) }
    ensures err { IfErr result (λ why. FailsToRead layout.now segs.now why (D.state disk.old) (D.state disk.new)) }
{
    let mut read = Vec::new(alloc);
    for seg in segs {
        let segment = Segment::load(alloc, layout, *seg, disk)?;
        read.push(segment)?;
    }
    Ok(read)
}

fn add(adopted: &mut Table<Segment>, read: Vec<Segment>) -> Result<(), NoMemory>
    ensures { OnOk result (adopted.new ≡ adopted.old ++ read.items) }
{
    for segment in read {
        adopted.push(segment)?;
    }
    Ok(())
}

fn sort_segments(alloc: Global, segments: &mut [Segment]) -> Result<(), NoMemory>
    ensures { OnOk result (segments.new ≡ sorted seg_of segments.old) }
{
    segments.sort_by_key(alloc, |segment| seg_of(segment).get())?;
    Ok(())
}

fn sort(alloc: Global, adopted: &mut Table<Segment>) -> Result<(), NoMemory>
    ensures { OnOk result (adopted.new ≡ sorted seg_of adopted.old) }
{
    sort_segments(alloc, adopted.as_mut_slice())
}

// Adopts segments that were read: the table of the adopted ones stays ascending.
pub(crate) fn adopt(
    alloc: Global,
    table: &mut Table<Segment>,
    read: Vec<Segment>,
) -> Result<(), NoMemory>
    ensures { OnOk result (table.new ≡ adopted table.old read.items) }
{
    add(table, read)?;
    sort(alloc, table)
}
