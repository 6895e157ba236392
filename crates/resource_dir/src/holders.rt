//! Who holds a block, by its entry.

ghost use Rattle.std.specs.Prelude.{◌≡◌};
ghost use Rattle.resource_dir.specs.Holders.{first_sharer, has_other_sharer, is_granting, is_number, is_other_sharer, is_sharer, other_sharers, other_than, sharer_under, taken_out, under_other, unshared, unwaited};

use base_types::InstNo;
use inst_set::{ALL_INSTS, InstSet};
use wire_net::{Entry, Grants, Holder, Operation};

/// Whether a number is there and is this one.
pub fn is_number(known: Option<u64>, number: u64) -> bool
    ensures { result ≡ is_number known number }
{
    match known {
        Some(other) => other == number,
        None => false,
    }
}

/// The exclusive holder, if it is another than this instance.
pub fn other_than(inst: InstNo, x: &Option<Holder>) -> Option<Holder>
    ensures { result ≡ other_than inst x.now }
{
    match x {
        Some(holder) => {
            if holder.inst.get() == inst.get() {
                None
            } else {
                Some(*holder)
            }
        }
        None => None,
    }
}

// The exclusive holder, if its grant is another one.
fn under_other(grant: u64, x: &Option<Holder>) -> Option<Holder>
    ensures { result ≡ under_other grant x.now }
{
    match x {
        Some(holder) => {
            if holder.grant == grant {
                None
            } else {
                Some(*holder)
            }
        }
        None => None,
    }
}

/// Whether an instance shares the block.
pub fn is_sharer(shared: &Grants, inst: InstNo) -> bool
    ensures { result ≡ is_sharer shared.now inst }
{
    shared.get(inst).is_some()
}

// The lowest instance that shares the block under a grant.
fn sharer_under(shared: &Grants, grant: u64) -> Option<InstNo>
    ensures { result ≡ sharer_under shared.now grant }
{
    ALL_INSTS
        .iter()
        .copied()
        .find(|inst| is_number(shared.get(*inst), grant))
}

/// The lowest instance that shares the block.
pub fn first_sharer(shared: &Grants) -> Option<InstNo>
    ensures { result ≡ first_sharer shared.now }
{
    ALL_INSTS
        .iter()
        .copied()
        .find(|inst| is_sharer(shared, *inst))
}

/// Whether an instance is another one than the asker and shares the block.
pub fn is_other_sharer(shared: &Grants, asker: InstNo, inst: InstNo) -> bool
    ensures { result ≡ is_other_sharer shared.now asker inst }
{
    is_sharer(shared, inst) && inst.get() != asker.get()
}

/// Whether another instance than the asker shares the block.
pub fn has_other_sharer(shared: &Grants, asker: InstNo) -> bool
    ensures { result ≡ has_other_sharer shared.now asker }
{
    ALL_INSTS
        .iter()
        .any(|inst| is_other_sharer(shared, asker, *inst))
}

/// All instances but the asker that share the block.
pub fn other_sharers(shared: &Grants, asker: InstNo) -> InstSet
    ensures { result ≡ other_sharers shared.now asker }
{
    let is = |inst: u8| is_other_sharer(shared, asker, InstNo(inst));
    InstSet::from_array([is(0), is(1), is(2), is(3), is(4), is(5), is(6), is(7)])
}

// The operation without an instance among those for which it waits.
fn unwaited(op: &Option<Operation>, inst: &Option<InstNo>) -> Option<Operation>
    ensures { result ≡ unwaited op.now inst.now }
{
    let Some(op) = op else {
        return None;
    };
    let mut after = *op;
    if let Some(inst) = inst {
        after.waits.remove(*inst);
    }
    Some(after)
}

// Takes the grant of an instance away, if one is named.
fn unshare(shared: &mut Grants, inst: &Option<InstNo>)
    ensures { shared.new ≡ unshared shared.old inst.now }
{
    if let Some(inst) = inst {
        shared.set(*inst, None);
    }
}

/// Takes the holder of a grant out, so that the operation doesn't wait for it any more.
pub fn take_out(entry: &mut Entry, grant: u64)
    ensures { entry.new ≡ taken_out grant entry.old }
{
    let sharer = sharer_under(&entry.shared, grant);
    entry.x = under_other(grant, &entry.x);
    entry.op = unwaited(&entry.op, &sharer);
    unshare(&mut entry.shared, &sharer);
}

/// Whether an operation is under way for which this new grant was drawn.
pub fn is_granting(op: &Option<Operation>, grant: u64) -> bool
    ensures { result ≡ is_granting op.now grant }
{
    match op {
        Some(op) => is_number(op.grant, grant),
        None => false,
    }
}
