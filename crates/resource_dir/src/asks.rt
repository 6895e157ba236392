//! What a master does with an Ask.

ghost use Rattle.std.specs.Prelude.{◌≡◌, ◌++◌, OnOk};
ghost use Rattle.std.specs.List.{flat_map};
ghost use Rattle.resource_dir.specs.Holders.{has_other_sharer};
ghost use Rattle.resource_dir.specs.Asks.{answer, ask, cleared, clearing, go_on, granted, granting, invalidates, invalidates_to, is_clear, read_beside, serve, shared_from, shipped_from, stepped_out, written_beside};

use crate::Outbox;
use crate::holders::{
    first_sharer, has_other_sharer, is_other_sharer, is_sharer, other_sharers, other_than,
};
use base_types::{BlockNo, InstNo, NoMemory};
use inst_set::{ALL_INSTS, InstSet};
use wire_net::{Entry, Grants, Holder, Message, Mode, Operation, Waiting};

// Takes an asker that holds nothing out of the holders.
fn step_out(entry: &mut Entry, asker: InstNo, held: Mode)
    ensures { entry.new ≡ stepped_out asker held entry.old }
{
    match held {
        Mode::Null => {
            entry.x = other_than(asker, &entry.x);
            entry.shared.set(asker, None);
        }
        Mode::Shared | Mode::Exclusive => {}
    }
}

// Begins an operation with a new grant.
fn begin(entry: &mut Entry, asker: InstNo, mode: Mode, held: Mode) -> u64
    ensures grant { result ≡ entry.old.next_grant }
    ensures entry { entry.new ≡ granting asker mode held entry.old }
{
    let grant = entry.next_grant;
    entry.op = Some(Operation {
        asker,
        mode,
        held,
        grant: Some(grant),
        waits: InstSet::new(),
    });
    entry.next_grant = grant.saturating_add(1);
    grant
}

// Gives the asker a new grant, for the disk's image or for the one that it has.
fn grant_to(
    entry: &mut Entry,
    block: BlockNo,
    asker: InstNo,
    mode: Mode,
    held: Mode,
    from_disk: bool,
    out: &mut Outbox,
) -> Result<(), NoMemory>
    ensures entry { OnOk result (entry.new ≡ (granted block asker mode held from_disk entry.old).entry) }
    ensures sends { OnOk result (out.new ≡ out.old ++ (granted block asker mode held from_disk entry.old).sends) }
{
    let grant = begin(entry, asker, mode, held);
    let message = Message::Grant {
        block,
        grant,
        mode,
        from_disk,
    };
    out.push((asker, message))
}

// Has the exclusive holder ship its image to the asker.
fn ship_from(
    holder: &Holder,
    entry: &mut Entry,
    block: BlockNo,
    asker: InstNo,
    held: Mode,
    out: &mut Outbox,
) -> Result<(), NoMemory>
    ensures entry { OnOk result (entry.new ≡ (shipped_from holder.now block asker held entry.old).entry) }
    ensures sends { OnOk result (out.new ≡ out.old ++ (shipped_from holder.now block asker held entry.old).sends) }
{
    let new_grant = begin(entry, asker, Mode::Exclusive, held);
    let message = Message::ShipTo {
        block,
        grant: holder.grant,
        new_grant,
        asker,
    };
    out.push((holder.inst, message))
}

// Has an instance that shares the block share it with the asker, or lets the asker read the disk.
fn share_from(
    sharer: Option<InstNo>,
    entry: &mut Entry,
    block: BlockNo,
    asker: InstNo,
    held: Mode,
    out: &mut Outbox,
) -> Result<(), NoMemory>
    ensures entry { OnOk result (entry.new ≡ (shared_from sharer block asker held entry.old).entry) }
    ensures sends { OnOk result (out.new ≡ out.old ++ (shared_from sharer block asker held entry.old).sends) }
{
    let Some(sharer) = sharer else {
        return grant_to(entry, block, asker, Mode::Shared, held, true, out);
    };
    let grant = entry.shared.get(sharer).unwrap_or(0);
    let new_grant = begin(entry, asker, Mode::Shared, held);
    let message = Message::ShareTo {
        block,
        grant,
        new_grant,
        asker,
    };
    out.push((sharer, message))
}

// Serves a reader.
fn serve_reader(
    entry: &mut Entry,
    block: BlockNo,
    asker: InstNo,
    held: Mode,
    out: &mut Outbox,
) -> Result<(), NoMemory>
    ensures entry { OnOk result (entry.new ≡ (serve Mode.Shared block asker held entry.old).entry) }
    ensures sends { OnOk result (out.new ≡ out.old ++ (serve Mode.Shared block asker held entry.old).sends) }
{
    match other_than(asker, &entry.x) {
        Some(holder) => {
            let message = Message::CopyTo {
                block,
                grant: holder.grant,
                reader: asker,
            };
            out.push((holder.inst, message))
        }
        None => share_from(first_sharer(&entry.shared), entry, block, asker, held, out),
    }
}

// Sends an Invalidate to each of these instances that shares the block and isn't the asker.
fn invalidate_each(
    insts: &[InstNo],
    block: BlockNo,
    asker: InstNo,
    shared: &Grants,
    out: &mut Outbox,
) -> Result<(), NoMemory>
    ensures { OnOk result (out.new ≡ out.old ++ flat_map (invalidates_to block asker shared.now) insts.now) }
{
    for inst in insts {
        if is_other_sharer(shared, asker, *inst) {
            let grant = shared.get(*inst).unwrap_or(0);
            out.push((*inst, Message::Invalidate { block, grant }))?;
        }
    }
    Ok(())
}

// Serves a writer where no other instance holds the block exclusively.
fn clear(
    entry: &mut Entry,
    block: BlockNo,
    asker: InstNo,
    held: Mode,
    out: &mut Outbox,
) -> Result<(), NoMemory>
    ensures entry { OnOk result (entry.new ≡ (cleared (has_other_sharer entry.old.shared asker) block asker held entry.old).entry) }
    ensures sends { OnOk result (out.new ≡ out.old ++ (cleared (has_other_sharer entry.old.shared asker) block asker held entry.old).sends) }
{
    if !has_other_sharer(&entry.shared, asker) {
        let from_disk = !is_sharer(&entry.shared, asker);
        return grant_to(entry, block, asker, Mode::Exclusive, held, from_disk, out);
    }
    entry.op = Some(Operation {
        asker,
        mode: Mode::Exclusive,
        held,
        grant: None,
        waits: other_sharers(&entry.shared, asker),
    });
    invalidate_each(&ALL_INSTS, block, asker, &entry.shared, out)
}

// Serves a writer.
fn serve_writer(
    entry: &mut Entry,
    block: BlockNo,
    asker: InstNo,
    held: Mode,
    out: &mut Outbox,
) -> Result<(), NoMemory>
    ensures entry { OnOk result (entry.new ≡ (serve Mode.Exclusive block asker held entry.old).entry) }
    ensures sends { OnOk result (out.new ≡ out.old ++ (serve Mode.Exclusive block asker held entry.old).sends) }
{
    match other_than(asker, &entry.x) {
        Some(holder) => ship_from(&holder, entry, block, asker, held, out),
        None => clear(entry, block, asker, held, out),
    }
}

/// Answers an Ask, no operation being under way.
pub fn answer(
    entry: &mut Entry,
    block: BlockNo,
    mode: Mode,
    held: Mode,
    asker: InstNo,
    out: &mut Outbox,
) -> Result<(), NoMemory>
    ensures entry { OnOk result (entry.new ≡ (answer block mode held asker entry.old).entry) }
    ensures sends { OnOk result (out.new ≡ out.old ++ (answer block mode held asker entry.old).sends) }
{
    step_out(entry, asker, held);
    match mode {
        Mode::Null => Ok(()),
        Mode::Shared => serve_reader(entry, block, asker, held, out),
        Mode::Exclusive => serve_writer(entry, block, asker, held, out),
    }
}

/// Answers an Ask, or lets it wait for the end of the operation that is under way.
pub fn ask(
    entry: &mut Entry,
    block: BlockNo,
    mode: Mode,
    held: Mode,
    asker: InstNo,
    out: &mut Outbox,
) -> Result<(), NoMemory>
    ensures entry { OnOk result (entry.new ≡ (ask block mode held asker entry.old).entry) }
    ensures sends { OnOk result (out.new ≡ out.old ++ (ask block mode held asker entry.old).sends) }
{
    match entry.op {
        Some(_) => entry.queue.push(Waiting::Ask {
            block,
            mode,
            held,
            asker,
        }),
        None => answer(entry, block, mode, held, asker, out),
    }
}

// Whether an operation waits for nobody and has no grant yet.
fn is_clear(op: &Operation) -> bool
    ensures { result ≡ is_clear op.now }
{
    op.grant.is_none() && op.waits.is_empty()
}

/// Lets the operation go on once it waits for nobody any more.
pub fn go_on(entry: &mut Entry, block: BlockNo, out: &mut Outbox) -> Result<(), NoMemory>
    ensures entry { OnOk result (entry.new ≡ (go_on block entry.old).entry) }
    ensures sends { OnOk result (out.new ≡ out.old ++ (go_on block entry.old).sends) }
{
    let Some(op) = entry.op else {
        return Ok(());
    };
    if !is_clear(&op) {
        return Ok(());
    }
    let from_disk = !is_sharer(&entry.shared, op.asker);
    grant_to(
        entry,
        block,
        op.asker,
        Mode::Exclusive,
        op.held,
        from_disk,
        out,
    )
}
