//! A current image is installed.

ghost use Rattle.std.specs.Prelude.{◌≡◌, ◌<◌, ◌≤◌, IfOk, OnOk, Some, None};
ghost use Rattle.std.specs.Option.{option_copied};
ghost use Rattle.wire_net.specs.declared.message.Lane.TheVariants.{Main};
ghost use Rattle.wire_net.specs.declared.message.Message.TheVariants.{Grant};
ghost use Rattle.buffer_cache.specs.Cache.{place_at};
ghost use Rattle.image_steps.specs.Hear.{first_message};
ghost use Rattle.disk_steps.specs.Install.{GaveAs, InstallsAs, brings_image, done_sent, granted, grant_told, granted_core, granted_from_disk, image_installed, install_told, may_install, mode_of, with_image};

use base_types::{BlockNo, InstNo, NoMemory};
use block_image::DataBlock;
use disk_calls::{ReadData, load_data};
use image_steps::{drop_came, first_message, hear, send_to_master};
use inst_loss::{Loss, lose};
use inst_state::{Core, Inst};
use rac_disk::SharedDisk;
use std::alloc::Global;
use std::snapshot::Snapshot;
use undo_segment::LoadError;
use wire_net::{Lane, Message, Mode, PastHolder, Shipment};

/// How an Install went.
#[derive(Drop)]
pub enum Installed {
    /// It made no call of the disk.
    Calm,
    /// It read the block from the disk.
    Read(ReadData),
}

fn brings_image(message: Option<&Message>) -> bool
    ensures { result ≡ brings_image (option_copied message.entry) }
{
    match message {
        Some(Message::Shipped(_)) => true,
        Some(Message::Grant { .. }) => true,
        _ => false,
    }
}

/// Whether a current image may be installed: a message that brings or grants it is first on the link from an instance.
pub fn may_install(inst: &Inst, core: &Core, from: InstNo) -> bool
    ensures { result ≡ may_install inst.now core.now from }
{
    brings_image(first_message(inst, core, from, Lane::Main))
}

fn send_done(
    inst: &Inst,
    core: &mut Core,
    block: BlockNo,
    grant: u64,
    mode: Mode,
    past: Option<PastHolder>,
) -> Result<(), NoMemory>
    ensures { OnOk result (core.new ≡ done_sent inst.now core.old block grant mode past) }
{
    let message = Message::Done {
        block,
        grant,
        mode,
        past,
    };
    send_to_master(inst, core, block, message)
}

fn mode_of(shipment: &Shipment) -> Mode
    ensures { result ≡ mode_of shipment.now }
{
    if shipment.shared {
        Mode::Shared
    } else {
        Mode::Exclusive
    }
}

fn install_shipped(inst: &mut Inst, core: &mut Core, shipment: Shipment) -> Result<(), NoMemory>
    ensures part { OnOk result (inst.new ≡ with_image inst.old shipment.block (Some (shipped shipment))) }
    ensures core { OnOk result (core.new ≡ done_sent inst.old core.old shipment.block shipment.grant (mode_of shipment) shipment.past) }
{
    let block = shipment.block;
    let grant = shipment.grant;
    let past = shipment.past;
    let mode = mode_of(&shipment);
    send_done(inst, core, block, grant, mode, past)?;
    inst.cache.install(shipment);
    drop_came(inst, block);
    Ok(())
}

ghost use Rattle.buffer_cache.specs.Place.{read_from_disk, shipped, upgraded};
ghost use Rattle.std.specs.Option.{option_map};

fn install_held(
    inst: &mut Inst,
    core: &mut Core,
    block: BlockNo,
    grant: u64,
    mode: Mode,
) -> Result<(), NoMemory>
    ensures part { OnOk result (inst.new ≡ with_image inst.old block (option_map (upgraded grant) (place_at inst.old.cache block).current)) }
    ensures core { OnOk result (core.new ≡ done_sent inst.old core.old block grant mode None) }
{
    send_done(inst, core, block, grant, mode, None)?;
    inst.cache.install_held(block, grant);
    drop_came(inst, block);
    Ok(())
}

fn install_image(
    inst: &mut Inst,
    core: &mut Core,
    block: BlockNo,
    grant: u64,
    mode: Mode,
    image: DataBlock,
) -> Result<(), NoMemory>
    ensures part { OnOk result (inst.new ≡ with_image inst.old block (Some (read_from_disk grant mode image))) }
    ensures core { OnOk result (core.new ≡ done_sent inst.old core.old block grant mode None) }
{
    send_done(inst, core, block, grant, mode, None)?;
    inst.cache.install_read(block, grant, mode, image);
    drop_came(inst, block);
    Ok(())
}

// The disk's image of a block is installed. Where it can't be read, or is no block that a run leaves there, the instance ends.
fn install_read<D: SharedDisk>(
    alloc: Global,
    inst: &mut Inst,
    core: &mut Core,
    disk: &mut D,
    block: BlockNo,
    grant: u64,
    mode: Mode,
) -> Result<Installed, NoMemory>
    ensures part { IfOk result (λ how. inst.new ≡ granted_from_disk inst.old block grant mode how) }
    ensures core { IfOk result (λ how. core.new ≡ granted_core inst.old core.old block grant mode how) }
    ensures disk { IfOk result (λ how. InstallsAs (Some (Grant block grant mode true)) how (D.state disk.old) (D.state disk.new)) }
{
    if block.get() >= 64 {
        lose(alloc, inst, core, Loss::Ended { bad: true }, Some(0))?;
        return Ok(Installed::Calm);
    }
    match load_data(block, disk) {
        Ok(image) => {
            let seen = Snapshot::of(&image);
            install_image(inst, core, block, grant, mode, image)?;
            Ok(Installed::Read(ReadData::Image(seen)))
        }
        Err(LoadError::Failed) => {
            lose(alloc, inst, core, Loss::Ended { bad: false }, Some(0))?;
            Ok(Installed::Read(ReadData::Failed))
        }
        Err(LoadError::Bad { .. }) => {
            lose(alloc, inst, core, Loss::Ended { bad: true }, Some(0))?;
            Ok(Installed::Read(ReadData::Bad))
        }
        Err(LoadError::NoMemory) => Err(NoMemory),
    }
}

ghost use Rattle.std.specs.Prelude.{true};

fn install_granted<D: SharedDisk>(
    alloc: Global,
    inst: &mut Inst,
    core: &mut Core,
    disk: &mut D,
    block: BlockNo,
    grant: u64,
    mode: Mode,
    from_disk: bool,
) -> Result<Installed, NoMemory>
    ensures part { IfOk result (λ how. inst.new ≡ granted inst.old block grant mode from_disk how) }
    ensures core { IfOk result (λ how. core.new ≡ grant_told inst.old core.old block grant mode from_disk how) }
    ensures disk { IfOk result (λ how. InstallsAs (Some (Grant block grant mode from_disk)) how (D.state disk.old) (D.state disk.new)) }
{
    if from_disk {
        install_read(alloc, inst, core, disk, block, grant, mode)
    } else {
        install_held(inst, core, block, grant, mode)?;
        Ok(Installed::Calm)
    }
}

fn install_message<D: SharedDisk>(
    alloc: Global,
    inst: &mut Inst,
    core: &mut Core,
    disk: &mut D,
    message: Message,
) -> Result<Installed, NoMemory>
    ensures part { IfOk result (λ how. inst.new ≡ brought inst.old (Some message) how) }
    ensures core { IfOk result (λ how. core.new ≡ brought_core inst.old core.old (Some message) how) }
    ensures disk { IfOk result (λ how. InstallsAs (Some message) how (D.state disk.old) (D.state disk.new)) }
{
    let Message::Shipped(shipment) = message else {
        let Message::Grant {
            block,
            grant,
            mode,
            from_disk,
        } = message
        else {
            return Ok(Installed::Calm);
        };
        return install_granted(alloc, inst, core, disk, block, grant, mode, from_disk);
    };
    install_shipped(inst, core, shipment)?;
    Ok(Installed::Calm)
}

ghost use Rattle.disk_steps.specs.Install.{brought, brought_core};

/// The current image that is first on the link from an instance is installed, or the block that is granted there: as it is
/// held, or with the disk's image. Where that can't be read the instance ends.
///
/// # Errors
///
/// There is no memory for the message to the master or for the journal's entries.
pub fn install<D: SharedDisk>(
    alloc: Global,
    inst: &mut Inst,
    from: InstNo,
    core: &mut Core,
    disk: &mut D,
) -> Result<Installed, NoMemory>
    ensures part { IfOk result (λ how. inst.new ≡ image_installed inst.old core.old from how) }
    ensures core { IfOk result (λ how. core.new ≡ install_told inst.old core.old from how) }
    ensures disk { IfOk result (λ how. InstallsAs (first_message inst.old core.old from Main) how (D.state disk.old) (D.state disk.new)) }
{
    let Some(packet) = hear(inst, core, from, Lane::Main) else {
        return Ok(Installed::Calm);
    };
    install_message(alloc, inst, core, disk, packet.message)
}
