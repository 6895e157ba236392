//! The control lines of the waves.

ghost use Rattle.std.specs.Prelude.{◌≡◌, ◌++◌, IfOk, OnOk};
ghost use Rattle.first_state.specs.Controls.{controls_at, controls_in, controls_of, open_line};

use base_types::NoMemory;
use inst_state::{Control, Table, Wanted, When};
use script_text::{Item, Wave};
use std::alloc::Global;

fn open_line(line: u32, wanted: Wanted) -> Control
    ensures { result ≡ open_line line wanted }
{
    Control {
        line,
        wanted,
        done: false,
    }
}

// Adds the control line that an item is.
fn add_control(line: &(u32, Item), controls: &mut Table<Control>) -> Result<(), NoMemory>
    ensures { OnOk result (controls.new ≡ controls.old ++ controls_at line.now) }
{
    let wanted = match &line.1 {
        Item::CrashAfter { inst, steps, keep } => Wanted::Crash {
            inst: *inst,
            when: When::After(u64::from(*steps)),
            keep: *keep,
        },
        Item::CrashMark { inst, keep } => Wanted::Crash {
            inst: *inst,
            when: When::AtMark,
            keep: *keep,
        },
        Item::Start { inst } => Wanted::Start { inst: *inst },
        Item::Remaster { bucket, to } => Wanted::Move {
            bucket: *bucket,
            to: *to,
        },
        Item::Checkpoint { inst } => Wanted::Checkpoint { inst: *inst },
        _ => return Ok(()),
    };
    controls.push(open_line(line.0, wanted))
}

fn controls_in(alloc: Global, wave: &[(u32, Item)]) -> Result<Table<Control>, NoMemory>
    ensures { IfOk result (λ controls. controls ≡ controls_in wave.now) }
{
    let mut controls = Table::new(alloc);
    for line in wave {
        add_control(line, &mut controls)?;
    }
    Ok(controls)
}

/// The control lines of each wave.
pub(crate) fn controls_of(alloc: Global, waves: &[Wave]) -> Result<Table<Table<Control>>, NoMemory>
    ensures { IfOk result (λ controls. controls ≡ controls_of waves.now) }
{
    let mut controls = Table::new(alloc);
    for wave in waves {
        let own = controls_in(alloc, wave.as_slice())?;
        controls.push(own)?;
    }
    Ok(controls)
}
