//! The words for what is to be seen of a step.

use crate::shapes::Look;
use crate::turns::Sign;
use base_types::NoMemory;
use std::alloc::Global;

/// What a step says, and how it looks.
#[derive(Debug, Drop)]
pub(crate) struct Words {
    pub look: Look,
    pub text: String,
}

/// A block that comes and goes.
fn block_words(alloc: Global, sign: &Sign) -> Result<Option<Words>, NoMemory> {
    let text = match sign {
        Sign::Asks { block } => {
            let block = block.get();
            format!(in alloc; "asks for block {block}")?
        }
        Sign::Holds { block } => {
            let block = block.get();
            format!(in alloc; "holds block {block}")?
        }
        Sign::Ships {
            block,
            version,
            to,
            keeps_past,
        } => {
            let block = block.get();
            let to = to.get();
            let past = if *keeps_past {
                ", keeps a past image"
            } else {
                ""
            };
            format!(in alloc; "ships block {block} v{version} to {to}{past}")?
        }
        Sign::Gets {
            block,
            version,
            from,
        } => {
            let block = block.get();
            let from = from.get();
            format!(in alloc; "block {block} v{version} from {from}")?
        }
        Sign::GivesUp { block } => {
            let block = block.get();
            format!(in alloc; "gives up block {block}")?
        }
        _ => return Ok(None),
    };
    Ok(Some(Words {
        look: Look::BlockWords,
        text,
    }))
}

/// A copy or a past image that comes and goes.
fn copy_words(alloc: Global, sign: &Sign) -> Result<Option<Words>, NoMemory> {
    let text = match sign {
        Sign::Serves { block, version, to } => {
            let block = block.get();
            let to = to.get();
            format!(in alloc; "copies block {block} v{version} to {to}")?
        }
        Sign::GetsCopy {
            block,
            version,
            from,
        } => {
            let block = block.get();
            let from = from.get();
            format!(in alloc; "copy of block {block} v{version} from {from}")?
        }
        Sign::GivesPast { block } => {
            let block = block.get();
            format!(in alloc; "hands over its past image of block {block}")?
        }
        Sign::DropsPast { block, version } => {
            let block = block.get();
            format!(in alloc; "drops past images of block {block} to v{version}")?
        }
        _ => return Ok(None),
    };
    Ok(Some(Words {
        look: Look::CopyWords,
        text,
    }))
}

/// What goes to the disk.
fn redo_words(alloc: Global, sign: &Sign) -> Result<Option<Words>, NoMemory> {
    let text = match sign {
        Sign::Forces => String::from_str(alloc, "forces its redo")?,
        Sign::Writes { block } => {
            let block = block.get();
            format!(in alloc; "writes block {block}")?
        }
        Sign::AsksWrite { block } => {
            let block = block.get();
            format!(in alloc; "wants block {block} written")?
        }
        _ => return Ok(None),
    };
    Ok(Some(Words {
        look: Look::RedoWords,
        text,
    }))
}

/// A phase of recovery.
fn recovery_words(alloc: Global, sign: &Sign) -> Result<Option<Words>, NoMemory> {
    let text = match sign {
        Sign::Reports => String::from_str(alloc, "reports what it holds, and pauses")?,
        Sign::ReadsThread { thread } => {
            let thread = thread.get();
            format!(in alloc; "reads the redo of {thread}")?
        }
        Sign::Recovers { block } => {
            let block = block.get();
            format!(in alloc; "rolls block {block} forward, writes it")?
        }
        Sign::ClosesThread { thread } => {
            let thread = thread.get();
            format!(in alloc; "closes the thread of {thread}")?
        }
        Sign::Thaws => String::from_str(alloc, "makes the directories anew")?,
        Sign::Reopens => String::from_str(alloc, "ends the recovery")?,
        Sign::Resumes => String::from_str(alloc, "goes on")?,
        Sign::Joins => String::from_str(alloc, "joins")?,
        _ => return Ok(None),
    };
    Ok(Some(Words {
        look: Look::RecoveryWords,
        text,
    }))
}

/// The words for what is to be seen of a step; `None` where its entries say all.
pub(crate) fn sign_words(alloc: Global, sign: &Sign) -> Result<Option<Words>, NoMemory> {
    match sign {
        Sign::Plain | Sign::Wave => Ok(None),
        Sign::Asks { .. }
        | Sign::Holds { .. }
        | Sign::Ships { .. }
        | Sign::Gets { .. }
        | Sign::GivesUp { .. } => block_words(alloc, sign),
        Sign::Serves { .. }
        | Sign::GetsCopy { .. }
        | Sign::GivesPast { .. }
        | Sign::DropsPast { .. } => copy_words(alloc, sign),
        Sign::Forces | Sign::Writes { .. } | Sign::AsksWrite { .. } => redo_words(alloc, sign),
        _ => recovery_words(alloc, sign),
    }
}
