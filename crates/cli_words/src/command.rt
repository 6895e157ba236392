ghost use Rattle.std.specs.Prelude.{◌≡◌, IfOk, false};
ghost use Rattle.clap.specs.Words.{app_of, rule_of};
ghost use Rattle.cli_words.specs.Command.{disk_rule, flag_rule, place_rule, rac_app};

use clap::{Arg, ArgAction, Command};
use std::alloc::{AllocError, Global};

/// The command that `specs/Command.antt` describes.
pub(crate) fn rac_command<'a>(alloc: Global) -> Result<Command<'a>, AllocError>
    ensures { IfOk result (λ command. app_of command ≡ rac_app) }
{
    let run = Command::new(alloc, "run")
        .arg(flag(alloc, "journal"))?
        .arg(flag(alloc, "steps"))?
        .arg(flag(alloc, "check"))?
        .arg(disk(alloc, false))?;
    let load = Command::new(alloc, "load")
        .arg(place(alloc, "seed"))?
        .arg(place(alloc, "rounds"))?
        .arg(disk(alloc, false))?;
    let audit = Command::new(alloc, "audit").arg(disk(alloc, true))?;
    Command::new(alloc, "rac")
        .no_binary_name(true)
        .disable_help_flag(true)
        .disable_help_subcommand(true)
        .subcommand_required(true)
        .subcommand(run)?
        .subcommand(load)?
        .subcommand(audit)
}

fn flag<'a>(alloc: Global, name: &'a str) -> Arg<'a>
    ensures rule { rule_of result ≡ flag_rule name.now }
    ensures local { result.global ≡ false }
{
    Arg::new(alloc, name).long(name).action(ArgAction::SetTrue)
}

fn place<'a>(alloc: Global, name: &'a str) -> Arg<'a>
    ensures rule { rule_of result ≡ place_rule name.now }
    ensures local { result.global ≡ false }
{
    Arg::new(alloc, name).required(true)
}

fn disk<'a>(alloc: Global, is_required: bool) -> Arg<'a>
    ensures rule { rule_of result ≡ disk_rule is_required }
    ensures local { result.global ≡ false }
{
    Arg::new(alloc, "disk").long("disk").required(is_required)
}
