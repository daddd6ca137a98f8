//! The command line as `clap` has it.
ghost use Rattle.std.specs.Prelude.{◌≡◌, IfOk};
ghost use Rattle.clap.specs.Words.{app_of};
ghost use Rattle.nb_cli.specs.Program.{IsApp, make_words, program as program_words, run_words, upgrade_words, workers_words};

use clap::{Arg, Command};
use std::alloc::{AllocError, Global};

/// The program's subcommands with the texts behind them, and no help, version or inference.
pub fn program<'a>(alloc: Global) -> Result<Command<'a>, AllocError>
    ensures { IfOk result (λ command. app_of command ≡ program_words) }
{
    let bare = Command::new(alloc, "notebook")
        .no_binary_name(true)
        .disable_help_flag(true)
        .disable_help_subcommand(true)
        .disable_version_flag(true)
        .subcommand_required(true);
    Ok(
        bare.subcommand(run(alloc)?)?
            .subcommand(workers(alloc)?)?
            .subcommand(make(alloc)?)?
            .subcommand(upgrade(alloc)?)?,
    )
}

fn run<'a>(alloc: Global) -> Result<Command<'a>, AllocError>
    ensures { IfOk result (IsApp run_words) }
{
    let file = Arg::new(alloc, "file");
    Command::new(alloc, "run").arg(file)
}

fn workers<'a>(alloc: Global) -> Result<Command<'a>, AllocError>
    ensures { IfOk result (IsApp workers_words) }
{
    let count = Arg::new(alloc, "count").required(true);
    let file = Arg::new(alloc, "file");
    Command::new(alloc, "workers").arg(count)?.arg(file)
}

fn make<'a>(alloc: Global) -> Result<Command<'a>, AllocError>
    ensures { IfOk result (IsApp make_words) }
{
    let count = Arg::new(alloc, "count").required(true);
    let seed = Arg::new(alloc, "seed").required(true);
    Command::new(alloc, "make").arg(count)?.arg(seed)
}

fn upgrade<'a>(alloc: Global) -> Result<Command<'a>, AllocError>
    ensures { IfOk result (IsApp upgrade_words) }
{
    let file = Arg::new(alloc, "file").required(true);
    Command::new(alloc, "upgrade").arg(file)
}
