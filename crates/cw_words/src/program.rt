//! The definition that `clap` is given of the program.
ghost use Rattle.std.specs.Prelude.{◌≡◌, IfOk};
ghost use Rattle.clap.specs.Words.{app_of, rule_of};
ghost use Rattle.cw_words.specs.Program.{audit, drive, generating, named, offline, option, program, serving};
ghost use Rattle.cw_words.specs.Program.{value, with_shared};

use clap::{Arg, Command};
use std::alloc::{AllocError, Global};

// The option `--name`, with the value that stands where it isn't given.
fn option<'a>(alloc: Global, name: &'a str, default: &'a str) -> Arg<'a>
    ensures { rule_of result ≡ option name.entry.now default.entry.now }
{
    Arg::new(alloc, name).long(name).default_value(default)
}

// A value without a name, which has to be given.
fn value<'a>(alloc: Global, name: &'a str) -> Arg<'a>
    ensures { rule_of result ≡ value name.entry.now }
{
    Arg::new(alloc, name).required(true)
}

// A command with the options that every command takes.
fn with_shared<'a>(alloc: Global, command: Command<'a>) -> Result<Command<'a>, AllocError>
    ensures { IfOk result (λ r. app_of r ≡ with_shared (app_of command.entry)) }
{
    command
        .arg(option(alloc, "group", "connect-cluster"))?
        .arg(option(alloc, "delay", "300000"))
}

fn drive<'a>(alloc: Global) -> Result<Command<'a>, AllocError>
    ensures { IfOk result (λ r. app_of r ≡ drive) }
{
    with_shared(alloc, Command::new(alloc, "drive"))
}

fn audit<'a>(alloc: Global) -> Result<Command<'a>, AllocError>
    ensures { IfOk result (λ r. app_of r ≡ audit) }
{
    with_shared(alloc, Command::new(alloc, "audit"))
}

fn generating<'a>(alloc: Global) -> Result<Command<'a>, AllocError>
    ensures { IfOk result (λ r. app_of r ≡ generating) }
{
    with_shared(alloc, Command::new(alloc, "gen"))?
        .arg(value(alloc, "START"))?
        .arg(value(alloc, "COUNT"))
}

fn serving<'a>(alloc: Global) -> Result<Command<'a>, AllocError>
    ensures { IfOk result (λ r. app_of r ≡ serving) }
{
    with_shared(alloc, Command::new(alloc, "serve"))?
        .arg(option(alloc, "workers", "3"))?
        .arg(option(alloc, "runners", "2"))?
        .arg(option(alloc, "handlers", "4"))?
        .arg(option(alloc, "conns", "1000"))
}

fn named<'a>(alloc: Global) -> Command<'a>
    ensures { app_of result ≡ named }
{
    Command::new(alloc, "connect")
        .no_binary_name(true)
        .subcommand_required(true)
}

// The program with the subcommands that play a script, and that report on a stopped cluster.
fn offline<'a>(alloc: Global) -> Result<Command<'a>, AllocError>
    ensures { IfOk result (λ r. app_of r ≡ offline) }
{
    named(alloc)
        .subcommand(drive(alloc)?)?
        .subcommand(audit(alloc)?)
}

// The program with its subcommands.
pub(crate) fn program<'a>(alloc: Global) -> Result<Command<'a>, AllocError>
    ensures { IfOk result (λ r. app_of r ≡ program) }
{
    offline(alloc)?
        .subcommand(generating(alloc)?)?
        .subcommand(serving(alloc)?)
}
