//! Words are read.
ghost use Rattle.std.specs.Prelude.{◌≡◌, ◌≢◌, ◌≤◌, None, Some, Err, IfOk, IfSome, map, option_map, string_bytes};
ghost use Rattle.clap.specs.Words.{first_of, found_of, kind_of, rows_of, subcommand_rows_of};
ghost use Rattle.cw_types.specs.Answers.{Gives};
ghost use Rattle.cw_words.specs.Asked.{IsInRange, command_in, command_of, name_in, number_between, number_in};
ghost use Rattle.cw_words.specs.Asked.{gen_options_of, numbered_command_named, options_of, or_usage, script_of};
ghost use Rattle.cw_words.specs.Asked.{serve_options_of, sizes_of};

use crate::command::{Command, GenOptions, Options, ServeOptions, WordsFault};
use crate::program::program;
use clap::ArgMatches;
use clap::error::ErrorKind;
use cw_types::{Memory, Name, read_u64};
use std::alloc::Global;

// The value that an option has.
fn value_in<'a>(found: &ArgMatches<'a>, id: &str) -> Option<&'a str>
    ensures { option_map (λ s. s.now) result ≡ first_of id.now (rows_of (found_of found.now)) }
{
    found.get_str(id)
}

// The name that an option's value is, or none.
fn name_in(alloc: Global, found: &ArgMatches<'_>, id: &str) -> Result<Option<Name>, Memory>
    ensures { IfOk result (λ name. name ≡ name_in id.now (rows_of (found_of found.now))) }
{
    match value_in(found, id) {
        Some(text) => Name::from_bytes(alloc, text.as_bytes()),
        None => Ok(None),
    }
}

// The number that a text is, where it is in a range.
fn number_between(text: &str, least: u64, most: u64) -> Option<u64>
    ensures number { result ≡ number_between least most text.now }
    ensures most { IfSome result (λ n. n ≤ most) }
{
    let number = read_u64(text.as_bytes())?;
    if least <= number && number <= most {
        Some(number)
    } else {
        None
    }
}

// The number that an option's value is, where it is in a range.
fn number_in(found: &ArgMatches<'_>, id: &str, least: u64, most: u64) -> Option<u64>
    ensures number { result ≡ number_in least most id.now (rows_of (found_of found.now)) }
    ensures most { IfSome result (λ n. n ≤ most) }
{
    number_between(value_in(found, id)?, least, most)
}

// What every command takes, by the values that were found.
fn options_in(alloc: Global, found: &ArgMatches<'_>) -> Result<Options, WordsFault>
    ensures { Gives WordsFault.Memory result (or_usage (options_of (rows_of (found_of found.now)))) }
{
    let Some(group) = name_in(alloc, found, "group")? else {
        return Err(WordsFault::Usage);
    };
    let Some(delay) = number_in(found, "delay", 0, 1 << 40) else {
        return Err(WordsFault::Usage);
    };
    Ok(Options { group, delay })
}

// Which script is to be made, by the values that were found.
fn script_in(shared: Options, found: &ArgMatches<'_>) -> Option<GenOptions>
    ensures { result ≡ script_of shared (rows_of (found_of found.now)) }
{
    let start = number_in(found, "START", 0, u64::MAX)?;
    let count = number_in(found, "COUNT", 1, 1_000_000)?;
    Some(GenOptions {
        start,
        count,
        shared,
    })
}

// What `gen` takes, by the values that were found.
fn gen_options_in(alloc: Global, found: &ArgMatches<'_>) -> Result<GenOptions, WordsFault>
    ensures { Gives WordsFault.Memory result (or_usage (gen_options_of (rows_of (found_of found.now)))) }
{
    let shared = options_in(alloc, found)?;
    script_in(shared, found).ok_or(WordsFault::Usage)
}

// How many there are to be of something, from 1 to `most`.
fn size_in(found: &ArgMatches<'_>, id: &str, most: u32) -> Option<u32>
    ensures { result ≡ number_in 1 most id.now (rows_of (found_of found.now)) }
{
    let size = number_in(found, id, 1, most as u64)?;
    Some(size as u32)
}

// How large the server is to be, by the values that were found.
fn sizes_in(shared: Options, found: &ArgMatches<'_>) -> Option<ServeOptions>
    ensures { result ≡ sizes_of shared (rows_of (found_of found.now)) }
{
    let workers = size_in(found, "workers", 64)?;
    let runners = size_in(found, "runners", 64)?;
    let handlers = size_in(found, "handlers", 64)?;
    let conns = size_in(found, "conns", 10_000)?;
    Some(ServeOptions {
        workers,
        runners,
        handlers,
        conns,
        shared,
    })
}

// What `serve` takes, by the values that were found.
fn serve_options_in(alloc: Global, found: &ArgMatches<'_>) -> Result<ServeOptions, WordsFault>
    ensures { Gives WordsFault.Memory result (or_usage (serve_options_of (rows_of (found_of found.now)))) }
{
    let shared = options_in(alloc, found)?;
    sizes_in(shared, found).ok_or(WordsFault::Usage)
}

// The command of a subcommand that takes numbers of its own.
fn numbered_command_in(
    alloc: Global,
    name: &str,
    found: &ArgMatches<'_>,
) -> Result<Command, WordsFault>
    ensures { Gives WordsFault.Memory result
        (or_usage (numbered_command_named (name.now, rows_of (found_of found.now)))) }
{
    if name == "gen" {
        return Ok(Command::Gen(gen_options_in(alloc, found)?));
    }
    if name == "serve" {
        return Ok(Command::Serve(serve_options_in(alloc, found)?));
    }
    Err(WordsFault::Usage)
}

// The command of the subcommand that was found.
fn command_in(alloc: Global, matches: &ArgMatches<'_>) -> Result<Command, WordsFault>
    ensures { Gives WordsFault.Memory result (or_usage (command_in (subcommand_rows_of matches.now))) }
{
    let Some((name, found)) = matches.subcommand() else {
        return Err(WordsFault::Usage);
    };
    if name == "drive" {
        return Ok(Command::Drive(options_in(alloc, found)?));
    }
    if name == "audit" {
        return Ok(Command::Audit(options_in(alloc, found)?));
    }
    numbered_command_in(alloc, name, found)
}

// A parse that failed: for want of memory, or for the words.
fn fault_of(error: &clap::Error) -> WordsFault
    ensures memory { kind_of error.now ≡ ErrorKind.OutOfMemory → result ≡ WordsFault.Memory }
    ensures usage { kind_of error.now ≢ ErrorKind.OutOfMemory → result ≡ WordsFault.Usage }
{
    match error.kind() {
        ErrorKind::OutOfMemory => WordsFault::Memory,
        _ => WordsFault::Usage,
    }
}

/// The command that the words behind the program's name are, by `clap`'s reading of the program's definition: one
/// subcommand with its values, and with its options, each as `--NAME VALUE` or `--NAME=VALUE` and at most once. Usage
/// comes exactly where `clap` doesn't take the words (it answers help for some, and no word is a subcommand that is
/// missing), where the group is no name, or where a number isn't decimal without sign and leading zeros in its range.
pub fn read_words(alloc: Global, words: &[String]) -> Result<Command, WordsFault>
    ensures asked { IfOk result (λ command. command_of (map string_bytes words.now) ≡ Some command) }
    ensures ranges { IfOk result IsInRange }
    ensures usage { result ≡ Err WordsFault.Usage → command_of (map string_bytes words.now) ≡ None }
{
    match program(alloc)?.try_get_matches_from(words) {
        Ok(matches) => command_in(alloc, &matches),
        Err(error) => Err(fault_of(&error)),
    }
}
