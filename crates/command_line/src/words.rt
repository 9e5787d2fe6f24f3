//! The words of the command line, parsed by `clap` to a command.

ghost use Rattle.std.specs.Prelude.{◌≡◌, ℕ, [], ◌∷◌, IfOk, IfErr, IfSome, Option, Some, option_map, map, string_bytes};
ghost use Rattle.std.specs.List.{list_any};
ghost use Rattle.clap.specs.Words.{FailsBy, app_of, fault_of, found_of, rows_of, shape_of, subcommand_of, subcommand_rows_of};
ghost use Rattle.command_line.specs.declared.command.Command.TheVariants.{Gen, Soak};
ghost use Rattle.command_line.specs.Words.{IsInRange, command_of, parsed_of, seeded_of, workers_of};
ghost use Rattle.command_line.specs.Parses.{are_few, is_end_of_options, run_app, seeded_app, whole_app, run_read, seeded_read, command_read};

use crate::command::Command;
use crate::idle::idle_in;
use crate::number::number_in;
use clap::error::ErrorKind;
use clap::{Arg, ArgMatches, Error};
use sleep_base::Mem;
use std::alloc::{AllocError, Global};

/// Whether a word is `--`.
fn has_end_of_options(words: &[String]) -> bool
    ensures { result ≡ list_any (λ word. is_end_of_options (string_bytes word)) words.now }
{
    words.iter().any(|word| word.as_str() == "--")
}

/// Whether these are one to three words, and none is `--`, after which a word with hyphens would be no
/// option.
fn are_few(words: &[String]) -> bool
    ensures { result ≡ are_few (map string_bytes words.now) }
{
    match words.len() {
        1..=3 => !has_end_of_options(words),
        _ => false,
    }
}

/// The command `run` with its option.
fn run_command<'a>(alloc: Global) -> Result<clap::Command<'a>, AllocError>
    ensures { IfOk result (λ c. app_of c ≡ run_app) }
{
    clap::Command::new(alloc, "run").arg(Arg::new(alloc, "workers").long("workers"))
}

/// A command that takes a seed and a number of devices.
fn seeded_command<'a>(alloc: Global, name: &'a str) -> Result<clap::Command<'a>, AllocError>
    ensures { IfOk result (λ c. app_of c ≡ seeded_app name.now) }
{
    clap::Command::new(alloc, name)
        .arg(Arg::new(alloc, "seed").required(true))?
        .arg(Arg::new(alloc, "devices").required(true))
}

/// The commands that the parser knows. A call for help is an error like any other.
fn whole_command<'a>(alloc: Global) -> Result<clap::Command<'a>, AllocError>
    ensures { IfOk result (λ c. app_of c ≡ whole_app) }
{
    clap::Command::new(alloc, "sleep")
        .disable_help_flag(true)
        .disable_help_subcommand(true)
        .subcommand(run_command(alloc)?)?
        .subcommand(seeded_command(alloc, "gen")?)?
        .subcommand(seeded_command(alloc, "soak")?)?
        .subcommand(clap::Command::new(alloc, "locks"))?
        .subcommand(clap::Command::new(alloc, "stats"))?
        .subcommand(clap::Command::new(alloc, "check"))
}

/// The matches of the words.
fn matches_in<'a>(alloc: Global, words: &'a [String]) -> Result<ArgMatches<'a>, Error>
    ensures kinds { FailsBy (fault_of whole_app (map string_bytes words.now)) result }
    ensures read { IfOk result (λ m. subcommand_rows_of m ≡ subcommand_of whole_app (map string_bytes words.now)) }
{
    whole_command(alloc)?.try_get_matches_from(words)
}

/// How many workers a word asks for.
fn workers_in(word: &str) -> Option<Command>
    ensures { result ≡ workers_of word.now }
{
    let workers = number_in(1, 64, word)? as u32;
    Some(Command::Run { workers })
}

/// What the matches of `run` ask for.
fn run_read(matches: &ArgMatches) -> Option<Command>
    ensures { result ≡ run_read (rows_of (found_of matches.now)) }
{
    match matches.get_str("workers") {
        Some(word) => workers_in(word),
        None => Some(Command::Run { workers: 4 }),
    }
}

/// The seed and the number of devices that two words spell.
fn seeded_in(seed: &str, devices: &str) -> Option<(u64, u32)>
    ensures { (make : ℕ → ℕ → Command)
        → option_map (λ p. make p.0 p.1) result ≡ seeded_of make (seed.now ∷ devices.now ∷ []) }
{
    let seed = number_in(0, u64::MAX, seed)?;
    let devices = number_in(1, 1_000, devices)? as u32;
    Some((seed, devices))
}

/// The seed and the number of devices that the matches spell.
fn seeded_read(matches: &ArgMatches) -> Option<(u64, u32)>
    ensures { (make : ℕ → ℕ → Command)
        → option_map (λ p. make p.0 p.1) result ≡ seeded_read make (rows_of (found_of matches.now)) }
{
    let seed = matches.get_str("seed")?;
    let devices = matches.get_str("devices")?;
    seeded_in(seed, devices)
}

/// What the matches ask for.
fn command_read(matches: &ArgMatches) -> Option<Command>
    ensures { result ≡ command_read (subcommand_rows_of matches.now) }
{
    let (name, inner) = matches.subcommand()?;
    match name {
        "run" => run_read(inner),
        "gen" => seeded_read(inner).map(|(seed, devices)| Command::Gen { seed, devices }),
        "soak" => seeded_read(inner).map(|(seed, devices)| Command::Soak { seed, devices }),
        "locks" => Some(Command::Locks),
        "stats" => Some(Command::Stats),
        "check" => Some(Command::Check),
        _ => None,
    }
}

/// What the words of the command line ask for, if they are of a form that the parser knows.
fn parsed(alloc: Global, words: &[String]) -> Result<Option<Command>, Mem>
    ensures { IfOk result (λ c. c ≡ parsed_of (map string_bytes words.now)) }
{
    let [_, rest @ ..] = words else {
        return Ok(None);
    };
    if !are_few(rest) {
        return Ok(None);
    }
    match matches_in(alloc, words) {
        Ok(matches) => Ok(command_read(&matches)),
        Err(error) => match error.kind() {
            ErrorKind::OutOfMemory => Err(Mem),
            _ => Ok(None),
        },
    }
}

/// What the words of the command line ask for; the first is the program's name. `None` if they are of no
/// form, or call for help. An error is out of memory.
pub fn command_of(alloc: Global, words: &[String]) -> Result<Option<Command>, Mem>
    ensures asks { IfOk result (λ c. c ≡ command_of (map string_bytes words.now)) }
    ensures range { IfOk result (λ c. IfSome c IsInRange) }
{
    let [_, name, rest @ ..] = words else {
        return parsed(alloc, words);
    };
    if name.as_str() == "idle" {
        return Ok(idle_in(rest));
    }
    parsed(alloc, words)
}
