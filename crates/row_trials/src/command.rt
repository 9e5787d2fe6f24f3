//! What the words of a row ask for, as the reader of the command line answers it.

use command_line::{Command, command_of};
use sleep_base::Mem;
use std::alloc::{AllocError, Global};

/// A command and its numbers.
fn text_of(alloc: Global, command: Command) -> Result<String, AllocError> {
    match command {
        Command::Run { workers } => format!(in alloc; "run {workers}"),
        Command::Gen { seed, devices } => format!(in alloc; "gen {seed} {devices}"),
        Command::Soak { seed, devices } => format!(in alloc; "soak {seed} {devices}"),
        Command::Check => String::from_str(alloc, "check"),
        Command::Locks => String::from_str(alloc, "locks"),
        Command::Stats => String::from_str(alloc, "stats"),
        Command::Idle {
            wakers,
            events,
            sessions,
            workers,
        } => format!(in alloc; "idle {wakers} {events} {sessions} {workers}"),
    }
}

/// What these words ask for; `-` if they ask for nothing.
fn asked_of(alloc: Global, words: &[String]) -> Result<String, Mem> {
    let asked = match command_of(alloc, words)? {
        Some(command) => text_of(alloc, command),
        None => String::from_str(alloc, "-"),
    };
    Ok(asked?)
}

/// What these words ask for, in one line after the row's number.
pub(crate) fn told_command(alloc: Global, words: &[String], number: usize) -> Result<Vec<u8>, Mem> {
    let asked = asked_of(alloc, words)?;
    let text = format!(in alloc; "asks {number} {asked}\n");
    drop(asked);
    Ok(text?.into_bytes())
}
