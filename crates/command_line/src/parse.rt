//! Reading words by a command.

ghost use Rattle.std.specs.Prelude.{◌≡◌, [], IfOk, OnOk, Err, map, true};
ghost use Rattle.clap.specs.Words.{app_of, fault_of, found_of, is_simple_and_free, matches_of, rows_of};
ghost use Rattle.command_line.specs.Commands.{command_app};

use crate::arguments::{Argument, command};
use crate::fault::WordsFault;
use clap::error::ErrorKind;
use clap::{ArgMatches, Command};
use std::alloc::Global;

// What `clap` reads of the words by this command.
fn parse_by<'a>(command: Command<'a>, words: &'a [&'a str]) -> Result<ArgMatches<'a>, WordsFault>
    requires { is_simple_and_free (app_of command) ≡ true }
    ensures taken { OnOk result (fault_of (app_of command.entry) (map (λ w. w.now) words.entry.now) ≡ []) }
    ensures matches { IfOk result (λ m. rows_of (found_of m) ≡
        matches_of (app_of command.entry) (map (λ w. w.now) words.entry.now)) }
    ensures usage { result ≡ Err WordsFault.Usage →
        ¬ (fault_of (app_of command.entry) (map (λ w. w.now) words.entry.now) ≡ []) }
{
    match command.try_get_matches_from(words) {
        Ok(matches) => Ok(matches),
        Err(error) => match error.kind() {
            ErrorKind::OutOfMemory => Err(WordsFault::OutOfMemory),
            _ => Err(WordsFault::Usage),
        },
    }
}

/// What `clap` reads of the words by the command of this name that takes these arguments; the first
/// word is the name. `Usage` where it refuses them.
pub fn parse<'a>(
    alloc: Global,
    name: &'static str,
    arguments: &[Argument],
    words: &'a [&'a str],
) -> Result<ArgMatches<'a>, WordsFault>
    requires { is_simple_and_free (command_app name.now arguments.now) ≡ true }
    ensures taken { OnOk result (fault_of (command_app name.now arguments.now)
        (map (λ w. w.now) words.entry.now) ≡ []) }
    ensures matches { IfOk result (λ m. rows_of (found_of m) ≡
        matches_of (command_app name.now arguments.now) (map (λ w. w.now) words.entry.now)) }
    ensures usage { result ≡ Err WordsFault.Usage →
        ¬ (fault_of (command_app name.now arguments.now) (map (λ w. w.now) words.entry.now) ≡ []) }
{
    parse_by(command(alloc, name, arguments)?, words)
}
