//! The arguments of a command, and their values.

ghost use Rattle.std.specs.Prelude.{◌≡◌, ◌≤◌, IfOk, Err, None, Some, false, option_map};
ghost use Rattle.clap.specs.Words.{app_of, first_of, found_of, rows_of, rule_of, with_rule};
ghost use Rattle.command_line.specs.Calls.{number_of, number_or};
ghost use Rattle.command_line.specs.Commands.{command_app, rule};
ghost use Rattle.command_line.specs.Words.{is_on};

use crate::fault::WordsFault;
use clap::{Arg, ArgAction, ArgMatches, Command};
use plain_text::read_number;
use std::alloc::{AllocError, Global};

/// How an argument is given.
#[derive(Clone, Copy)]
pub enum Form {
    /// An operand, which has to be there.
    Operand,
    /// The option `--name`, with its value.
    Option,
    /// The flag `--name`.
    Flag,
}

/// An argument of a command.
#[derive(Clone, Copy)]
pub struct Argument {
    /// How it is given.
    pub form: Form,
    /// Its name.
    pub name: &'static str,
}

// An argument as clap reads it.
fn arg<'a>(alloc: Global, argument: Argument) -> Arg<'a>
    ensures rule { rule_of result ≡ rule argument.form argument.name.now }
    ensures local { result.global ≡ false }
{
    let bare = Arg::new(alloc, argument.name);
    match argument.form {
        Form::Operand => bare.action(ArgAction::Set).required(true),
        Form::Option => bare.long(argument.name).action(ArgAction::Set),
        Form::Flag => bare.long(argument.name).action(ArgAction::SetTrue),
    }
}

// The command with one argument more.
fn with<'a>(command: Command<'a>, arg: Arg<'a>) -> Result<Command<'a>, AllocError>
    requires { arg.global ≡ false }
    ensures { IfOk result (λ c. app_of c ≡ with_rule (app_of command.entry) (rule_of arg.entry)) }
{
    command.arg(arg)
}

/// The command of this name that takes these arguments, as clap reads it.
pub fn command<'a>(
    alloc: Global,
    name: &'static str,
    arguments: &[Argument],
) -> Result<Command<'a>, AllocError>
    ensures { IfOk result (λ c. app_of c ≡ command_app name.now arguments.now) }
{
    let mut command = Command::new(alloc, name).disable_help_flag(true);
    for argument in arguments {
        command = with(command, arg(alloc, *argument))?;
    }
    Ok(command)
}

/// The value of an argument, where it has one.
pub fn value<'a>(matches: &ArgMatches<'a>, name: &str) -> Option<&'a str>
    ensures { option_map (λ t. t.now) result ≡ first_of name.now (rows_of (found_of matches.now)) }
{
    matches.get_str(name)
}

/// The value of an operand.
pub fn operand_value<'a>(matches: &ArgMatches<'a>, name: &str) -> Result<&'a str, WordsFault>
    ensures is { IfOk result (λ t.
        first_of name.now (rows_of (found_of matches.now)) ≡ Some t.now) }
    ensures usage { result ≡ Err WordsFault.Usage →
        first_of name.now (rows_of (found_of matches.now)) ≡ None }
{
    value(matches, name).ok_or(WordsFault::Usage)
}

/// Whether a flag was given.
pub fn is_on(matches: &ArgMatches, name: &str) -> bool
    ensures { result ≡ is_on name.now (rows_of (found_of matches.now)) }
{
    value(matches, name) == Some("true")
}

/// The number that an argument has, which is in the range.
pub fn number(matches: &ArgMatches, name: &str, low: u64, high: u64) -> Result<u64, WordsFault>
    ensures is { IfOk result (λ n. number_of low high
        (first_of name.now (rows_of (found_of matches.now))) ≡ Some n) }
    ensures range { IfOk result (λ n. (low ≤ n) × (n ≤ high)) }
    ensures usage { result ≡ Err WordsFault.Usage → number_of low high
        (first_of name.now (rows_of (found_of matches.now))) ≡ None }
{
    let word = operand_value(matches, name)?;
    read_number(word.as_bytes(), low, high).ok_or(WordsFault::Usage)
}

/// The number that an option has, which is in the range; without the option the default.
pub fn number_or(
    matches: &ArgMatches,
    name: &str,
    default: u64,
    low: u64,
    high: u64,
) -> Result<u64, WordsFault>
    requires { (low ≤ default) × (default ≤ high) }
    ensures is { IfOk result (λ n. number_or default low high
        (first_of name.now (rows_of (found_of matches.now))) ≡ Some n) }
    ensures range { IfOk result (λ n. (low ≤ n) × (n ≤ high)) }
    ensures usage { result ≡ Err WordsFault.Usage → number_or default low high
        (first_of name.now (rows_of (found_of matches.now))) ≡ None }
{
    match value(matches, name) {
        None => Ok(default),
        Some(word) => read_number(word.as_bytes(), low, high).ok_or(WordsFault::Usage),
    }
}
