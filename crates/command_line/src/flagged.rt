//! A command with one flag and no operand: `cable` and `frames`.

ghost use Rattle.std.specs.Prelude.{◌≡◌, [], IfOk, OnOk, Err, map, true};
ghost use Rattle.clap.specs.Words.{fault_of, is_simple_and_free, matches_of};
ghost use Rattle.command_line.specs.Words.{flagged_app, is_on};

use crate::arguments::{Argument, Form, is_on};
use crate::fault::WordsFault;
use crate::parse::parse;
use std::alloc::Global;

/// Reads the words of a command that has one flag, the first of which is its name. Whether they have
/// the flag.
pub fn flagged<'a>(
    alloc: Global,
    name: &'static str,
    its_flag: &'static str,
    words: &'a [&'a str],
) -> Result<bool, WordsFault>
    requires simple { is_simple_and_free (flagged_app name.now its_flag.now) ≡ true }
    ensures taken { OnOk result (fault_of (flagged_app name.now its_flag.now)
        (map (λ w. w.now) words.entry.now) ≡ []) }
    ensures flag { IfOk result (λ on. is_on its_flag.now
        (matches_of (flagged_app name.now its_flag.now) (map (λ w. w.now) words.entry.now)) ≡ on) }
    ensures usage { result ≡ Err WordsFault.Usage →
        ¬ (fault_of (flagged_app name.now its_flag.now) (map (λ w. w.now) words.entry.now) ≡ []) }
{
    let arguments = [Argument {
        form: Form::Flag,
        name: its_flag,
    }];
    let matches = parse(alloc, name, &arguments, words)?;
    let on = is_on(&matches, its_flag);
    drop(matches);
    Ok(on)
}
