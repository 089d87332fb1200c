//! The command `load`: a seed, and no option.

ghost use Rattle.std.specs.Prelude.{◌≡◌, [], ℕ, IfOk, OnOk, Err, map};
ghost use Rattle.clap.specs.Words.{fault_of, matches_of};
ghost use Rattle.command_line.specs.Loads.{IsLoadOf, load_app};

use crate::arguments::{Argument, Form, number};
use crate::fault::WordsFault;
use crate::parse::parse;
use std::alloc::Global;

/// The largest seed.
const MOST_SEED: u64 = 4_294_967_295;

/// The arguments of the command.
const ARGUMENTS: [Argument; 1] = [Argument {
    form: Form::Operand,
    name: "seed",
}];

/// Reads the words of `load`, the first of which is its name. The seed.
pub fn load<'a>(alloc: Global, words: &'a [&'a str]) -> Result<u32, WordsFault>
    ensures taken { OnOk result (fault_of load_app (map (λ w. w.now) words.entry.now) ≡ []) }
    ensures read { IfOk result
        (IsLoadOf (matches_of load_app (map (λ w. w.now) words.entry.now))) }
    ensures usage { result ≡ Err WordsFault.Usage → (seed : ℕ) →
        fault_of load_app (map (λ w. w.now) words.entry.now) ≡ [] →
        ¬ (IsLoadOf (matches_of load_app (map (λ w. w.now) words.entry.now)) seed) }
{
    let matches = parse(alloc, "load", &ARGUMENTS, words)?;
    let seed = number(&matches, "seed", 0, MOST_SEED);
    drop(matches);
    Ok(seed? as u32)
}
