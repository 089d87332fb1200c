//! The run.

ghost use Rattle.std.specs.Prelude.{◌≡◌, IfOk};
ghost use Rattle.load_script.specs.Generated.{load_settings};
ghost use Rattle.cable.specs.Shelves.{GotTapes, sides_by};
ghost use Rattle.rsocket_load.specs.Load.{Loads};

use crate::text::{put_summary, two_lines};
use cable::play;
use load_script::generated;
use rs_wire::OutOfMemory;
use std::alloc::Global;
use tape::Shelf;

/// Plays the script of a seed over two tapes of the shelf, and gives them back, the client's first.
/// The text: the counts of the client, those of the server, and `load SEED cuts 9`.
pub fn load<H: Shelf>(alloc: Global, seed: u32, shelf: &mut H) -> Result<Vec<u8>, OutOfMemory>
    ensures loads { IfOk result (λ text.
        Loads seed H.fresh (H.back shelf.old) (H.back shelf.new) text.items) }
    ensures lent { H.lent shelf.new ≡ H.lent shelf.old }
    ensures got { GotTapes (sides_by load_settings) H.fresh
        (H.back shelf.old) (H.back shelf.new) }
{
    let script = generated(alloc, seed)?;
    let report = play(alloc, &script, shelf)?;
    let mut text = Vec::from_slice(alloc, two_lines(&report))?;
    put_summary(&mut text, seed)?;
    Ok(text)
}
