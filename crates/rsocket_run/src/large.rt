//! The large run of a seed.

ghost use Rattle.std.specs.Prelude.{◌≡◌};
ghost use Rattle.cable.specs.Shelves.{GotTapes, sides_by};
ghost use Rattle.load_script.specs.Generated.{load_settings};
ghost use Rattle.rsocket_load.specs.Load.{Loads};
ghost use Rattle.rsocket_output.specs.Written.{CutsOffSome, FailedWrites, WritesLine, WritesSome, memory_line};
ghost use Rattle.rsocket_run.specs.Run.{IsLoadStatus};

use crate::tell::tell_done;
use outside::Sink;
use rs_wire::OutOfMemory;
use rsocket_load::load;
use rsocket_output::tell_out_of_memory;
use std::alloc::Global;
use tape::Shelf;

/// `load`: plays the large script of a seed, and writes the counts of its two ends and a last line.
pub fn run_load<O: Sink, H: Shelf>(alloc: Global, seed: u32, output: &mut O, shelf: &mut H) -> u8
    ensures status { IsLoadStatus result }
    ensures done { result ≡ 0 → WritesSome
        (Loads seed H.fresh (H.back shelf.old) (H.back shelf.new))
        (O.shown output.old) (O.shown output.new) }
    ensures cut_off { result ≡ 5 → CutsOffSome
        (Loads seed H.fresh (H.back shelf.old) (H.back shelf.new))
        (O.shown output.old) (O.shown output.new) }
    ensures memory_line { result ≡ 6 →
        WritesLine memory_line (O.shown output.old) (O.shown output.new) }
    ensures failed_writes { FailedWrites
        (O.shown output.old).faults (O.shown output.new).faults result }
    ensures lent { H.lent shelf.new ≡ H.lent shelf.old }
    ensures got { GotTapes (sides_by load_settings) H.fresh
        (H.back shelf.old) (H.back shelf.new) }
{
    match load(alloc, seed, shelf) {
        Ok(text) => tell_done(output, &text),
        Err(OutOfMemory) => tell_out_of_memory(output),
    }
}
