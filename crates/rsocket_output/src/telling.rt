//! How the end of a run is told.

ghost use Rattle.std.specs.Prelude.{◌≡◌, ◌⊎◌};
ghost use Rattle.rsocket_output.specs.Written.{CutOff, Writes, WritesLine, memory_line};

use crate::writing::write_all;
use outside::Sink;

/// The status of a run whose output could not be written.
const WRITE_FAULT: u8 = 5;

/// Writes the last of a run that ends with this status, which is 5 where it can't be written.
pub fn say<O: Sink>(output: &mut O, text: &[u8], status: u8) -> u8
    ensures { ((result ≡ status) × Writes text.now (O.shown output.old) (O.shown output.new)) ⊎
        ((result ≡ 5) × CutOff text.now (O.shown output.old) (O.shown output.new)) }
{
    match write_all(output, text) {
        Ok(()) => status,
        Err(_) => WRITE_FAULT,
    }
}

/// Writes the last line of a run that ends with this status also where it can't be written.
pub fn insist<O: Sink>(output: &mut O, line: &[u8], status: u8) -> u8
    ensures status { result ≡ status }
    ensures line { WritesLine line.now (O.shown output.old) (O.shown output.new) }
{
    let _ = write_all(output, line);
    status
}

/// Ends a run whose memory ran out. The status is 6.
pub fn tell_out_of_memory<O: Sink>(output: &mut O) -> u8
    ensures status { result ≡ 6 }
    ensures line { WritesLine memory_line (O.shown output.old) (O.shown output.new) }
{
    insist(output, b"rsocket: out of memory\n", 6)
}
