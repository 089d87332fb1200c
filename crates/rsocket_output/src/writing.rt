//! Writing bytes.

ghost use Rattle.std.specs.Prelude.{OnErr, OnOk};
ghost use Rattle.rsocket_output.specs.Written.{CutOff, Writes};

use outside::{Sink, Wrote};
use thiserror::Error;

/// The sink failed, and counted a fault.
#[derive(Clone, Copy, Debug, PartialEq, Eq, Error)]
#[error("a write failed")]
pub struct WriteFault;

/// Writes all bytes, or a prefix of them: a failed write is the last one.
pub fn write_all<O: Sink>(output: &mut O, bytes: &[u8]) -> Result<(), WriteFault>
    ensures ok { OnOk result (Writes bytes.now (O.shown output.old) (O.shown output.new)) }
    ensures err { OnErr result (CutOff bytes.now (O.shown output.old) (O.shown output.new)) }
{
    let mut rest = bytes;
    while !rest.is_empty() {
        match output.write(rest) {
            Wrote::Took(count) => (_, rest) = rest.split_at(count),
            Wrote::Failed => return Err(WriteFault),
        }
    }
    Ok(())
}
