//! Reading the whole input.

ghost use Rattle.std.specs.Prelude.{◌≡◌, List, ℕ, Some, IfOk};
ghost use Rattle.rsocket_run.specs.Stops.{faults_after_reading};
ghost use Rattle.rsocket_run.specs.Streams.{HasRead, IsReadTo};

use outside::{Read, Source};
use rs_wire::OutOfMemory;
use std::alloc::Global;

/// How many bytes one read asks for.
const PIECE: usize = 16_384;

/// Why input was not read.
#[derive(Clone, Copy, Debug, PartialEq, Eq)]
pub enum Unread {
    /// The source failed, and counted a fault.
    Fault,
    /// There was not enough memory.
    OutOfMemory,
}

/// Reads to the end of the source, or that many bytes. Also where it gives up, it has read no more
/// than that; a failed read is the last one.
pub fn read_to<I: Source>(alloc: Global, input: &mut I, most: usize) -> Result<Vec<u8>, Unread>
    ensures whole { (text : List ℕ) → (I.shown input.old).told ≡ Some text →
        IfOk result (λ bytes. IsReadTo most text bytes.items (I.shown input.new).told) }
    ensures read { HasRead most (I.shown input.old).told (I.shown input.new).told }
    ensures faults { (I.shown input.new).faults ≡
        faults_after_reading result (I.shown input.old).faults }
{
    let mut bytes = Vec::new(alloc);
    let mut buffer = [0u8; PIECE];
    while bytes.len() < most {
        let room = PIECE.min(most - bytes.len());
        let piece = &mut buffer[..room];
        match input.read(piece) {
            Read::Took(count) => {
                if bytes.extend_from_slice(&piece[..count]).is_err() {
                    return Err(Unread::OutOfMemory);
                }
            }
            Read::End => return Ok(bytes),
            Read::Failed => return Err(Unread::Fault),
        }
    }
    Ok(bytes)
}
