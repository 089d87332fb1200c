//! What the server knows of the connection that joins the ends.

use pump::Pump;
use rs_chunk::Reader;
use rs_wire::Blob;

/// What the server knows of the connection that joins the ends.
#[derive(Drop)]
pub enum Knows {
    /// Nothing: what came is no first frame yet, or will never be one. The reader has it.
    Nothing(Reader),
    /// It accepted it.
    Accepted {
        /// Its number.
        conn: u64,
        /// The bytes on their way there.
        pump: Pump,
    },
    /// It refused it.
    Refused {
        /// The bytes of the refusal; none where the session was closed.
        bytes: Blob,
        /// How many of them were pushed.
        pushed: usize,
    },
}
