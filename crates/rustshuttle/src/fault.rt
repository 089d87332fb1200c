//! Why the bytes of a connection could not be brought.

use thiserror::Error;

/// Why the next frame was not brought. It stays in front, and all else is as it was.
#[derive(Clone, Copy, Debug, PartialEq, Eq, Error)]
pub enum EndFault {
    /// The first bytes of a connection at a server are no frame: they break the rule of this number,
    /// from 1 to 9, or 10 where the frame is longer than the settings allow. The connection opens no
    /// session, and is to be closed.
    #[error("the first bytes are no frame, by rule {0}")]
    NoFirstFrame(u8),
    /// So many bytes wait to go out that an answer to the frame has no place. It comes once fewer
    /// bytes than these wait: draw, and bring again.
    #[error("{0} bytes wait to go out")]
    Busy(u64),
    /// The tape has 2^63 entries, and takes no more.
    #[error("the tape is full")]
    TapeFull,
    /// There was not enough memory. It may be tried again.
    #[error("out of memory")]
    OutOfMemory,
}
