//! Numbers that the definitions speak of.

/// The code of the ERROR that closes a session: CONNECTION_ERROR (RSocket 1.0, "Error Codes").
pub const CONNECTION_ERROR: u32 = 0x101;

/// The code of the ERROR that answers a request which opens no stream: REJECTED (RSocket 1.0,
/// "Error Codes").
pub const REJECTED: u32 = 0x202;

/// The code of the ERROR by which a server refuses a RESUME: REJECTED_RESUME (RSocket 1.0, "Error
/// Codes").
pub const REJECTED_RESUME: u32 = 0x004;

/// The flag I of a frame's header, in its flags word: an end that doesn't know the frame ignores it
/// (RSocket 1.0, "Frame Header Format").
pub const MAY_IGNORE: u16 = 0x200;

/// The type number of EXT (RSocket 1.0, "EXT (Extension) Frame").
pub const EXTENSION: u8 = 0x3F;

/// The rule that a length field above the longest frame of the settings breaks: the number after
/// the nine rules of a frame's own bytes.
pub const LONG_FRAME: u8 = 10;

/// The last moment, 2^62 milliseconds: a later one counts as it. So a moment and a span of 31 bits fit in
/// 64 bits together.
pub const LAST_MOMENT: u64 = 0x4000_0000_0000_0000;

/// Bytes that stay free in the queue after a frame came, beyond the frame's own length, for what
/// answers it: a length field of 3, and 64. The longest ERROR that names a rule has 24.
pub const ANSWER_ROOM: u64 = 67;
