//! Numbers of a pump.

/// The most bytes of one draw, of one give and of one take. So a pump's two buffers have 32 KiB
/// together, as much as the nearest cache of a common processor.
pub const PIECE: usize = 16_384;
