//! A number that a session keeps of its entries, and that the definitions speak of.

/// How many resumable frames there were one way, over all connections (RSocket 1.0, "Resuming
/// Operation").
#[derive(Clone, Copy, Debug, PartialEq, Eq)]
pub struct Counted {
    /// How many frames.
    pub frames: u64,
    /// The position after them, in bytes: the sum of their lengths without the length fields.
    pub position: u64,
}
