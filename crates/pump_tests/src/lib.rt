//! Trials of `pump`: a client's session over links in memory that move little, fail, end and lull.
//!
//! They are in a crate of their own, so that `pump` is not proved again for them. That no byte is
//! lost and each result has its cause is proved; the trials show that the results come.
#![tactic(auto)]

/// How many bytes the SETUP of a client with the defaults has, with its length field: 3, a header
/// of 6, the version and two times of 4 each, and two MIME texts of 24 after a byte each, without
/// token and payload (RSocket 1.0, "SETUP Frame").
pub const SETUP_BYTES: u32 = 71;

#[cfg(test)]
mod tests;
