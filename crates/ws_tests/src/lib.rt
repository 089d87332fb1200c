//! Trials of links over WebSocket, over streams in memory.
//!
//! They are in a crate of their own, so that `ws_end` is not proved again for them. That one binary
//! message is one frame, both ways, and that each call is counted as it answers is proved; the trials
//! show what is on the wire, by values worked out by hand from RFC 6455, and that bytes come.
#![tactic(auto)]

#[cfg(test)]
mod tests;
