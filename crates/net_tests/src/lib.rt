//! Trials of the host's net and clock, over the loopback.
//!
//! They are in a crate of their own, so that `host_net` is not proved again for them. That a link is
//! handed out with nothing counted, and that each call that fails is counted once, is proved; the
//! trials show that bytes come, which addresses are none, and how long a call waits.
#![tactic(auto)]

#[cfg(test)]
mod tests;
