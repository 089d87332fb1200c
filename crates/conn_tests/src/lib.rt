//! Trials of `bell`, `conn_lock` and `conn`: callers of one lock or connection, in one thread and in
//! several; and what a list of events can't say of `session_core`.
//!
//! They are in a crate of their own, so that those four are not proved again for them. That a
//! caller's calls are its entries in one legal list is proved; the trials show that waits end, that
//! calls come back, and that nothing is lost between two ends.
#![tactic(auto)]

#[cfg(test)]
mod tests;
