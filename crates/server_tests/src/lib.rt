//! Trials of `server`: links in memory that a server serves, over a tape that keeps its entries and
//! over one that does not; and of `serve`, over links of the trials' own, which wait for one another.
//!
//! They are in a crate of their own, so that these are not proved again for them. Why each link is served
//! so is proved, and what a server leaves; the trials show that the answers come, that links and workers
//! are at work side by side, and that each link and each tape comes back.
#![tactic(auto)]

#[cfg(test)]
mod meeting;
#[cfg(test)]
mod net;
#[cfg(test)]
mod tests;
#[cfg(test)]
mod trials;
