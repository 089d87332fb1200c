//! Whether a session can be resumed (RSocket 1.0, "Resuming Operation").
//!
//! The promise to the layer above: [`judge_resume`] and [`judge_ok`] accept exactly where what the
//! peer misses is held, and else answer the first fault in a stated order. Both judge numbers that
//! are handed in. Left out: what is held and where frames end, which the session knows, and whether
//! a session is begun and keeps frames for resumption at all.
#![tactic(auto)]

mod resume;
mod resume_ok;

pub use resume::judge_resume;
pub use resume_ok::judge_ok;
