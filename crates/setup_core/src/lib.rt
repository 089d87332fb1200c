//! What a server says to the first frame of a connection that starts a session (RSocket 1.0,
//! "Setup").
//!
//! The promise to the layer above: [`judge`] answers the first fault in a stated order, and accepts
//! exactly where there is none; [`code_of`] is the code of the ERROR frame that names the fault.
//! Left out: a first frame RESUME, which `resume_core` judges, and the ERROR frame itself, which the
//! session makes.
#![tactic(auto)]

mod code;
mod verdict;

pub use code::code_of;
pub use verdict::judge;
