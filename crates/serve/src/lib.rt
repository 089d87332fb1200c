//! A server: [`serve`] accepts links, serves each on its own thread with workers beside, and puts
//! the links and the tapes of their sessions back.
//!
//! There are as many slots as links. Each slot has a connection, and each link's thread a caller of
//! every connection, since the first frame of a link may name a session that another link opened
//! (RSocket 1.0, "Resuming Operation"). When all links have ended their callers are joined again, each
//! session is closed, and the workers end, since no more jobs come.
//!
//! The promise to the layer above is `Serves` (`specs/Whole.antt`): all links and all tapes come back,
//! whatever is answered, and where memory did not run out each tape is that of a server whose jobs are
//! served, and each link was served over the tapes. That a thread runs, and that a link ends, is not
//! promised.
#![tactic(auto)]

mod plan;
mod putting;
mod whole;

pub use plan::{ServeFault, ServePlan, ServedList};
pub use whole::serve;
