//! The words of the program's command line.
//!
//! The first word after the program's name is the command; the words after it are read by `clap`, as
//! those of one simple command. The promise to the layer above: [`read_words`] gives a task only
//! where `clap` takes the words of it, and refuses them as [`WordsFault::Usage`] only where they ask
//! for no task; where memory runs out it may say so in place of either. [`words_laws`] writes out
//! which words those are.
//!
//! Left out: what a task does, and texts of help, of the version and of what is wrong with the words:
//! every faulty command line has the same answer.
#![tactic(auto)]

mod arguments;
mod call;
mod call_task;
mod fault;
mod flagged;
mod laws;
mod load;
mod parse;
mod serve;
mod serve_task;
mod task;
mod texts;

pub use call_task::CallTask;
pub use fault::WordsFault;
pub use laws::words_laws;
pub use serve_task::ServeTask;
pub use task::{Asked, Task, read_words};
