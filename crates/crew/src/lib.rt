//! Threads that are lent their work: each link of a net is served in a thread of its own, with
//! workers beside them.
//!
//! Whoever calls has a slice of places. A thread is lent one of them, and no other thread has it
//! meanwhile; all else is handed in by reference, and no thread hands a value back. What each left at
//! its place is known when the call is over. The promise to the layer above ([`serve_with_workers`]):
//! links were served at the places from the first on, one at each, until a wait for the next was in
//! vain, and after that one the net was not asked again; each worker did its task once; and after the
//! links the last task was done, over the places as the links left them.
//!
//! Left out: that two threads run at one time, and that a wait ends. Where no thread can be made the
//! work is done in the thread that would have started it: a link at once, before the next is
//! accepted, and the workers' tasks after the last task.
#![tactic(auto)]

mod finish;
mod links;
mod place;
mod serving;
mod task;
mod tasks;

pub use finish::Finish;
pub use links::serve_each;
pub use place::Place;
pub use serving::serve_with_workers;
pub use task::Task;
pub use tasks::run_each;
