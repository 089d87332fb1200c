//! Workers: they take the jobs of a connection and answer them by stored handlers (RSocket 1.0,
//! "Request").
//!
//! A [`Work`] has the jobs that a worker got and has not finished. [`serve_job`] goes on with one
//! job: it makes the replies of the job's law, in their order, until the last one is accepted, or one
//! finds no credit or no room, or is refused for good. The promise to the layer above is the
//! statement `Serving` of `specs/Serving.antt`, which every call keeps: of each job that this caller
//! got, the replies accepted so far are the first ones of its law, in order, each once, and the job
//! is in the work, or it is whole, or its next reply was refused for good. It holds at the beginning
//! ([`a_worker_begins`]), and goes on where this caller makes other calls ([`a_worker_waits`]) and
//! where it takes in callers that worked on nothing ([`serving_joined`]). What a call says has its
//! cause in `specs/Causes.antt`: the next call of one of its jobs, which was made and so answered.
//!
//! Handlers run outside the connection's lock, so two workers run theirs at one time. That is shown
//! by a test, and by no contract. Left out: that a job comes to its turn, and any order between the
//! jobs of two workers.
#![tactic(auto)]

mod ask;
mod gate;
mod going;
mod job;
mod laws;
mod outcome;
mod plan;
mod serve;
mod step;
mod tools;
mod work;
mod worked;

pub use gate::{Gate, OpenGate};
pub use laws::{a_worker_begins, a_worker_waits, course_of_none, course_of_one, serving_joined};
pub use serve::{serve_job, serve_some};
pub use work::Work;
pub use worked::{Progress, Worked};
