//! The program `rsocket` as one function, over any words, input, output, net, clock and shelf of
//! tapes.
//!
//! [`run`] carries the program's promise, status by status; [`start`] runs it on the words of the
//! command line. A program is then a `main` that hands in standard input and output and the net and
//! the clock of the host, and ends with the status.
#![tactic(auto)]

mod input;
mod large;
mod program;
mod stop;
mod tasks;
mod tell;
mod words;

pub use program::run;
pub use words::start;
