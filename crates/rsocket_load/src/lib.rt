//! A large run of the cable: the script of a seed, played, and what it writes.
//!
//! The promise to the layer above: [`load`] plays the script of `load_script` between a client
//! and a server over two tapes of a shelf, and its text is their two lines of counts, whatever
//! the tapes keep, and a line on the run.
#![tactic(auto)]

mod run;
mod text;

pub use run::load;
