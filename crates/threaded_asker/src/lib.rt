//! One who makes the calls of a script at one end, beside others who share the connection.
//!
//! The promise to the layer above: [`ask_all`] makes the calls of the lines, in their order, each once, and adds
//! nothing else under its number; a call that leaves no entry takes what waits, where nothing does.
//!
//! Left out: who carries the bytes.
#![tactic(auto)]

mod asking;

pub use asking::ask_all;
