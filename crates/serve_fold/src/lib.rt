//! What is known of each slot of a server, once its callers were taken in, one after another.
//!
//! `serve_slots` takes callers in, and `serve_laws` says what follows of a tape whose callers are all
//! taken in. The laws here go between: at each slot what the callers know of their own entries goes on
//! from one taking in to the next, until the last caller of the slot has all names. `specs/Slots.antt`
//! says how a slot ends. The laws stand in functions that do nothing.
#![tactic(auto)]

mod laws;

pub use laws::{a_slot_is_known, callers_of_a_slot_are_taken_in};
