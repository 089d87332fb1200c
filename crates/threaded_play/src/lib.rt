//! A script that threads play between two ends over tapes of a shelf, and its report.
//!
//! The promise to the layer above: [`play_by_threads`] makes a client and a server by the settings of a
//! script, has its lines played by threads, and gives the tapes back. Whatever the schedule, both tapes
//! are legal and joined and have the headline, and what each end handled is a prefix of what the other
//! made. A tape that comes back tells its entries where a fresh one of the shelf tells that it has none.
#![tactic(auto)]

mod play;

pub use play::play_by_threads;
