//! The script of a large run of the cable: 100,000 items, half of them from the server on a
//! stream and half from the client on a channel, over one session whose connection is cut nine
//! times, each time while items are on their way.
//!
//! A seed decides how many bytes an item has, 0 to 63, and how many bytes may cross each way
//! before a cut, 1 to 65,536. The promise to the layer above: [`generated`] is the script of the
//! seed, line by line as `specs/Generated.antt` says, and [`generated_text`] is its text, of
//! about 1.9 MB.
//!
//! A script is made only by reading one, so the text is written first and then read.
#![tactic(auto)]

mod script;
mod writing;

/// How many items are sent.
pub const ITEMS: u32 = 100_000;

/// How many items stand between two cuts.
pub const BLOCK: u32 = 10_000;

/// How often the connection is cut: after each block of items but the last.
pub const CUTS: u32 = ITEMS / BLOCK - 1;

pub use script::{generated, generated_text};
