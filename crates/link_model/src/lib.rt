//! What a link carries: the definitions that all crates cite which move bytes between a link and a
//! session, or ask whether they were moved right.
//!
//! A session is seen by the list of its entries, the newest first, and a link by what it shows
//! (`outside`). `specs/Reading.antt` says how the bytes taken are the frames that came, each after
//! its length (RSocket 1.0, "Framing Protocol Usage"), `Giving.antt` how the bytes given are those
//! that were drawn. `Carrying.antt` has the two together: a link is carried where what was given
//! begins what was drawn, and what came begins what was taken. `Leaving.antt` says when all that
//! was taken has come, and why a link was left.
//!
//! The functions here do nothing: their contracts are laws. What moves bytes stands one layer up.
#![tactic(auto)]

mod laws;

pub use laws::{carried_links, heard_links, kept_links, left_links};
