//! Honest ends do not accuse each other, proved from the definitions of a session alone.
//!
//! The promise to the layers above: where the bytes of a client and of a server crossed, and each
//! answered as the definitions say, neither answers what came by a rule that the other cannot have
//! broken. The rules are those that depend on no limit of either end: the type of a frame, what may
//! come now, the id of a request, credit, and the position that a KEEPALIVE tells. The two ends
//! need agree in none of their settings.
//!
//! Left out: the rules that depend on limits. A message can be too large where the limits of the
//! two ends differ, and a position can be spent, or a frame longer than the receiver takes, also
//! where they are the same.
#![tactic(auto)]

mod accusing;

pub use accusing::{
    honest_ends_accuse_nobody, what_is_not_handled_is_held, what_is_told_was_handled,
};
