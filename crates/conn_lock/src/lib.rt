//! A lock that threads share, whose callers know what happened before their turn.
//!
//! The value under the lock represents a list of entries ([`Stands`]), and each entry carries the
//! number of the caller that made it. A caller has a [`Seat`]; while it has the value it has a
//! [`Turn`]. A seat remembers the list as far as it has seen it, its front. The promise to the layer
//! above: the new front of a caller is its old front, then entries of others alone, then the entries
//! that it made in its turn. So the calls of all threads stand in one list, each once, and those of
//! one caller in the order in which it made them.
//!
//! It is a ticket lock on three words and one slot: the next ticket, the ticket that is served, and
//! how many numbers were given out. `specs/Rule.antt` has the rule between them. A ticket is drawn only
//! while it is served, so turns go to whoever asks first once the lock is free. A front is known to
//! contracts alone, so a turn allocates nothing, however long the list grows.
//!
//! Left out: that a waiting caller comes to its turn, fairness, and any order between two callers
//! that neither of them has seen.
#![tactic(auto)]

mod lock;
mod numbers;
mod seat;
mod stands;
mod steps;
mod turn;
mod turns;
mod view;

pub use lock::Lock;
pub use numbers::SplitFault;
pub use seat::Seat;
pub use stands::Stands;
pub use turn::Turn;
