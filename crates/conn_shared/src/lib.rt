//! A session under a lock.
//!
//! A [`SharedSession`] has one session under the lock of `conn_lock`, and whoever steps it has a
//! [`Member`]. The promise to the layer above: the new front of a member is its old front, then
//! entries of others, then the entry of its own step, whose answer is the definitions' answer to the
//! entries before it. So the steps of all threads stand in one list, each once, those of one member
//! in the order in which it made them, and that list is a session's. It holds over every tape, also
//! over one that shows nothing: fronts are known to contracts alone.
//!
//! Left out: whoever waits until something happens (`conn`), that a waiting member comes to its turn,
//! fairness, and any order between two members that neither of them has seen.
#![tactic(auto)]

mod joins;
mod line;
mod looked;
mod member;
mod shared;
mod steps;
mod stored;
mod tries;
mod turns;

pub use line::Line;
pub use looked::Looked;
pub use member::Member;
pub use shared::SharedSession;
