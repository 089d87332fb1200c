//! A session that threads share, with calls that wait until there is something to take.
//!
//! A [`Connection`] has one session under a lock (`conn_shared`), and whoever calls it has a
//! [`Caller`]. The promise to the layer above: the new front of a caller is its old front, then
//! entries of others, then the entry of its own call, whose answer is the definitions' answer to the
//! entries before it. So the calls of all threads stand in one list, each once, those of one caller
//! in the order in which it made them, and that list is a session's. It holds over every tape, also
//! over one that shows nothing: fronts are known to contracts alone.
//!
//! Left out: that a waiting caller comes to its turn or wakes, fairness, and any order between two
//! callers that neither of them has seen.
#![tactic(auto)]

mod caller;
mod calls;
mod connection;
mod joins;
mod tries;
mod waits;

pub use caller::Caller;
pub use conn_shared::Looked;
pub use connection::Connection;
