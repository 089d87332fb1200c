//! The command `serve`: a server at an address, as the words ask for it.
//!
//! [`serve`] listens at the address, serves as many connections as the words say, and then says how
//! many that were. A connection may be a new session, or one that goes on after its link was lost
//! (RSocket 1.0, "Resuming Operation"); each is served on its own thread, with workers beside it.
//!
//! The promise to the layer above (`specs/Served.antt`): the net was asked to listen at the address of
//! the words, and then for links alone; each link that it handed out is put back, in the order in which
//! they came, and each tape of the shelf, which is that of a session; and each status has its cause.
//!
//! Left out: that a server ever ends, and what the system does with a link. How one link is served is
//! said in `server`, and how they all are in `serve`.
#![tactic(auto)]

mod last;
mod serving;
mod settings;

pub use serving::serve;
