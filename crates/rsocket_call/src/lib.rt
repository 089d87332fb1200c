//! The command `call`: one call of a server, as the words ask for it.
//!
//! [`call`] opens a session over a link of the net, makes the call on it, and writes each line as soon
//! as it is known, so a stream of any length takes the memory of one turn. A failed write ends the
//! call. At its end the link is put back to the net, and the tape of the session to the shelf.
//!
//! The promise to the layer above (`specs/Called.antt`): the tape is that of a session which keeps the
//! order of a call; each link is carried, and each but the last was left for a reason; what is written
//! is what the stream delivered; and each status has its cause.
//!
//! Left out: that a call ever ends, and what the system does with a link. What the words of the
//! promise mean is said in `call_model` and `link_model`.
#![tactic(auto)]

mod begin;
mod calling;
mod connect;
mod finish;
mod last;
mod make;

pub use calling::call;
