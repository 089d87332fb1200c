//! The carrier of a script's client: what it does by each line, and what it keeps.
//!
//! A [`ClientCarrier`] goes through the lines of a script ([`carry_all`](ClientCarrier::carry_all)),
//! while another caller of its end makes the calls. It opens and cuts connections and tells the moments;
//! it draws bytes and pushes them into one ring, and brings what it reads from the other. The marks
//! between the bytes tell the server's carrier how far it went, so that both go through the same lines.
//!
//! The promise to the layer above: where the other callers of the end only ask, each entry that opens,
//! cuts or ticks is what the next line does that acts; and the bytes between two cuts are those of one
//! connection: those pushed are all that was drawn there, and those read are the frames that came there
//! and a rest ([`ClientCarries`](client_laws)). Nothing is assumed of the server's carrier or of the
//! schedule.
//!
//! Left out: that the other carrier goes on. Where it is gone, or pushes a mark out of turn, this one
//! stops ([`Stop`](ring::Stop)), and nothing is promised any more of the rings.
#![tactic(auto)]

mod carrier;
mod laws;
mod lines;
mod moving;
mod opening;

pub use carrier::ClientCarrier;
pub use laws::client_laws;
