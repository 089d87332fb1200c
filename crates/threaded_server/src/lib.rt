//! The carrier of a script's server: what it does by each line, and what it keeps.
//!
//! A [`ServerCarrier`] goes through the lines of a script ([`carry_all`](ServerCarrier::carry_all)),
//! while another caller of its end makes the calls. It reads what the client pushed, opens a connection
//! by the first frame that came, and brings the frames after it; it draws bytes, or takes those of a
//! refusal, and pushes them. It cuts a connection where it reads that the client did, and answers each
//! cut, so that both ends count the same cuts.
//!
//! The promise to the layer above: where the other callers of the end only ask, each opening is the
//! connection after so many cuts, and no two are the same; what came there is what was read between
//! these cuts; what was pushed is a prefix of what was drawn, or of the refusal; and it ticked by the
//! lines ([`ServerCarries`](server_laws)). Nothing is assumed of the client's carrier or of the schedule.
//!
//! Left out: that the other carrier goes on. Where it is gone, or pushes a mark out of turn, this one
//! stops ([`Stop`](ring::Stop)), and nothing is promised any more of the rings.
#![tactic(auto)]

mod carrier;
mod knows;
mod laws;
mod lines;
mod moving;
mod opening;

pub use carrier::ServerCarrier;
pub use knows::Knows;
pub use laws::server_laws;
