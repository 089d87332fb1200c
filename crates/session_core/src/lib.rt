//! The core of a session: one end, without input, output, clock or thread.
//!
//! A [`Session`] is handed events, and answers each. The promise to the layer above: each answer of
//! [`Session::step`] and [`Session::draw`] is the one that the definitions of `session_model` give
//! for the entries before it, each leaves its entry, and the bytes drawn are those of the frames
//! due on the connection (RSocket 1.0, "Setup", "Request", "Framing Protocol Usage"). It holds over
//! every tape, also over one that shows nothing. An event costs what it carries.
//!
//! Two ends in one process, from `hello.rt` of the program `examples`; its function `end` makes a
//! session with the defaults of its side:
//!
//! ```
//! let mut client = end(alloc, Side::Client)?;
//! let mut server = end(alloc, Side::Server)?;
//!
//! // The client opens connection 1 and asks; its bytes wait in its queue.
//! println!(rt; "client: {:?}", client.step(0, &Event::opening()))?;
//! let call = Call::fire_and_forget(Blob::from_slice(alloc, b"hi")?);
//! println!(rt; "client: {:?}", client.step(0, &Event::Asked(call)))?;
//! let mut buffer = [0; 1024];
//! println!(rt; "client: {:?}", client.draw(0, 1, &mut buffer))?;
//!
//! // The bytes cross, and the server gets the frames in them.
//! let (setup, rest) = split_frame(&buffer).context("no SETUP")?;
//! let (request, _) = split_frame(rest).context("no request")?;
//! let opened = Event::opened_by(decode(alloc, setup)?);
//! println!(rt; "server: {:?}", server.step(0, &opened))?;
//! let arrived = Event::arrived(1, decode(alloc, request)?);
//! println!(rt; "server: {:?}", server.step(0, &arrived))?;
//! ```
//!
//! It writes `client: Opened(1)`, `client: Started(1)`, `client: Drawn(82)`, `server: Opened(1)`
//! and `server: Handled`, a line each.
//!
//! Built are SETUP and the four interactions with credit, cancel, errors and fragments: a request
//! or a payload that is longer than the mtu goes out in fragments, and what comes in fragments is
//! taken in once it is whole (RSocket 1.0, "Fragmentation and Reassembly"). Where resumption is
//! agreed, a session outlives its connection: the frames made that the peer may not have handled
//! are held, as many as the settings allow, and go out again on the next one from the position that
//! the peer tells (RSocket 1.0, "Resuming Operation"). Where leases are agreed, an end makes no
//! more requests than the other's last LEASE allows, and none once that is over (RSocket 1.0,
//! "Lease Semantics"). At a tick a client sends a KEEPALIVE once its interval has passed, and a
//! peer from which nothing came for a lifetime counts as dead (RSocket 1.0, "KEEPALIVE Frame").
//! Metadata is pushed for the whole connection. Frames of unknown types are ignored where they may
//! be. [`refusal_frame`] is what a server gives on a connection that it refuses.
//!
//! # The modules, by stage
//!
//! An event is decided on, the frames that it makes are made, they are put in line, and only then
//! the state changes; the events that come most have short ways of their own.
//!
//! - What there is: `session`, the calls; `stepping`, the stages one after the other; `state`, what
//!   is kept of the entries, how it is prepared for an event and changed by it; `history`, the
//!   entries, which contracts alone see.
//! - Decide, on the answer: `judge` of any event, `asked` of a call, `came` of a frame, `resuming`
//!   of RESUME and RESUME_OK, `ticking` of a tick, and when the next is due.
//! - Make: `outgoing`, the frames of an event; `notices`, those of the connection; `turned_away`,
//!   the ERROR for a request that opens no stream; `sizes`, how long frames are; `arrivals`, what a
//!   frame brings, owned.
//! - Queue: `line`, what an event puts after the bytes that wait.
//! - Apply: `life`, the openings, the live connection, the SETUP and the end; `counting`, the
//!   positions; `kept`, the frames that are held for a resumption; `leasing`, the leases; `timing`,
//!   the timer; `gathering`, the parts of messages; `speak`, the streams.
//! - Short ways: `calling`, of any call; `taking`, of what waits; `sending`, of what a call says on a
//!   stream in one frame; `bringing` and `hearing`, of a message that comes whole; `parting`, of a
//!   cut; `quiet`, of a tick at which nothing is due.
//! - Shown: `counts`, of frames and their positions; `amounts`, the range of what an event grants;
//!   `refusal`, the frame that refuses a connection.
#![tactic(auto)]

mod amounts;
mod arrivals;
mod asked;
mod bringing;
mod calling;
mod came;
mod counting;
mod counts;
mod gathering;
mod hearing;
mod history;
mod judge;
mod kept;
mod leasing;
mod life;
mod line;
mod notices;
mod outgoing;
mod parting;
mod quiet;
mod refusal;
mod resuming;
mod sending;
mod session;
mod sizes;
mod speak;
mod state;
mod stepping;
mod taking;
mod ticking;
mod timing;
mod turned_away;

pub use counts::Counts;
pub use refusal::refusal_frame;
pub use session::Session;
