//! A link over WebSocket (RFC 6455): one binary message is one frame, without a length (RSocket 1.0,
//! "Framing Protocol Usage").
//!
//! A [`WsEnd`] gives and takes bytes with length fields as every link does. It sends each whole frame
//! that it is given as one binary message, and what it is given of a frame that is not whole yet
//! waits. Each binary message that comes is taken as one frame after its length. The promise to the
//! layer above: no message is split, joined or changed, only pings and pongs are passed over, and
//! each call that fails, lulls, stalls or meets the end is counted once, and no other call is.
//!
//! [`serve`] and [`ask`] do the handshakes over a TCP socket, in a bounded time.
//!
//! Left out: text messages, extensions and subprotocols. A client's masking keys are those of a
//! generator; no contract says that they are hard to guess.
#![tactic(auto)]

mod coming;
mod handshake;
mod keys;
mod sending;
mod sizes;
mod ws_end;

pub use handshake::{HandshakeFault, ask, serve};
pub use keys::ClientKeys;
pub use sizes::{MOST_FRAME, limits};
pub use ws_end::WsEnd;
