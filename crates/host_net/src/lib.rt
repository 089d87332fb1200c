//! The net and the clock of the host.
//!
//! A [`HostNet`] opens TCP sockets, and does the WebSocket handshake where it is asked to. It shows
//! its counts alone: no contract knows what the system does. A [`HostClock`] gives milliseconds since
//! it was made. The promise to the layer above: a link is handed out with nothing counted, as many
//! are out as were handed out and not put back, and each call that fails is counted once.
//!
//! Left out: which peer an address is, TLS, and any time limit on a name that the system looks up.
#![tactic(auto)]

mod clock;
mod connecting;
mod link;
mod net;

pub use clock::HostClock;
pub use link::HostLink;
pub use net::HostNet;
