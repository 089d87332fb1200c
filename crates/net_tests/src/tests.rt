//! The net and the clock of the host.

mod addresses;
mod crossing;
mod handshakes;
mod links;
mod times;
