//! A connection between two ends, and what the server does on it.

ghost use Rattle.std.specs.Prelude.{◌≡◌, ◌<◌, ◌^◌, [], false, IfOk, OnOk, length};
ghost use Rattle.rs_wire.specs.declared.words.Side.TheVariants.{Server};
ghost use Rattle.rs_wire.specs.declared.settings.Settings.{Settings as Limits};
ghost use Rattle.cable.specs.Played.{Ends, There, cuts_there};
ghost use Rattle.cable.specs.Wires.{Arrives, Gave, IsServerAt, ServerAt, dropped_by, wire_of};

use crate::bringing::cut;
use crate::carrying::{Most, carry, offer};
use crate::hearing::{Crossing, Known, hear, meet};
use rs_chunk::Reader;
use rs_wire::OutOfMemory;
use session_core::Session;
use std::alloc::Global;
use tape::{Answer, Tape};

/// A connection, which the client opened.
#[derive(Drop)]
pub(crate) struct Wire {
    /// Its number at the client.
    pub client: u64,
    /// What the server knows of it.
    pub known: Known,
    /// What crossed to the server.
    pub up: Crossing,
    /// What crossed to the client.
    pub down: Crossing,
}

fn crossing(alloc: Global, max_in: u32) -> Crossing
    ensures { result ≡ record { rest = record { bytes = []; max_in = max_in }; over = false } }
{
    Crossing {
        rest: Reader::new(alloc, max_in),
        over: false,
    }
}

/// The connection that the client's answer opens, between a client and a server that take frames
/// of so many bytes.
pub(crate) fn wire_of(alloc: Global, answer: &Answer, up_max: u32, down_max: u32) -> Option<Wire>
    ensures { result ≡ wire_of answer.now up_max down_max }
{
    let Answer::Opened(client) = answer else {
        return None;
    };
    Some(Wire {
        client: *client,
        known: Known::Nothing,
        up: crossing(alloc, up_max),
        down: crossing(alloc, down_max),
    })
}

// The first frame opens the connection at the server, which then hears what crossed after it:
// whether it heard something.
fn greet<T: Tape>(
    alloc: Global,
    server: &mut Session<T>,
    wire: &mut Wire,
) -> Result<bool, OutOfMemory>
    requires side { server.old.settings.side ≡ Server }
    requires at { (g : Limits) × (r : Ends) × ServerAt g r There.Nowhere server.old wire.old }
    ensures server { server.new ≡
        record server.old { entries = server.new.entries; spare = server.new.spare } }
    ensures arrived { (g : Limits) (r : Ends) → ServerAt g r There.Nowhere server.old wire.old →
        IfOk result (Arrives g r There.Nowhere server.old server.new wire.old wire.new) }
{
    wire.known = meet(alloc, server, &mut wire.up)?;
    match wire.known {
        Known::Nothing => Ok(false),
        Known::Accepted(conn) => {
            hear(alloc, server, conn, &mut wire.up)?;
            Ok(true)
        }
        Known::Refused(_) => Ok(true),
    }
}

/// The server hears what crossed, and nothing on a connection that it refused: whether it heard
/// something.
pub(crate) fn arrive<T: Tape>(
    alloc: Global,
    server: &mut Session<T>,
    wire: &mut Wire,
) -> Result<bool, OutOfMemory>
    requires side { server.old.settings.side ≡ Server }
    requires at { IsServerAt server.old wire.old }
    ensures server { server.new ≡
        record server.old { entries = server.new.entries; spare = server.new.spare } }
    ensures arrived { (g : Limits) (r : Ends) (t : There) → ServerAt g r t server.old wire.old →
        IfOk result (Arrives g r t server.old server.new wire.old wire.new) }
{
    match wire.known {
        Known::Nothing => greet(alloc, server, wire),
        Known::Accepted(conn) => hear(alloc, server, conn, &mut wire.up),
        Known::Refused(_) => {
            wire.up.rest = Reader::new(alloc, 0);
            Ok(false)
        }
    }
}

/// The server gives what it can, and lets it cross: whether it gave something.
pub(crate) fn give<T: Tape>(
    server: &mut Session<T>,
    wire: &mut Wire,
    most: Most,
    buffer: &mut [u8],
) -> Result<bool, OutOfMemory>
    requires some { 0 < length buffer.old }
    requires few { length buffer.old < 2 ^ 32 }
    requires at { IsServerAt server.old wire.old }
    ensures server { server.new ≡
        record server.old { entries = server.new.entries; spare = server.new.spare } }
    ensures gave { (g : Limits) (r : Ends) (t : There) → ServerAt g r t server.old wire.old →
        IfOk result (Gave most g r t server.old server.new wire.old wire.new) }
{
    match &mut wire.known {
        Known::Nothing => Ok(false),
        Known::Accepted(conn) => carry(server, *conn, most, buffer, &mut wire.down.rest),
        Known::Refused(left) => offer(left, most, &mut wire.down.rest),
    }
}

/// The server cuts a connection that it accepted and that is live.
pub(crate) fn cut_there<T: Tape>(server: &mut Session<T>, wire: &Wire) -> Result<(), OutOfMemory>
    requires at { IsServerAt server.old wire.now }
    ensures server { server.new ≡
        record server.old { entries = server.new.entries; spare = server.new.spare } }
    ensures cut { (g : Limits) (r : Ends) (t : There) → ServerAt g r t server.old wire.now →
        OnOk result (server.new.entries ≡
        cuts_there server.old.settings t server.old.entries) }
{
    match wire.known {
        Known::Accepted(conn) if server.live() == conn => cut(server, conn),
        _ => Ok(()),
    }
}

/// The last connection that the client alone gave up, once it gives up this one.
pub(crate) fn dropped_after(wire: &Wire, before: Option<u64>) -> Option<u64>
    ensures { result ≡ dropped_by wire.now.known before }
{
    match wire.known {
        Known::Accepted(conn) => Some(conn),
        _ => before,
    }
}
