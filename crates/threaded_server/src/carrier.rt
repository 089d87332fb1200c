//! The carrier, and how it begins.

ghost use Rattle.std.specs.Prelude.{◌≡◌, []};
ghost use Rattle.rtrb.specs.Ring.{received, sent};
ghost use Rattle.threaded_server.specs.Carrying.{IsCarrying, IsSound};

use crate::knows::Knows;
use conn::{Caller, Connection};
use ring::Item;
use rs_chunk::Reader;
use rtrb::{Consumer, Producer};
use std::alloc::Global;
use tape::Tape;

/// The carrier of the server: its caller, its ends of the two rings, and what it knows of the connection
/// that joins the ends.
#[derive(Drop)]
pub struct ServerCarrier<T: Tape> {
    /// The caller, whose entries are openings, cuts, moments, draws and what came.
    pub caller: Caller<T>,
    /// The ring into which it pushes.
    pub out: Producer<Item>,
    /// The ring from which it reads.
    pub from: Consumer<Item>,
    /// What it knows of the connection that joins the ends.
    pub knows: Knows,
}

impl<T: Tape> ServerCarrier<T> {
    /// A carrier that has done nothing yet.
    pub fn new(
        alloc: Global,
        connection: &Connection<T>,
        caller: Caller<T>,
        out: Producer<Item>,
        from: Consumer<Item>,
    ) -> ServerCarrier<T>
        ensures caller { result.caller ≡ caller }
        ensures out { result.out ≡ out }
        ensures from { result.from ≡ from }
        ensures sound { IsSound connection.now.settings result.knows }

        // Where nothing happened yet, it has followed no line.
        ensures begun { caller.front ≡ [] → sent out ≡ [] → received from ≡ [] →
            IsCarrying caller [] result.knows [] [] }
    {
        ServerCarrier {
            caller,
            out,
            from,
            knows: Knows::Nothing(Reader::new(alloc, connection.max_in())),
        }
    }
}
