//! The carrier, and how it begins.

ghost use Rattle.std.specs.Prelude.{◌≡◌, [], None};
ghost use Rattle.rtrb.specs.Ring.{received, sent};
ghost use Rattle.threaded_client.specs.Carrying.{IsCarrying};

use conn::Caller;
use pump::Pump;
use ring::Item;
use rtrb::{Consumer, Producer};
use tape::Tape;

/// The carrier of the client: its caller, its ends of the two rings, and the connection that joins the
/// ends.
#[derive(Drop)]
pub struct ClientCarrier<T: Tape> {
    /// The caller, whose entries are openings, cuts, moments, draws and what came.
    pub caller: Caller<T>,
    /// The ring into which it pushes.
    pub out: Producer<Item>,
    /// The ring from which it reads.
    pub from: Consumer<Item>,
    /// The number of the connection that joins the ends, where one does.
    pub conn: u64,
    /// The pump of that connection; none where no connection joins the ends.
    pub pump: Option<Pump>,
}

impl<T: Tape> ClientCarrier<T> {
    /// A carrier that has done nothing yet.
    pub fn new(caller: Caller<T>, out: Producer<Item>, from: Consumer<Item>) -> ClientCarrier<T>
        ensures value { result ≡ record {
          caller = caller;
          out = out;
          from = from;
          conn = 0;
          pump = None;
        } }
        ensures carries { caller.front ≡ [] → sent out ≡ [] → received from ≡ [] →
            IsCarrying caller [] None (sent out) (received from) }
    {
        ClientCarrier {
            caller,
            out,
            from,
            conn: 0,
            pump: None,
        }
    }
}
