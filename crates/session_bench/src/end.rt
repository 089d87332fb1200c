//! One end: a session with a tape that keeps nothing, a pump, and a link.

ghost use Rattle.std.specs.Prelude.{◌≡◌, ◌<◌, ◌^◌, IfOk, length};
ghost use Rattle.rs_wire.specs.Calls.{CanBeAsked};
ghost use Rattle.rs_wire.specs.declared.words.Side.TheVariants.{Client, Server};
ghost use Rattle.conn_lock.specs.Callers.{all_parts};
ghost use Rattle.session_model.specs.Legal.{CanBring};
ghost use Rattle.session_core.specs.Seen.{IsNoDrawEvent};

use crate::sessions::{close, new_connection};
use anyhow::{Context, Result, bail, ensure};
use conn::{Caller, Connection};
use outside::{Link, MemClock};
use pump::{Pump, Turned};
use rs_chunk::{Reader, split_frame};
use rs_frame::decode;
use rs_wire::{Call, Delivery, Job, Side};
use std::alloc::Global;
use std::sync::Wait;
use tape::{Answer, Blank, Event};

/// The number of the one connection, at both ends.
const CONNECTION: u64 = 1;

/// What an end answers to a call, as far as it matters here.
#[derive(Clone, Copy, Debug, PartialEq, Eq)]
pub enum Said {
    /// The request is made, on this stream.
    Started(u32),
    /// The peer made a request, on this stream.
    Asked(u32),
    /// The call is done.
    Done,
    /// An item is taken.
    Item,
    /// The end of a stream is taken.
    Complete,
}

fn said_by(answer: &Answer) -> Option<Said> {
    match answer {
        Answer::Started(stream) => Some(Said::Started(*stream)),
        Answer::GotJob(Job::Asked { stream, .. }) => Some(Said::Asked(*stream)),
        Answer::Done => Some(Said::Done),
        Answer::Got(Delivery::Item(_)) => Some(Said::Item),
        Answer::Got(Delivery::Complete) => Some(Said::Complete),
        _ => None,
    }
}

/// An end without its link. Its clock stands still. It ends by being closed, since a session that is let
/// go is dear to prove.
pub struct Unlinked {
    connection: Connection<Blank>,
    caller: Caller<Blank>,
    pump: Pump,
    clock: MemClock,
    ghost of: { caller.of ≡ connection },
    ghost whole: { caller.parts ≡ all_parts },
    ghost limit: { pump.max_in ≡ connection.settings.max_in },
}

// Whether the one connection is opened.
fn is_opened(answer: &Answer) -> bool {
    matches!(answer, Answer::Opened(CONNECTION))
}

// A pump to which these bytes came.
fn pump_for(alloc: Global, max_in: u32, bytes: &[u8]) -> Result<Pump>
    requires short { max_in < 2 ^ 24 }
    ensures { IfOk result (λ pump. pump.max_in ≡ max_in) }
{
    let mut reader = Reader::new(alloc, max_in);
    match reader.feed(bytes) {
        Ok(()) => Ok(Pump::new(alloc, CONNECTION, reader)?),
        Err(error) => {
            drop(reader);
            Err(error.into())
        }
    }
}

// A clock that stands still.
fn still(alloc: Global) -> Result<MemClock> {
    let moments = vec![in alloc; 0u64; 1]?;
    Ok(MemClock::new(moments))
}

// A session that is not begun, to whose connection these bytes came.
fn unbegun(alloc: Global, side: Side, resumes: bool, bytes: &[u8]) -> Result<Unlinked>
    ensures { IfOk result (λ end. end.connection.settings.side ≡ side) }
{
    let clock = still(alloc)?;
    let (connection, caller) = new_connection(alloc, side, resumes)?;
    match pump_for(alloc, connection.max_in(), bytes) {
        Ok(pump) => Ok(Unlinked {
            connection,
            caller,
            pump,
            clock,
        }),
        Err(error) => {
            close(connection, caller);
            drop(clock);
            Err(error)
        }
    }
}

// The end, where it opened.
fn opened(end: Unlinked, opened: Result<()>) -> Result<Unlinked> {
    match opened {
        Ok(()) => Ok(end),
        Err(error) => {
            end.close();
            Err(error)
        }
    }
}

impl Unlinked {
    // Opens the session by this event.
    fn open<R: Wait>(&mut self, rt: &R, event: Event) -> Result<()>
        requires fair { CanBring self.old.connection.settings event }
        requires no_draw { IsNoDrawEvent event }
    {
        let answer = self.connection.bring(rt, &mut self.caller, event);
        let is_opened = is_opened(&answer);
        drop(answer);
        ensure!(is_opened, "not opened");
        Ok(())
    }

    // Opens the session of a client.
    fn ask_to_open<R: Wait>(&mut self, rt: &R) -> Result<()>
        requires side { self.old.connection.settings.side ≡ Client }
    {
        self.open(rt, Event::opening())
    }

    // Opens that of a server by the frame of these bytes.
    fn open_by<R: Wait>(&mut self, rt: &R, alloc: Global, setup: &[u8]) -> Result<()>
        requires side { self.old.connection.settings.side ≡ Server }
        requires few { length setup.now < 2 ^ 24 }
    {
        let frame = decode(alloc, setup)?;
        self.open(rt, Event::opened_by(frame))
    }

    /// A client, whose SETUP is due, and asks for resumption or not.
    pub fn client<R: Wait>(rt: &R, alloc: Global, resumes: bool) -> Result<Unlinked> {
        let mut end = unbegun(alloc, Side::Client, resumes, &[])?;
        let begun = end.ask_to_open(rt);
        opened(end, begun)
    }

    /// A server, which the first frame of these bytes opens; the others come next. It agrees to
    /// resumption or not.
    pub fn server<R: Wait>(rt: &R, alloc: Global, resumes: bool, bytes: &[u8]) -> Result<Unlinked> {
        let (setup, rest) = split_frame(bytes).context("no SETUP")?;
        let mut end = unbegun(alloc, Side::Server, resumes, rest)?;
        let begun = end.open_by(rt, alloc, setup);
        opened(end, begun)
    }

    // Closes the session.
    fn close(self) {
        let Unlinked {
            connection,
            caller,
            pump,
            clock,
        } = self;
        close(connection, caller);
        drop(pump);
        drop(clock);
    }
}

/// One end, which ends by being closed.
pub struct End<L> {
    /// What it works by.
    pub unlinked: Unlinked,
    /// Its link.
    pub link: L,
}

impl<L: Link> End<L> {
    /// One turn of the pump, after which it goes on. Whether bytes moved.
    pub fn turn<R: Wait>(&mut self, rt: &R) -> Result<bool> {
        let end = &mut self.unlinked;
        let turned = end.pump.turn(
            rt,
            &end.connection,
            &mut end.caller,
            &mut self.link,
            &end.clock,
        );
        match turned {
            Turned::Moved { .. } => Ok(true),
            Turned::Busy(_) | Turned::Lull => Ok(false),
            _ => bail!("a turn is {turned:?}"),
        }
    }

    /// A caller asks something. `None` where the end refuses.
    pub fn ask<R: Wait>(&mut self, rt: &R, call: Call) -> Option<Said>
        requires { CanBeAsked call }
    {
        let end = &mut self.unlinked;
        let answer = end.connection.call(rt, &mut end.caller, &call);
        let said = said_by(&answer);
        drop(answer);
        drop(call);
        said
    }
}

impl<L: Link + Drop> End<L> {
    /// Closes the session, and then the link.
    pub fn close(self) {
        let End { unlinked, link } = self;
        unlinked.close();
        drop(link);
    }
}
