//! A client with the defaults whose session is begun, so that its SETUP is due on connection 1, and
//! a pump between it and a link in memory. An end is written for any tape, since a proof is dearer
//! the more types a function knows.

ghost use Rattle.std.specs.Prelude.{◌≡◌, ◌<◌, ◌≤◌, Ok};
ghost use Rattle.rs_wire.specs.Calls.{CanBeAsked};
ghost use Rattle.rs_wire.specs.declared.words.Side.TheVariants.{Client};

use conn::{Caller, Connection};
use outside::{After, MemClock, MemLink};
use pump::{Brought, Pump, Turned};
use rs_chunk::Reader;
use rs_wire::{Amount, Blob, Call, Checked, Kind, Message, Settings, Side, check};
use session_core::Session;
use std::alloc::Global;
use std::process::Abort;
use std::sync::Wait;
use tape::{Answer, Event, Tape};

/// A client, its pump, and the link and the clock of the pump. It is never let go: each trial ends by
/// [`close`](End::close).
pub struct End<T: Tape> {
    connection: Connection<T>,
    caller: Caller<T>,
    pump: Pump,
    link: MemLink,
    clock: MemClock,
    ghost of: { caller.of ≡ connection },
    ghost limit: { pump.max_in ≡ connection.settings.max_in },
}

// What was made. A fault that has no words stops the test, and is not let go.
fn made<R: Abort, T, E>(rt: &R, made: Result<T, E>) -> T
    ensures { made ≡ Ok result }
{
    match made {
        Ok(made) => made,
        Err(_) => panic!(rt; "it is not made"),
    }
}

// The defaults, but for a queue that is as small as it may be.
fn settings<R: Abort>(rt: &R, alloc: Global) -> Checked
    ensures { result.side ≡ Client }
{
    let mut settings = Settings::usual(alloc, Side::Client).expect(rt, "there is memory");
    settings.hold = 0;
    settings.slack = 0;
    made(rt, check(settings))
}

fn connected<R: Abort, T: Tape>(rt: &R, alloc: Global, tape: T) -> (Connection<T>, Caller<T>)
    requires empty { T.count tape ≡ 0 }
    ensures of { result.1.of ≡ result.0 }
    ensures side { result.0.settings.side ≡ Client }
{
    let session = made(rt, Session::new(alloc, settings(rt, alloc), tape));
    made(rt, Connection::new(alloc, session))
}

// Whether the one connection is opened.
fn is_opened(answer: &Answer) -> bool {
    matches!(answer, Answer::Opened(1))
}

// Begins the session of a client.
fn begin<R: Abort + Wait, T: Tape>(rt: &R, connection: &Connection<T>, caller: &mut Caller<T>)
    requires of { caller.old.of ≡ connection.now }
    requires side { connection.now.settings.side ≡ Client }
    ensures of { caller.new.of ≡ connection.now }
{
    let answer = connection.bring(rt, caller, Event::opening());
    let is_opened = is_opened(&answer);
    drop(answer);
    assert!(rt; is_opened);
}

/// A link that gives these bytes, moves `most` in a call, and fails in the call of that number; 0
/// for none.
pub fn link<R: Abort>(
    rt: &R,
    alloc: Global,
    bytes: &[u8],
    after: After,
    most: u32,
    fails: u64,
) -> MemLink
    requires { 0 < most }
{
    let bytes = Blob::from_slice(alloc, bytes).expect(rt, "there is memory");
    let fails = Vec::from_slice(alloc, &[fails]).expect(rt, "there is memory");
    MemLink::new(alloc, bytes, after, most, fails)
}

// A clock that gives 0, and then this moment again and again.
fn clock<R: Abort>(rt: &R, alloc: Global, later: u64) -> MemClock {
    let moments = Vec::from_slice(alloc, &[0, later]).expect(rt, "there is memory");
    assert!(rt; moments.len() == 2);
    MemClock::new(moments)
}

// A fire-and-forget request of this many bytes.
fn request<R: Abort>(rt: &R, alloc: Global, length: usize) -> Call
    requires { length ≤ 16000000 }
    ensures { CanBeAsked result }
{
    let content = vec![in alloc; 0u8; length].expect(rt, "there is memory");
    Call::fire_and_forget(Blob::from_vec(content))
}

// A request of a stream, which lets this many items in at first.
fn stream_request(alloc: Global, initial: Amount) -> Call
    ensures { CanBeAsked result }
{
    Call::Request {
        kind: Kind::Stream,
        initial: Some(initial),
        message: Message {
            metadata: None,
            content: Blob::from_vec(Vec::new(alloc)),
        },
        complete: false,
    }
}

// The id of the stream that a call started.
fn started(answer: &Answer) -> Option<u32> {
    match answer {
        Answer::Started(id) => Some(*id),
        _ => None,
    }
}

impl<T: Tape> End<T> {
    /// An end with this link and this tape, whose pump is for connection `conn`. The first tick is at
    /// 0, and each further one at `later`, in milliseconds.
    pub fn new<R: Abort + Wait>(
        rt: &R,
        alloc: Global,
        conn: u64,
        link: MemLink,
        later: u64,
        tape: T,
    ) -> End<T>
        requires empty { T.count tape ≡ 0 }
    {
        let (connection, mut caller) = connected(rt, alloc, tape);
        begin(rt, &connection, &mut caller);
        let reader = Reader::new(alloc, connection.max_in());
        let pump = Pump::new(alloc, conn, reader).expect(rt, "there is memory");
        let clock = clock(rt, alloc, later);
        End {
            connection,
            caller,
            pump,
            link,
            clock,
        }
    }

    /// One turn.
    pub fn turn<R: Wait>(&mut self, rt: &R) -> Turned {
        let (connection, clock) = (&self.connection, &self.clock);
        self.pump
            .turn(rt, connection, &mut self.caller, &mut self.link, clock)
    }

    /// Turns until this lull.
    pub fn run<R: Wait>(&mut self, rt: &R, lulls: u64) -> Turned {
        let (connection, clock) = (&self.connection, &self.clock);
        self.pump.run(
            rt,
            connection,
            &mut self.caller,
            &mut self.link,
            clock,
            lulls,
        )
    }

    /// Draws for a pump whose bytes are carried by other means than a link.
    pub fn draw<R: Wait>(&mut self, rt: &R, most: usize) -> Brought {
        let connection = &self.connection;
        self.pump.draw(rt, connection, &mut self.caller, most)
    }

    /// Brings the frames that were fed.
    pub fn hear<R: Wait>(&mut self, rt: &R) -> Brought {
        let connection = &self.connection;
        self.pump.hear(rt, connection, &mut self.caller)
    }

    /// Hands over bytes that were taken.
    pub fn feed<R: Abort>(&mut self, rt: &R, bytes: &[u8]) {
        self.pump.feed(bytes).expect(rt, "there is memory");
    }

    /// The bytes drawn and not given, which are given then.
    pub fn carry<R: Abort>(&mut self, rt: &R, bytes: &mut Vec<u8>) {
        bytes
            .extend_from_slice(self.pump.bytes())
            .expect(rt, "there is memory");
        self.pump.gave();
    }

    // Makes a call. The id of the stream that it starts.
    fn call<R: Wait>(&mut self, rt: &R, call: Call) -> Option<u32>
        requires { CanBeAsked call }
    {
        let answer = self.connection.call(rt, &mut self.caller, &call);
        let started = started(&answer);
        drop(answer);
        drop(call);
        started
    }

    /// Makes a fire-and-forget request of this many bytes. The id of the stream that it starts.
    pub fn ask<R: Abort + Wait>(&mut self, rt: &R, alloc: Global, length: usize) -> Option<u32>
        requires { length ≤ 16000000 }
    {
        let call = request(rt, alloc, length);
        self.call(rt, call)
    }

    /// Asks for a stream, and lets one item in. The id of the stream.
    pub fn ask_item<R: Abort + Wait>(&mut self, rt: &R, alloc: Global) -> Option<u32> {
        let one = Amount::of(1).expect(rt, "1 is an amount");
        self.call(rt, stream_request(alloc, one))
    }

    /// The tape, once the connection is closed.
    pub fn close<R: Abort>(self, rt: &R) -> T {
        let End {
            connection,
            caller,
            pump,
            link,
            clock,
        } = self;
        drop(pump);
        drop(link);
        drop(clock);
        made(rt, connection.close(caller)).into_tape()
    }

    /// How many bytes were taken from the link.
    pub fn taken(&self) -> usize {
        self.link.taken().len()
    }

    /// What the link was given.
    pub fn given(&self) -> &[u8] {
        self.link.given()
    }

    /// How many bytes are drawn and not given.
    pub fn left(&self) -> usize {
        self.pump.left()
    }
}

/// Stops the test where a turn came to something else than it should.
pub fn compare<R: Abort>(rt: &R, turned: Turned, wanted: Turned) {
    assert_eq!(rt; turned, wanted);
}
