//! A pump at each end of a link over WebSocket. Each end is written for any tape, since a proof is
//! dearer the more types a function knows.

ghost use Rattle.std.specs.Prelude.{◌≡◌, ◌<◌, ◌^◌, Ok, length};
ghost use Rattle.rs_wire.specs.Calls.{CanBeAsked};
ghost use Rattle.rs_wire.specs.declared.words.Side.TheVariants.{Client, Server};
ghost use Rattle.rs_frame.specs.Spelling.{IsSpellable};
ghost use Rattle.session_model.specs.Legal.{CanBring};
ghost use Rattle.session_core.specs.Seen.{IsNoDrawEvent};

use super::stream::{end_over, let_go, streams, take};
use conn::{Caller, Connection};
use outside::{Link, MemClock, Taken};
use pump::{Pump, Turned};
use rs_chunk::{Reader, split_frame};
use rs_frame::{Frame, decode};
use rs_wire::{Blob, Call, Checked, Job, Settings, Side, check as check_settings};
use session_core::Session;
use std::alloc::Global;
use std::process::Abort;
use std::sync::Wait;
use tape::{Answer, Blank, Event, Tape};
use tungstenite::Role;

/// What stands before the SETUP of 68 bytes of a client: a binary message in one masked frame, and
/// its length in one byte. A key of 4 bytes follows.
const SETUP_HEAD: [u8; 2] = [0x82, 0x80 | 68];

/// And before its request of 8 bytes.
const REQUEST_HEAD: [u8; 2] = [0x82, 0x80 | 8];

/// The SETUP and the request, each after its length.
const FRAMES: usize = 82;

// What was made. A fault that has no words stops the test, and is not let go.
fn made<R: Abort, T, E>(rt: &R, made: Result<T, E>) -> T
    ensures { made ≡ Ok result }
{
    match made {
        Ok(made) => made,
        Err(_) => panic!(rt; "it is not made"),
    }
}

// The defaults of a side.
fn defaults<R: Abort>(rt: &R, alloc: Global, side: Side) -> Checked
    ensures { result.side ≡ side }
{
    let settings = Settings::usual(alloc, side).expect(rt, "there is memory");
    made(rt, check_settings(settings))
}

// A connection whose session is not begun.
fn connected<R: Abort, T: Tape>(
    rt: &R,
    alloc: Global,
    side: Side,
    tape: T,
) -> (Connection<T>, Caller<T>)
    requires empty { T.count tape ≡ 0 }
    ensures of { result.1.of ≡ result.0 }
    ensures side { result.0.settings.side ≡ side }
{
    let session = made(rt, Session::new(alloc, defaults(rt, alloc, side), tape));
    made(rt, Connection::new(alloc, session))
}

// The tape of a connection. Both ends end so: a session that is let go is dear to prove.
fn close<R: Abort, T: Tape>(rt: &R, connection: Connection<T>, caller: Caller<T>) -> T
    requires of { caller.of ≡ connection }
{
    made(rt, connection.close(caller)).into_tape()
}

/// What an answer is to be.
#[derive(Clone, Copy)]
enum Wanted {
    /// The first opening.
    Opened,
    /// A request started on the first stream.
    Started,
    /// A job of `hi`.
    Hi,
}

fn is_hi(answer: &Answer) -> bool {
    match answer {
        Answer::GotJob(Job::Asked { message, .. }) => {
            message.content.as_slice() == b"hi".as_slice()
        }
        _ => false,
    }
}

fn is(answer: &Answer, wanted: Wanted) -> bool {
    match wanted {
        Wanted::Opened => matches!(answer, Answer::Opened(1)),
        Wanted::Started => matches!(answer, Answer::Started(1)),
        Wanted::Hi => is_hi(answer),
    }
}

// Stops the test where an answer is another than the wanted one.
fn check<R: Abort>(rt: &R, answer: Answer, wanted: Wanted) {
    let right = is(&answer, wanted);
    drop(answer);
    assert!(rt; right);
}

// Opens the session by this event.
fn open<R: Abort + Wait, T: Tape>(
    rt: &R,
    connection: &Connection<T>,
    caller: &mut Caller<T>,
    event: Event,
)
    requires of { caller.old.of ≡ connection.now }
    requires fair { CanBring connection.now.settings event }
    requires no_draw { IsNoDrawEvent event }
    ensures of { caller.new.of ≡ connection.now }
{
    check(rt, connection.bring(rt, caller, event), Wanted::Opened);
}

// Makes this call, to which the answer is the wanted one.
fn ask<R: Abort + Wait, T: Tape>(
    rt: &R,
    connection: &Connection<T>,
    caller: &mut Caller<T>,
    call: Call,
    wanted: Wanted,
)
    requires of { caller.old.of ≡ connection.now }
    requires askable { CanBeAsked call }
    ensures of { caller.new.of ≡ connection.now }
{
    let answer = connection.call(rt, caller, &call);
    drop(call);
    check(rt, answer, wanted);
}

// A pump to which these bytes came.
fn pump_for<R: Abort>(rt: &R, alloc: Global, max_in: u32, came: &[u8]) -> Pump
    requires short { max_in < 2 ^ 24 }
    ensures { result.max_in ≡ max_in }
{
    let mut reader = Reader::new(alloc, max_in);
    assert!(rt; reader.feed(came).is_ok());
    Pump::new(alloc, 1, reader).expect(rt, "there is memory")
}

// A clock that stands still.
fn clock<R: Abort>(rt: &R, alloc: Global) -> MemClock {
    let moments = Vec::from_slice(alloc, &[0]).expect(rt, "there is memory");
    assert!(rt; moments.len() == 1);
    MemClock::new(moments)
}

// One turn over a link, of a pump to which these bytes came: so many bytes are given, and none taken.
fn turn<R: Abort + Wait, T: Tape, L: Link>(
    rt: &R,
    alloc: Global,
    connection: &Connection<T>,
    caller: &mut Caller<T>,
    came: &[u8],
    link: &mut L,
    given: u32,
)
    requires of { caller.old.of ≡ connection.now }
    ensures of { caller.new.of ≡ connection.now }
{
    let mut pump = pump_for(rt, alloc, connection.max_in(), came);
    let clock = clock(rt, alloc);
    let turned = pump.turn(rt, connection, caller, link, &clock);
    drop(pump);
    drop(clock);
    assert!(rt; turned == Turned::Moved { given, taken: 0 });
}

// A client with this tape gives its SETUP and a request of `hi` to this link.
fn ask_over<R: Abort + Wait, T: Tape, L: Link>(rt: &R, alloc: Global, tape: T, link: &mut L) -> T
    requires empty { T.count tape ≡ 0 }
{
    let (client, mut caller) = connected(rt, alloc, Side::Client, tape);
    open(rt, &client, &mut caller, Event::opening());
    let content = Blob::from_slice(alloc, b"hi").expect(rt, "there is memory");
    let call = Call::fire_and_forget(content);
    ask(rt, &client, &mut caller, call, Wanted::Started);
    turn(rt, alloc, &client, &mut caller, &[], link, FRAMES as u32);
    close(rt, client, caller)
}

// The frame that the bytes spell.
fn frame<R: Abort>(rt: &R, alloc: Global, bytes: &[u8]) -> Frame
    requires { length bytes.now < 2 ^ 24 }
    ensures { IsSpellable result }
{
    decode(alloc, bytes).expect(rt, "the bytes spell a frame")
}

// A server with this tape takes the request, where the bytes of both frames came.
fn answer_over<R: Abort + Wait, T: Tape, L: Link>(
    rt: &R,
    alloc: Global,
    tape: T,
    came: &[u8],
    link: &mut L,
) -> T
    requires empty { T.count tape ≡ 0 }
{
    let Some((setup, rest)) = split_frame(came) else {
        panic!(rt; "no SETUP came");
    };
    assert!(rt; setup.len() == 68 && rest.len() == 11);
    let (server, mut caller) = connected(rt, alloc, Side::Server, tape);
    let event = Event::opened_by(frame(rt, alloc, setup));
    open(rt, &server, &mut caller, event);
    turn(rt, alloc, &server, &mut caller, rest, link, 0);
    ask(rt, &server, &mut caller, Call::TakeJob, Wanted::Hi);
    close(rt, server, caller)
}

// What a client sends: two messages.
fn sent<R: Abort + Wait>(rt: &R, alloc: Global) -> Vec<u8> {
    let (near, mut heard) = streams(rt, alloc, 4096);
    let mut link = end_over(rt, alloc, Role::Client, near);
    ask_over(rt, alloc, Blank::new(), &mut link);
    let bytes = heard.drain(rt, alloc);
    drop(heard);
    let_go(link);
    assert!(rt; bytes.len() == FRAMES + 6);
    bytes
}

// A server takes as many bytes as both frames have, and then answers them.
fn take_and_answer<R: Abort + Wait, T: Tape, L: Link>(
    rt: &R,
    alloc: Global,
    tape: T,
    link: &mut L,
) -> T
    requires empty { T.count tape ≡ 0 }
{
    let mut buffer = [0; FRAMES];
    take(rt, link, &mut buffer, Taken::Took(FRAMES));
    answer_over(rt, alloc, tape, &buffer, link)
}

#[test]
fn a_setup_and_a_request_are_two_messages(rt: HostRuntime) {
    let alloc = rt.alloc();
    let bytes = sent(&rt, alloc);
    let second = bytes.get(74..).unwrap_or(&[]);
    assert!(rt; bytes.starts_with(&SETUP_HEAD) && second.starts_with(&REQUEST_HEAD));
    let (mut told, far) = streams(&rt, alloc, 4096);
    told.feed(&rt, &bytes);
    let mut link = end_over(&rt, alloc, Role::Server, far);
    take_and_answer(&rt, alloc, Blank::new(), &mut link);
    let_go(link);
    drop(told);
    drop(bytes);
}
