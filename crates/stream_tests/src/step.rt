//! Steps and answers in short, for the tables.

use rs_wire::{Amount, Blob, Call, Delivery, Job, Kind, Message, Refusal, Way};
use std::alloc::Global;
use std::process::Abort;
use stream_model::{Arrival, Effect, State};

/// What a caller of an end does. A payload, also that of a request, has one byte.
#[derive(Clone, Copy)]
pub enum Act {
    /// Makes a request: its kind, its initial n, 0 for none, and whether nothing more follows.
    Request(Kind, u32, bool),
    /// Sends a payload on a stream, the last one where that is true.
    Next(u32, bool),
    /// Sends nothing more on a stream.
    Done(u32),
    /// Grants so many items more on a stream.
    Grant(u32, u32),
    /// Wants nothing more of a stream.
    Cancel(u32),
    /// Ends a stream by error 513 with two bytes.
    Fail(u32),
}

/// What an end says to the other one.
#[derive(Clone, Copy)]
pub enum Said {
    /// A request on a stream, its kind, its initial n, 0 for none, and whether nothing more
    /// follows, or none where fragments follow.
    Request(u32, Kind, u32, Option<bool>),
    /// A message on a stream, whether nothing more follows, and whether it is an item.
    Message(u32, bool, bool),
    /// So many items more are granted on a stream.
    Grant(u32, u32),
    /// Nothing more is wanted of a stream.
    Cancel(u32),
    /// A stream ends by error 513 with two bytes.
    Fail(u32),
    /// A request on a stream, which its lease does not cover.
    Over(u32),
    /// One byte of metadata for the connection.
    Push,
}

/// What is done at an end.
#[derive(Clone, Copy)]
pub enum Step {
    /// Its caller acts.
    Does(Act),
    /// What the other end said first, of what is under way, comes.
    Hears,
    /// This comes, which no caller of the other end said.
    Comes(Said),
    /// Its caller takes what waits on a stream.
    Takes(u32),
    /// Its caller takes a job.
    TakesJob,
    /// It is asked for the state of a stream.
    TellsState(u32),
    /// It is asked for the credit of a way of a stream.
    TellsCredit(u32, Way),
}

/// The answer to a step.
#[derive(Clone, Copy, PartialEq, Eq)]
pub enum Answer {
    /// The call acted on this stream.
    Did(u32),
    /// The call is refused.
    Refused(Refusal),
    /// What came has this effect.
    Had(Effect),
    /// An item of so many bytes.
    Item(usize),
    /// Nothing more comes.
    Complete,
    /// An error of this code, with so many bytes.
    Error(u32, usize),
    /// The peer wants nothing more.
    Canceled,
    /// A job: its stream, its kind, its initial n, 0 for none, and whether nothing more follows.
    Job(u32, Kind, u32, bool),
    /// A job of so many bytes of metadata.
    Pushed(usize),
    /// Nothing waits.
    Nothing,
    /// The state of a stream.
    State(State),
    /// The credit of a way: granted, and left.
    Credit(Option<(u128, u128)>),
}

fn bytes(rt: &impl Abort, alloc: Global, text: &str) -> Blob {
    Blob::from_slice(alloc, text.as_bytes()).expect(rt, "there is memory")
}

fn message(rt: &impl Abort, alloc: Global) -> Message {
    Message {
        metadata: None,
        content: bytes(rt, alloc, "b"),
    }
}

fn number(initial: Option<Amount>) -> u32 {
    match initial {
        None => 0,
        Some(n) => n.get(),
    }
}

impl Act {
    /// The call.
    pub fn call(self, rt: &impl Abort, alloc: Global) -> Call {
        match self {
            Act::Request(kind, n, complete) => Call::Request {
                kind,
                initial: Amount::of(n),
                message: message(rt, alloc),
                complete,
            },
            Act::Next(stream, complete) => Call::Next {
                stream,
                message: message(rt, alloc),
                complete,
            },
            Act::Done(stream) => Call::Done { stream },
            Act::Grant(stream, n) => Call::Grant {
                stream,
                n: Amount::of(n).expect(rt, "an amount"),
            },
            Act::Cancel(stream) => Call::Cancel { stream },
            Act::Fail(stream) => Call::Fail {
                stream,
                code: 513,
                content: bytes(rt, alloc, "oo"),
            },
        }
    }

    /// What the peer is said by it, on that stream.
    pub fn said(self, stream: u32) -> Said {
        match self {
            Act::Request(kind, n, complete) => Said::Request(stream, kind, n, Some(complete)),
            Act::Next(_, complete) => Said::Message(stream, complete, true),
            Act::Done(_) => Said::Message(stream, true, false),
            Act::Grant(_, n) => Said::Grant(stream, n),
            Act::Cancel(_) => Said::Cancel(stream),
            Act::Fail(_) => Said::Fail(stream),
        }
    }
}

impl Said {
    /// The arrival at the other end.
    pub fn arrival(self, rt: &impl Abort, alloc: Global) -> Arrival {
        match self {
            Said::Request(stream, kind, n, whole) => Arrival::Asked {
                stream,
                kind,
                initial: Amount::of(n),
                whole: match whole {
                    None => None,
                    Some(complete) => Some((message(rt, alloc), complete)),
                },
            },
            Said::Message(stream, complete, next) => Arrival::Whole {
                stream,
                message: message(rt, alloc),
                complete,
                next,
            },
            Said::Grant(stream, n) => Arrival::Granted {
                stream,
                n: Amount::of(n).expect(rt, "an amount"),
            },
            Said::Cancel(stream) => Arrival::Canceled { stream },
            Said::Fail(stream) => Arrival::Failed {
                stream,
                code: 513,
                content: bytes(rt, alloc, "oo"),
            },
            Said::Over(stream) => Arrival::PassedOver { stream },
            Said::Push => Arrival::Pushed {
                metadata: bytes(rt, alloc, "m"),
            },
        }
    }
}

impl Answer {
    /// What was taken of a stream.
    pub fn taken(delivery: &Option<Delivery>) -> Answer {
        match delivery {
            None => Answer::Nothing,
            Some(Delivery::Item(message)) => Answer::Item(message.content.len()),
            Some(Delivery::Complete) => Answer::Complete,
            Some(Delivery::Error { code, content }) => Answer::Error(*code, content.len()),
            Some(Delivery::Canceled) => Answer::Canceled,
        }
    }

    /// The job that was taken.
    pub fn job(job: &Option<Job>) -> Answer {
        match job {
            None => Answer::Nothing,
            Some(
                Job::Asked {
                    stream,
                    kind,
                    initial,
                    complete,
                    ..
                },
            ) => Answer::Job(*stream, *kind, number(*initial), *complete),
            Some(Job::Pushed { metadata }) => Answer::Pushed(metadata.len()),
        }
    }
}
