//! What an answer is to be.

use rs_wire::{Cause, Delivery, Job, Kind, Refusal};
use std::process::Abort;
use tape::Answer;

/// What an answer is to be.
#[derive(Clone, Copy)]
pub enum Wanted {
    /// The first opening.
    Opened,
    /// A frame is handled.
    Handled,
    /// A call is done.
    Done,
    /// The stream of this id started.
    Started(u32),
    /// So many bytes are drawn.
    Drawn(u32),
    /// The job of a fire-and-forget of `hi` on stream 1.
    Fnf,
    /// Any job.
    Job,
    /// The item of this number, in 4 bytes, the high one first.
    Item(u32),
    /// The end of a stream.
    End,
    /// There is nothing to take yet.
    NotYet,
    /// There is no credit for an item.
    NoCredit,
    /// There is no such stream.
    UnknownStream,
    /// A caller of this end closed the session.
    Closed,
}

// Whether the answer is the job of a fire-and-forget of `hi` on stream 1.
fn is_fnf(answer: &Answer) -> bool {
    match answer {
        Answer::GotJob(
            Job::Asked {
                stream: 1,
                kind: Kind::Fnf,
                message,
                ..
            },
        ) => message.content.as_slice() == b"hi".as_slice(),
        _ => false,
    }
}

// Whether the answer is the item of this number.
fn is_item(answer: &Answer, number: u32) -> bool {
    match answer {
        Answer::Got(Delivery::Item(message)) => {
            message.content.as_slice() == number.to_be_bytes().as_slice()
        }
        _ => false,
    }
}

// Whether an answer that carries no bytes is the wanted one.
fn is_plain(answer: &Answer, wanted: Wanted) -> bool {
    match (wanted, answer) {
        (Wanted::Opened, Answer::Opened(1))
        | (Wanted::Handled, Answer::Handled)
        | (Wanted::Done, Answer::Done)
        | (Wanted::Job, Answer::GotJob(_))
        | (Wanted::End, Answer::Got(Delivery::Complete))
        | (Wanted::NotYet, Answer::NotYet)
        | (Wanted::NoCredit, Answer::Refused(Refusal::NoCredit(_)))
        | (Wanted::UnknownStream, Answer::Refused(Refusal::UnknownStream))
        | (Wanted::Closed, Answer::Refused(Refusal::Closed(Cause::Local))) => true,
        (Wanted::Started(id), Answer::Started(started)) => *started == id,
        (Wanted::Drawn(count), Answer::Drawn(drawn)) => *drawn == count,
        _ => false,
    }
}

/// Whether an answer is the wanted one.
pub fn is(answer: &Answer, wanted: Wanted) -> bool {
    match wanted {
        Wanted::Fnf => is_fnf(answer),
        Wanted::Item(number) => is_item(answer, number),
        _ => is_plain(answer, wanted),
    }
}

/// Lets an answer go. Each place where that is done is dear to prove.
pub fn let_go(_answer: Answer) {}

/// How many bytes are drawn by this answer.
pub fn drawn(answer: Answer) -> u32 {
    let count = answer.drawn().unwrap_or(0);
    let_go(answer);
    count
}

/// Stops the test where an answer is another than the wanted one.
pub fn check<R: Abort>(rt: &R, answer: Answer, wanted: Wanted) {
    let right = is(&answer, wanted);
    let_go(answer);
    assert!(rt; right);
}

/// Stops the test where a try had no turn, or where its answer is another than the wanted one.
pub fn check_try<R: Abort>(rt: &R, answer: Option<Answer>, wanted: Wanted) {
    match answer {
        Some(answer) => check(rt, answer, wanted),
        None => panic!(rt; "another has the turn"),
    }
}
