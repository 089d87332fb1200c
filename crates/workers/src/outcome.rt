//! What the answer to a call says of the job.

ghost use Rattle.std.specs.Prelude.{◌≡◌};
ghost use Rattle.workers.specs.Going.{found_of, outcome_of, taken_of};

use rs_wire::{Blob, Delivery, Job, Kind, Message, Refusal};
use tape::Answer;

/// What the answer to a reply says of the job.
#[derive(Clone, Copy)]
pub enum Outcome {
    /// The reply is accepted.
    Accepted,
    /// There is no credit for it, or no room in the queue.
    Blocked,
    /// There was not enough memory.
    OutOfMemory,
    /// It is refused for good, or the tape is full.
    Final,
}

/// What a Take gave.
#[derive(Drop)]
pub enum Taken {
    /// An item of this content.
    Item(Blob),
    /// Nothing more comes.
    End,
    /// Nothing yet.
    Blocked,
    /// There was not enough memory.
    OutOfMemory,
    /// It is refused for good, or the tape is full.
    Final(Answer),
}

/// What a TakeJob gave.
#[derive(Drop)]
pub enum Found {
    /// A request.
    Asked {
        /// The stream that the answer goes on.
        stream: u32,
        /// The interaction that the stream carries.
        kind: Kind,
        /// What the request carries.
        message: Message,
    },
    /// Metadata for the whole connection.
    Pushed,
    /// Nothing yet.
    NotYet,
    /// There was not enough memory.
    OutOfMemory,
    /// It is refused, or the tape is full.
    NoMore(Answer),
}

/// What the answer to a reply says of the job.
pub fn judge(answer: &Answer) -> Outcome
    ensures { result ≡ outcome_of answer.now }
{
    match answer {
        Answer::Done => Outcome::Accepted,
        Answer::Refused(Refusal::NoCredit(_)) => Outcome::Blocked,
        Answer::Refused(Refusal::OutFull(_)) => Outcome::Blocked,
        Answer::NotYet => Outcome::Blocked,
        Answer::OutOfMemory => Outcome::OutOfMemory,
        _ => Outcome::Final,
    }
}

fn item_or_end(delivery: Delivery) -> Taken
    ensures { result ≡ taken_of (Answer.Got delivery) }
{
    match delivery {
        Delivery::Item(message) => Taken::Item(message.content),
        _ => Taken::End,
    }
}

fn refused_take(refusal: Refusal) -> Taken
    ensures { result ≡ taken_of (Answer.Refused refusal) }
{
    match refusal {
        Refusal::Ended => Taken::End,
        Refusal::NoCredit(_) | Refusal::OutFull(_) => Taken::Blocked,
        _ => Taken::Final(Answer::Refused(refusal)),
    }
}

/// What a Take so answered gave.
pub fn sort(answer: Answer) -> Taken
    ensures { result ≡ taken_of answer }
{
    match answer {
        Answer::Got(delivery) => item_or_end(delivery),
        Answer::Refused(refusal) => refused_take(refusal),
        Answer::NotYet => Taken::Blocked,
        Answer::OutOfMemory => Taken::OutOfMemory,
        answer => Taken::Final(answer),
    }
}

fn asked_or_pushed(job: Job) -> Found
    ensures { result ≡ found_of (Answer.GotJob job) }
{
    match job {
        Job::Asked {
            stream,
            kind,
            message,
            ..
        } => Found::Asked {
            stream,
            kind,
            message,
        },
        Job::Pushed { .. } => Found::Pushed,
    }
}

/// What a TakeJob so answered gave.
pub fn sort_job(answer: Answer) -> Found
    ensures { result ≡ found_of answer }
{
    match answer {
        Answer::GotJob(job) => asked_or_pushed(job),
        Answer::NotYet => Found::NotYet,
        Answer::OutOfMemory => Found::OutOfMemory,
        answer => Found::NoMore(answer),
    }
}
