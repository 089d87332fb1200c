//! What a session answers.

ghost use Rattle.std.specs.Prelude.{◌≡◌, IfOk};
ghost use Rattle.tape.specs.Answers.{drawn_by, is_out_of_memory, leaves};

use rs_wire::{Cause, Delivery, Gone, Job, OutOfMemory, Refusal, Rule, SetupFault};
use std::alloc::Global;

/// What a session answers to an event. `NotYet`, `OutBusy`, `TapeFull` and `OutOfMemory` change
/// nothing and leave no entry; each other answer leaves one.
#[derive(Debug, Drop, PartialEq, Eq)]
pub enum Answer {
    /// The opening is accepted; the number of the opening, from 1.
    Opened(u64),
    /// The request is made, on the stream of this id.
    Started(u32),
    /// The call is done.
    Done,
    /// What was delivered on the stream, the oldest that waited.
    Got(Delivery),
    /// What the peer asked, the oldest that waited.
    GotJob(Job),
    /// This many bytes were drawn, at least 1.
    Drawn(u32),
    /// The connection is parted, and what was queued on it is gone. Without resumption the session is
    /// closed.
    Parted,
    /// The moment is taken, and nothing else is done.
    Quiet,
    /// A KEEPALIVE is sent (RSocket 1.0, "KEEPALIVE Frame").
    Sent,
    /// The peer counts as dead: nothing came since this moment, in milliseconds, and that is the lifetime
    /// ago or more. The connection is parted, and what was queued on it is gone. Without resumption the
    /// session is closed (RSocket 1.0, "KEEPALIVE Frame").
    Dead(u64),
    /// The frame is handled.
    Handled,
    /// The peer closed the session by an ERROR of this code.
    PeerError(u32),
    /// The peer broke this rule, and the session is closed.
    Violation(Rule),
    /// The first frame is refused. A session that was not begun is closed.
    SetupRefused(SetupFault),
    /// The resumption is refused. A client whose RESUME_OK is refused closes the session; at a server
    /// nothing changes.
    ResumeRefused(Gone),
    /// The connection named is not the live one, whose number this is; 0 for none.
    Stale(u64),
    /// The call is refused.
    Refused(Refusal),
    /// The session is closed.
    Closed(Cause),
    /// Nothing waits.
    NotYet,
    /// This many bytes are queued, and an answer might not fit: the frame may come again.
    OutBusy(u64),
    /// The tape has 2^63 entries.
    TapeFull,
    /// There was not enough memory.
    OutOfMemory,
}

impl Answer {
    /// Whether an event so answered leaves an entry on the tape.
    pub fn leaves_entry(&self) -> bool
        ensures { result ≡ leaves self.now }
    {
        match self {
            Answer::NotYet | Answer::OutBusy(_) | Answer::TapeFull | Answer::OutOfMemory => false,
            _ => true,
        }
    }

    /// How many bytes were drawn, where some were.
    pub fn drawn(&self) -> Option<u32>
        ensures { result ≡ drawn_by self.now }
    {
        match self {
            Answer::Drawn(count) => Some(*count),
            _ => None,
        }
    }

    /// Whether there was not enough memory, or the tape had no place for one more entry.
    pub fn is_out_of_memory(&self) -> bool
        ensures { result ≡ is_out_of_memory self.now }
    {
        match self {
            Answer::TapeFull | Answer::OutOfMemory => true,
            _ => false,
        }
    }

    /// The same answer again.
    pub fn copy(&self, alloc: Global) -> Result<Answer, OutOfMemory>
        ensures { IfOk result (λ a. a ≡ self.now) }
    {
        Ok(match self {
            Answer::Opened(number) => Answer::Opened(*number),
            Answer::Started(id) => Answer::Started(*id),
            Answer::Done => Answer::Done,
            Answer::Got(delivery) => Answer::Got(delivery.copy(alloc)?),
            Answer::GotJob(job) => Answer::GotJob(job.copy(alloc)?),
            Answer::Drawn(count) => Answer::Drawn(*count),
            Answer::Parted => Answer::Parted,
            Answer::Quiet => Answer::Quiet,
            Answer::Sent => Answer::Sent,
            Answer::Dead(last) => Answer::Dead(*last),
            Answer::Handled => Answer::Handled,
            Answer::PeerError(code) => Answer::PeerError(*code),
            Answer::Violation(rule) => Answer::Violation(*rule),
            Answer::SetupRefused(fault) => Answer::SetupRefused(*fault),
            Answer::ResumeRefused(gone) => Answer::ResumeRefused(*gone),
            Answer::Stale(conn) => Answer::Stale(*conn),
            Answer::Refused(refusal) => Answer::Refused(*refusal),
            Answer::Closed(cause) => Answer::Closed(*cause),
            Answer::NotYet => Answer::NotYet,
            Answer::OutBusy(queued) => Answer::OutBusy(*queued),
            Answer::TapeFull => Answer::TapeFull,
            Answer::OutOfMemory => Answer::OutOfMemory,
        })
    }
}
