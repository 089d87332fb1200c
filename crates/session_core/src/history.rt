//! The entries of a session, which contracts alone see.

ghost use Rattle.std.specs.Prelude.{◌≡◌, [], ◌∷◌};
ghost use Rattle.rs_wire.specs.declared.call.Call.TheVariants as calls;
ghost use Rattle.tape.specs.Told.{entry_of};
ghost use Rattle.tape.specs.declared.answer.Answer.TheVariants as answers;
ghost use Rattle.tape.specs.declared.event.Event.TheVariants as events;

use rs_wire::{Call, Delivery, Job};
use std::marker::Model;
use std::mem::replace;
use std::snapshot::Snapshot;
use tape::{Answer, Event};

/// Entries, the last one apart. A value of it stands on the stack for a moment, and a [`Snapshot`]
/// of it, which has no bytes, says what the entries are.
#[derive(Drop)]
pub enum Past {
    /// There is none yet.
    Nothing,
    /// There is one more.
    More {
        /// The entries before it.
        before: Snapshot<Past>,
        /// Its caller.
        who: Snapshot<u32>,
        /// Its event.
        event: Snapshot<Event>,
        /// The answer to it.
        answer: Snapshot<Answer>,
    },
    /// There is one more, of a call.
    Called {
        /// The entries before it.
        before: Snapshot<Past>,
        /// Its caller.
        who: Snapshot<u32>,
        /// The call.
        call: Snapshot<Call>,
        /// The answer to it.
        answer: Snapshot<Answer>,
    },
    /// There is one more, of a take that got something.
    Taken {
        /// The entries before it.
        before: Snapshot<Past>,
        /// Its caller.
        who: Snapshot<u32>,
        /// The stream.
        stream: Snapshot<u32>,
        /// What was delivered.
        delivery: Snapshot<Delivery>,
    },
    /// There is one more, of a take that got a job.
    TakenJob {
        /// The entries before it.
        before: Snapshot<Past>,
        /// Its caller.
        who: Snapshot<u32>,
        /// The job.
        job: Snapshot<Job>,
    },
}

/// The entries of a session. It has no bytes: contracts alone see them, the newest first.
#[derive(Drop)]
pub struct History {
    past: Snapshot<Past>,
}

impl Model for History {
    ghost use Rattle.std.specs.Prelude.{List};
    ghost use Rattle.tape.specs.declared.entry.Entry.{Entry as Noted};
    ghost use Rattle.session_core.specs.Past.{entries_of};

    ghost Value = { List Noted };

    ghost view = { λ h. entries_of h.past.value };
}

impl History {
    /// No entry yet.
    pub fn new() -> History
        ensures { result ≡ [] }
    {
        History {
            past: Snapshot::of(&Past::Nothing),
        }
    }

    /// One entry more.
    pub fn note(&mut self, who: u32, event: &Event, answer: &Answer)
        ensures { self.new ≡ entry_of who event.now answer.now ∷ self.old }
    {
        let before = replace(&mut self.past, Snapshot::of(&Past::Nothing));
        let more = Past::More {
            before,
            who: Snapshot::of(&who),
            event: Snapshot::of(event),
            answer: Snapshot::of(answer),
        };
        self.past = Snapshot::of(&more);
        drop(more);
    }

    /// The same of a call.
    pub fn note_call(&mut self, who: u32, call: &Call, answer: &Answer)
        ensures { self.new ≡ entry_of who (events.Asked call.now) answer.now ∷ self.old }
    {
        let before = replace(&mut self.past, Snapshot::of(&Past::Nothing));
        let more = Past::Called {
            before,
            who: Snapshot::of(&who),
            call: Snapshot::of(call),
            answer: Snapshot::of(answer),
        };
        self.past = Snapshot::of(&more);
        drop(more);
    }

    /// The same of a take that got this delivery.
    pub fn note_taken(&mut self, who: u32, stream: u32, delivery: &Delivery)
        ensures { self.new ≡
            entry_of who (events.Asked (calls.Take stream)) (answers.Got delivery.now) ∷ self.old }
    {
        let before = replace(&mut self.past, Snapshot::of(&Past::Nothing));
        let more = Past::Taken {
            before,
            who: Snapshot::of(&who),
            stream: Snapshot::of(&stream),
            delivery: Snapshot::of(delivery),
        };
        self.past = Snapshot::of(&more);
        drop(more);
    }

    /// The same of a take that got this job.
    pub fn note_job(&mut self, who: u32, job: &Job)
        ensures { self.new ≡
            entry_of who (events.Asked calls.TakeJob) (answers.GotJob job.now) ∷ self.old }
    {
        let before = replace(&mut self.past, Snapshot::of(&Past::Nothing));
        let more = Past::TakenJob {
            before,
            who: Snapshot::of(&who),
            job: Snapshot::of(job),
        };
        self.past = Snapshot::of(&more);
        drop(more);
    }
}
