//! What happened on the streams of an end, which contracts alone see.

ghost use Rattle.std.specs.Prelude.{◌≡◌, [], ◌∷◌, ◌++◌};
ghost use Rattle.stream_model.specs.Marks.{Took, TookJob};
ghost use Rattle.stream_model.specs.Arriving.{heard, said};

use rs_wire::{Call, Delivery};
use std::marker::Model;
use std::mem::replace;
use std::snapshot::Snapshot;
use stream_model::Arrival;

/// What happened, the last of it apart. A value of it stands on the stack for a moment, and a
/// [`Snapshot`] of it, which has no bytes, says what happened.
#[derive(Drop)]
pub enum Past {
    /// Nothing happened yet.
    Nothing,
    /// The peer said something.
    Arrived {
        /// What happened before.
        before: Snapshot<Past>,
        /// What it said.
        what: Snapshot<Arrival>,
    },
    /// A caller of this end acted on a stream.
    Acted {
        /// What happened before.
        before: Snapshot<Past>,
        /// The stream.
        stream: Snapshot<u32>,
        /// The call.
        call: Snapshot<Call>,
    },
    /// A caller took what waited on a stream.
    Took {
        /// What happened before.
        before: Snapshot<Past>,
        /// The stream.
        stream: Snapshot<u32>,
        /// What was taken.
        delivery: Snapshot<Delivery>,
    },
    /// A caller took a job.
    TookJob {
        /// What happened before.
        before: Snapshot<Past>,
    },
}

/// What happened on the streams of an end. It has no bytes: contracts alone see the marks, the
/// newest first.
#[derive(Drop)]
pub struct History {
    past: Snapshot<Past>,
}

impl Model for History {
    ghost use Rattle.std.specs.Prelude.{List};
    ghost use Rattle.stream_model.specs.Marks.{Mark};
    ghost use Rattle.interactions.specs.Past.{marks_of};

    ghost Value = { List Mark };

    ghost view = { λ h. marks_of h.past.value };
}

impl History {
    /// Nothing happened yet.
    pub fn new() -> History
        ensures { result ≡ [] }
    {
        History {
            past: Snapshot::of(&Past::Nothing),
        }
    }

    /// What the peer said is one mark.
    pub fn arrived(&mut self, what: Snapshot<Arrival>)
        ensures { self.new ≡ heard what.value ∷ self.old }
    {
        let before = replace(&mut self.past, Snapshot::of(&Past::Nothing));
        let arrived = Past::Arrived { before, what };
        self.past = Snapshot::of(&arrived);
    }

    /// What a call says on the stream are its marks.
    pub fn acted(&mut self, stream: u32, call: &Call)
        ensures { self.new ≡ said stream call.now ++ self.old }
    {
        let before = replace(&mut self.past, Snapshot::of(&Past::Nothing));
        let acted = Past::Acted {
            before,
            stream: Snapshot::of(&stream),
            call: Snapshot::of(call),
        };
        self.past = Snapshot::of(&acted);
    }

    /// What is taken of a stream is one mark.
    pub fn took(&mut self, stream: u32, delivery: &Delivery)
        ensures { self.new ≡ Took stream delivery.now ∷ self.old }
    {
        let before = replace(&mut self.past, Snapshot::of(&Past::Nothing));
        let took = Past::Took {
            before,
            stream: Snapshot::of(&stream),
            delivery: Snapshot::of(delivery),
        };
        self.past = Snapshot::of(&took);
    }

    /// A job that is taken is one mark.
    pub fn took_job(&mut self)
        ensures { self.new ≡ TookJob ∷ self.old }
    {
        let before = replace(&mut self.past, Snapshot::of(&Past::Nothing));
        let took = Past::TookJob { before };
        self.past = Snapshot::of(&took);
    }
}
