//! The streams of an end, with all that happened on them.

ghost use Rattle.std.specs.Prelude.{◌≡◌, ◌<◌, ◌^◌, ◌++◌, [], ◌∷◌, ℕ, Some, None, IfOk, OnOk, OnErr, IsOk, IsSome};
ghost use Rattle.rs_wire.specs.Calls.{CanBeAsked};
ghost use Rattle.stream_model.specs.Arriving.{CanAct, CanArrive, effect_by, stream_in, took, took_job};
ghost use Rattle.stream_model.specs.Fair.{Fair};
ghost use Rattle.stream_model.specs.Known.{limits_of};
ghost use Rattle.stream_model.specs.Refused.{refused_by};
ghost use Rattle.interactions.specs.Seen.{acted, arrived, front_of, known_to, stream_of_call};

use crate::history::History;
use crate::parts::Parts;
use rs_wire::{Call, Checked, Delivery, Job, OutOfMemory, Side};
use std::alloc::Global;
use std::marker::Model;
use std::snapshot::Snapshot;
use stream_model::{Arrival, Effect};

/// The streams of an end. Contracts see its limits, the marks of what happened on the streams, the
/// newest first, and the stream for which one arrival finds room.
#[derive(Drop)]
pub struct Streams {
    pub(crate) parts: Parts,
    pub(crate) history: History,
    pub(crate) ready: Snapshot<Option<u32>>,
}

impl Model for Streams {
    ghost use Rattle.interactions.specs.Seen.{Seen};
    ghost use Rattle.interactions.specs.Stands.{IsSound};

    ghost Value = { Seen };

    ghost view = { λ s. record {
      limits = s.parts.table.limits;
      marks = s.history;
      ready = s.ready.value;
    } };

    ghost invariant = { λ s. IsSound s.parts s.history s.ready.value };
}

impl Streams {
    /// Nothing happened yet.
    pub fn new(alloc: Global, settings: &Checked) -> Result<Streams, OutOfMemory>
        ensures { IfOk result (λ s. s ≡
            record { limits = limits_of settings.now; marks = []; ready = None }) }
    {
        let set = settings.settings();
        let parts = Parts::new(alloc, set.side, set.max_streams, set.last_id)?;
        Ok(Streams {
            parts,
            history: History::new(),
            ready: Snapshot::of(&None),
        })
    }

    /// A call acts on the streams, and answers its stream. Only a request may run out of memory,
    /// and not where there is room for an arrival.
    pub fn act(&mut self, call: &Call) -> Result<u32, OutOfMemory>
        requires accepted { refused_by self.old.limits (known_to self.old) call.now ≡ None }
        requires askable { CanBeAsked call.now }
        requires acts { CanAct (known_to self.old) call.now }
        ensures stream { IfOk result (λ s. s ≡ stream_of_call self.old call.now) }
        ensures after { OnOk result (self.new ≡ acted self.old call.now) }
        ensures err { OnErr result (self.new ≡ self.old) }
        ensures enough { IsSome self.old.ready → IsOk result }
    {
        let stream = self.parts.act(call)?;
        self.history.acted(stream, call);
        self.ready = Snapshot::of(&None);
        Ok(stream)
    }

    /// Makes room for one arrival on a stream. It lasts until the next arrival or act.
    #[inline(always)]
    pub fn reserve(&mut self, stream: u32) -> Result<(), OutOfMemory>
        ensures after { OnOk result (self.new ≡ record self.old { ready = Some stream }) }
        ensures err { OnErr result (self.new ≡ self.old) }
    {
        self.parts.reserve(stream)?;
        self.ready = Snapshot::of(&Some(stream));
        Ok(())
    }

    /// What the peer says has its effect. It takes the room that was made for its stream.
    pub fn arrive(&mut self, what: Arrival) -> Effect
        requires ready { self.old.ready ≡ Some (stream_in what) }
        requires fits { CanArrive (known_to self.old) what }
        ensures effect { result ≡ effect_by self.old.limits (known_to self.old) what }
        ensures after { self.new ≡ arrived self.old what result }
    {
        let said = Snapshot::of(&what);
        let effect = self.parts.arrive(what);
        if !matches!(effect, Effect::Broken(_)) {
            self.history.arrived(said);
            self.ready = Snapshot::of(&None);
        }
        effect
    }

    /// Takes what waits first on a stream: `None` exactly where nothing waits. The room for an
    /// arrival stays.
    #[inline(always)]
    pub fn take(&mut self, stream: u32) -> Option<Delivery>
        ensures first { result ≡ front_of ((known_to self.old).waits stream) }
        ensures after { self.new ≡ record self.old {
          marks = took stream result ++ self.old.marks;
        } }
    {
        let delivery = self.parts.take(stream)?;
        self.history.took(stream, &delivery);
        Some(delivery)
    }

    /// Takes the job that waits first: `None` exactly where none waits. The room for an arrival
    /// stays.
    pub fn take_job(&mut self) -> Option<Job>
        ensures first { result ≡ front_of (known_to self.old).jobs }
        ensures after { self.new ≡ record self.old {
          marks = took_job result ++ self.old.marks;
        } }
    {
        let job = self.parts.take_job()?;
        self.history.took_job();
        Some(job)
    }

    /// The marks are ones that the rules of an end let through. It does nothing.
    pub fn fair(&self)
        ensures fair { Fair self.now.limits.max_streams self.now.marks }
        ensures even { (known_to self.now).even < 2 ^ 31 }
        ensures odd { (known_to self.now).odd < 2 ^ 31 }
    {
        // The highest ids that are read have 31 bits.
        let _even = self.parts.table.highest(Side::Server);
        let _odd = self.parts.table.highest(Side::Client);
    }
}
