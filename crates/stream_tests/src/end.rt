//! An end whose callers and whose peer keep the conditions of its streams.

ghost use Rattle.std.specs.Prelude.{◌≡◌, ◌<◌, ◌≤◌, ◌^◌, ℕ, IsTrue, OnOk, length};
ghost use Rattle.rs_wire.specs.Calls.{is_streamed, CanBeAsked, CompleteFits};
ghost use Rattle.stream_model.specs.Arriving.{CanAct, CanArrive, MayGrant, stream_in};
ghost use Rattle.stream_model.specs.Known.{Known};
ghost use Rattle.interactions.specs.Seen.{known_to};

use super::step::Answer;
use interactions::Streams;
use rs_wire::{Call, Kind, Settings, Side, check, is_stream_code};
use std::alloc::Global;
use std::process::Abort;
use stream_model::{Arrival, Effect};

/// The streams of an end, and how many steps were done on them at most.
#[derive(Drop)]
pub struct End {
    /// The streams.
    pub streams: Streams,
    steps: u64,
    ghost few: { length streams.marks ≤ steps },
}

// An initial n is there exactly where the kind has one.
fn fits(kind: Kind, has_initial: bool) -> bool
    ensures { IsTrue result → has_initial ≡ is_streamed kind }
{
    match kind {
        Kind::Stream | Kind::Channel => has_initial,
        Kind::Response | Kind::Fnf => !has_initial,
    }
}

// Only a channel completes with its request.
fn may_complete(kind: Kind, complete: bool) -> bool
    ensures { IsTrue result → CompleteFits kind complete }
{
    match kind {
        Kind::Channel => true,
        Kind::Response | Kind::Fnf | Kind::Stream => !complete,
    }
}

// A call that acts on a stream, and that a caller may make.
fn is_act(call: &Call) -> bool
    ensures askable { IsTrue result → CanBeAsked call.now }
    ensures acts { IsTrue result → (t : Known) → ((s : ℕ) → MayGrant (t.kept s)) →
        CanAct t call.now }
{
    match call {
        Call::Request {
            kind,
            initial,
            complete,
            ..
        } => fits(*kind, initial.is_some()) && may_complete(*kind, *complete),
        Call::Fail { code, .. } => is_stream_code(*code),
        Call::Next { .. } | Call::Done { .. } | Call::Grant { .. } | Call::Cancel { .. } => true,
        Call::Push { .. } | Call::Lease { .. } | Call::Take { .. } | Call::TakeJob | Call::Close =>
            false,
    }
}

// An arrival that can come.
fn can_arrive(what: &Arrival) -> bool
    ensures { IsTrue result → (t : Known) → ((s : ℕ) → MayGrant (t.kept s)) →
        CanArrive t what.now }
{
    match what {
        Arrival::Asked {
            stream,
            kind,
            initial,
            ..
        } => *stream < 1 << 31 && fits(*kind, initial.is_some()),
        Arrival::PassedOver { stream } => *stream < 1 << 31,
        _ => true,
    }
}

fn stream_of(what: &Arrival) -> u32
    ensures { result ≡ stream_in what.now }
{
    match what {
        Arrival::Asked { stream, .. }
        | Arrival::Whole { stream, .. }
        | Arrival::Granted { stream, .. }
        | Arrival::Canceled { stream }
        | Arrival::Failed { stream, .. }
        | Arrival::PassedOver { stream } => *stream,
        Arrival::Pushed { .. } => 0,
    }
}

impl End {
    /// An end on which nothing happened.
    pub fn new(rt: &impl Abort, alloc: Global, side: Side, max_streams: u32, last_id: u32) -> End {
        let mut settings = Settings::usual(alloc, side).expect(rt, "there is memory");
        settings.max_streams = max_streams;
        settings.last_id = last_id;
        let checked = check(settings).expect(rt, "the settings are right");
        End {
            streams: Streams::new(alloc, &checked).expect(rt, "there is memory"),
            steps: 0,
        }
    }

    // One step more. There are few, so what was granted leaves room for more.
    fn count(&mut self)
        requires { self.old.steps < 2 ^ 60 }
        ensures streams { self.new.streams ≡ self.old.streams }
        ensures few { length self.new.streams.marks < self.new.steps }
        ensures grants { (s : ℕ) → MayGrant ((known_to self.new.streams).kept s) }
    {
        self.streams.fair();
        self.steps += 1;
    }

    // One step more, of few.
    fn step(&mut self, rt: &impl Abort)
        ensures streams { self.new.streams ≡ self.old.streams }
        ensures few { length self.new.streams.marks < self.new.steps }
        ensures grants { (s : ℕ) → MayGrant ((known_to self.new.streams).kept s) }
    {
        assert!(rt; self.steps < 1 << 60, "there are few steps");
        self.count();
    }

    /// A call acts, or is refused.
    pub fn act(&mut self, rt: &impl Abort, call: &Call) -> Answer {
        if let Err(refusal) = self.streams.judge(call) {
            return Answer::Refused(refusal);
        }
        assert!(rt; is_act(call), "the call can act");
        self.step(rt);
        Answer::Did(self.streams.act(call).expect(rt, "there is memory"))
    }

    /// What the peer says has its effect.
    pub fn hear(&mut self, rt: &impl Abort, what: Arrival) -> Effect {
        assert!(rt; can_arrive(&what), "the arrival can come");
        self.step(rt);
        self.streams
            .reserve(stream_of(&what))
            .expect(rt, "there is memory");
        self.streams.arrive(what)
    }

    /// Takes what waits on a stream, or says why nothing is to come.
    pub fn take(&mut self, rt: &impl Abort, stream: u32) -> Answer {
        let call = Call::Take { stream };
        let judged = self.streams.judge(&call);
        drop(call);
        if let Err(refusal) = judged {
            return Answer::Refused(refusal);
        }
        self.step(rt);
        let taken = self.streams.take(stream);
        let answer = Answer::taken(&taken);
        drop(taken);
        answer
    }

    /// Takes the job that waits first.
    pub fn take_job(&mut self, rt: &impl Abort) -> Answer {
        self.step(rt);
        let job = self.streams.take_job();
        let answer = Answer::job(&job);
        drop(job);
        answer
    }
}
