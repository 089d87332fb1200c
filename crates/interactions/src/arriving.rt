//! What the peer says on the streams.

ghost use Rattle.std.specs.Prelude.{◌≡◌, ◌<◌, ◌≤◌, ◌^◌, ◌++◌, ◌∷◌, ◌&&◌, ◌||◌, not, [], ℕ, List, Option, Some, None, true, false, length, is_some, nat_lt, option_to_list, if◌then◌else◌};
ghost use Rattle.rs_wire.specs.declared.message.Message.{Message as Content};
ghost use Rattle.rs_wire.specs.declared.words.Role.TheVariants.{Responder};
ghost use Rattle.stream_model.specs.Marks.{Mark, Opens, Passed, Got, Pushed, Payload, RequestN, Cancel as Cancels, Fail as Fails};
ghost use Rattle.stream_model.specs.Turns.{carries, delivered_first, inbound, is_fnf, is_role, other};
ghost use Rattle.stream_model.specs.Kept.{requested as first_of, is_done, unless_done, FitsCredit};
ghost use Rattle.stream_model.specs.Known.{is_peers_next, over_at};
ghost use Rattle.stream_model.specs.Streams.{if_amount};
ghost use Rattle.stream_model.specs.Arriving.{CanArrive, MayGrant, asked_effect, effect_by, heard, message_effect, or_zero, passed_effect, step_effect, stream_in, theirs};
ghost use Rattle.stream_table.specs.Tables.{IsNew, highest_in, kept_at};
ghost use Rattle.interactions.specs.Answers.{admits};
ghost use Rattle.interactions.specs.Waiting.{room_at, waits_at};
ghost use Rattle.interactions.specs.Stands.{known_of, Begins, HasRoom, Says, Stands};
ghost use Rattle.interactions.specs.Next.{IfBroken, IfCounted, opened_jobs, waits_peer};

use crate::parts::Parts;
use crate::stream::{
    after_cancel, after_error, after_grant, after_message, begun, number_of, over_credit,
};
use crate::ways::{cancel_ends, carries, inbound, is_over_at, message_ends, other};
use rs_wire::{Amount, Blob, Delivery, Job, Kind, Message, Role, Rule, Side};
use stream_model::{Arrival, Effect, Stream};

// A fire-and-forget delivers nothing.
fn end_if(kind: Kind, ends: bool, end: Delivery) -> Option<Delivery>
    ensures { option_to_list result ≡
        (if is_fnf kind then [] else if ends then end ∷ [] else []) }
{
    if ends && kind != Kind::Fnf {
        Some(end)
    } else {
        None
    }
}

// A channel's request way may end with the request.
fn first_end(kind: Kind, complete: bool) -> Option<Delivery>
    ensures { (initial : Option ℕ) (message : Content) → option_to_list result ≡
        delivered_first (theirs kind initial (Some (message, complete))) }
{
    if kind == Kind::Channel && complete {
        Some(Delivery::Complete)
    } else {
        None
    }
}

// The message goes into the job of a request that is whole with it, or is an item.
fn placed(
    kept: Stream,
    stream: u32,
    is_item: bool,
    message: Message,
    complete: bool,
) -> (Option<Job>, Option<Delivery>)
    requires { is_item ≡ true → (is_role kept.role Responder && not kept.whole) ≡ false }
    ensures job { option_to_list result.0 ≡
        (if is_role kept.role Responder && not kept.whole && not kept.request_over
        then Job.Asked stream kept.kind (if_amount kept.initial) message complete ∷ [] else []) }
    ensures item { option_to_list result.1 ≡
        (if is_fnf kept.kind then [] else if is_item then Delivery.Item message ∷ [] else []) }
{
    if kept.role == Role::Responder && !kept.whole && !kept.request_over {
        let job = Job::Asked {
            stream,
            kind: kept.kind,
            initial: Amount::of(kept.initial),
            message,
            complete,
        };
        (Some(job), None)
    } else if is_item && kept.kind != Kind::Fnf {
        (None, Some(Delivery::Item(message)))
    } else {
        (None, None)
    }
}

impl Parts {
    // An act of the peer's: the stream goes on so, and an item and an end are delivered where the
    // way that this end receives is not over.
    #[inline(always)]
    fn peer(
        &mut self,
        stream: u32,
        before: Stream,
        after: Stream,
        item: Option<Delivery>,
        end: Option<Delivery>,
        job: Option<Job>,
    )
        requires live { kept_at self.old.table.kept stream ≡ Some before }
        requires credit { is_done after ≡ false → FitsCredit after }
        requires room { HasRoom self.old stream }
        ensures limits { self.new.table.limits ≡ self.old.table.limits }
        ensures says { Says (known_of self.old) (known_of self.new) stream (unless_done after)
            (waits_peer (over_at before (inbound before.role)) (waits_at self.old.waits stream)
            (option_to_list item ++ option_to_list end))
            (option_to_list job) }
    {
        self.table.set(stream, after);
        self.jobs.push_some(job);
        if is_over_at(before, inbound(before.role)) {
            return;
        }
        self.waits.push_some(stream, item);
        self.waits.push_some(stream, end);
    }

    // A whole message of the peer's.
    fn message(&mut self, stream: u32, message: Message, complete: bool, next: bool) -> Effect
        requires room { HasRoom self.old stream }
        ensures limits { self.new.table.limits ≡ self.old.table.limits }
        ensures effect { result ≡ message_effect (kept_at self.old.table.kept stream) next }
        ensures stands { (seen : List Mark) → Stands self.old seen →
            IfCounted result (Stands self.new (Got stream (Payload message complete next) ∷ seen)) }
        ensures broken { IfBroken result (self.new ≡ self.old) }
    {
        let Some(kept) = self.table.get(stream) else {
            return Effect::Ignored;
        };
        if let Some(granted) = over_credit(kept, next) {
            return Effect::Broken(Rule::OverCredit(granted));
        }
        let by = other(kept.role);
        let way = inbound(kept.role);
        let is_item = next && carries(kept.kind, kept.whole, way, by);
        let (job, item) = placed(kept, stream, is_item, message, complete);
        let ends = message_ends(by, kept.kind, complete, way);
        let end = end_if(kept.kind, ends, Delivery::Complete);
        let after = after_message(kept, by, complete, next);
        self.peer(stream, kept, after, item, end, job);
        Effect::Used
    }

    // The peer lets this end send more items.
    fn granted(&mut self, stream: u32, n: Amount) -> Effect
        requires room { HasRoom self.old stream }
        requires grant { MayGrant ((known_of self.old).kept stream) }
        ensures limits { self.new.table.limits ≡ self.old.table.limits }
        ensures effect { result ≡ step_effect (kept_at self.old.table.kept stream) }
        ensures stands { (seen : List Mark) → Stands self.old seen →
            Stands self.new (Got stream (RequestN n) ∷ seen) }
    {
        let Some(kept) = self.table.get(stream) else {
            return Effect::Ignored;
        };
        let after = after_grant(kept, other(kept.role), n);
        self.peer(stream, kept, after, None, None, None);
        Effect::Used
    }

    // The peer wants nothing more of the stream.
    fn canceled(&mut self, stream: u32) -> Effect
        requires room { HasRoom self.old stream }
        ensures limits { self.new.table.limits ≡ self.old.table.limits }
        ensures effect { result ≡ step_effect (kept_at self.old.table.kept stream) }
        ensures stands { (seen : List Mark) → Stands self.old seen →
            Stands self.new (Got stream Cancels ∷ seen) }
    {
        let Some(kept) = self.table.get(stream) else {
            return Effect::Ignored;
        };
        let by = other(kept.role);
        let ends = cancel_ends(by, kept.kind, inbound(kept.role));
        let end = end_if(kept.kind, ends, Delivery::Canceled);
        self.peer(stream, kept, after_cancel(kept, by), None, end, None);
        Effect::Used
    }

    // The peer ends the stream by an error.
    fn failed(&mut self, stream: u32, code: u32, content: Blob) -> Effect
        requires room { HasRoom self.old stream }
        ensures limits { self.new.table.limits ≡ self.old.table.limits }
        ensures effect { result ≡ step_effect (kept_at self.old.table.kept stream) }
        ensures stands { (seen : List Mark) → Stands self.old seen →
            Stands self.new (Got stream (Fails code content) ∷ seen) }
    {
        let Some(kept) = self.table.get(stream) else {
            return Effect::Ignored;
        };
        let end = end_if(kept.kind, true, Delivery::Error { code, content });
        let after = after_error(kept, other(kept.role));
        self.peer(stream, kept, after, None, end, None);
        Effect::Used
    }

    /// One stream more may be open, or it is a whole fire-and-forget, which is over at once.
    pub fn admits(&self, kind: Kind, whole: bool) -> bool
        ensures { result ≡ admits self.now.table.limits (known_of self.now) kind whole }
    {
        self.table.live() < self.table.limits().max_streams || (kind == Kind::Fnf && whole)
    }

    /// The peer may make a request on that id.
    pub fn is_peers_next(&self, stream: u32) -> bool
        ensures next { result ≡
            is_peers_next self.now.table.limits.side (known_of self.now) stream }
        ensures above { result ≡ true → highest_in self.now.table stream < stream }
    {
        match self.table.limits().side {
            Side::Client => stream % 2 == 0 && self.table.highest(Side::Server) < stream,
            Side::Server => stream % 2 == 1 && self.table.highest(Side::Client) < stream,
        }
    }

    // A stream of the peer's begins, or is over at once.
    fn begin(&mut self, stream: u32, begun: Stream, end: Option<Delivery>, job: Option<Job>)
        requires new { IsNew self.old.table stream }
        requires credit { FitsCredit begun }
        requires live { is_done begun ≡ false →
            length self.old.table.kept < self.old.table.limits.max_streams }
        requires room { HasRoom self.old stream }
        ensures limits { self.new.table.limits ≡ self.old.table.limits }
        ensures begins { Begins (known_of self.old) (known_of self.new) stream (unless_done begun)
            (waits_at self.old.waits stream ++ option_to_list end) (option_to_list job) }
    {
        self.table.begin(stream, begun);
        self.waits.push_some(stream, end);
        self.jobs.push_some(job);
    }

    // A request of the peer's is admitted.
    fn admit(&mut self, stream: u32, kind: Kind, first: u32, whole: Option<(Message, bool)>)
        requires new { IsNew self.old.table stream }
        requires initial { first < 2 ^ 31 }
        requires live { (is_fnf kind && is_some whole) ≡ false →
            length self.old.table.kept < self.old.table.limits.max_streams }
        requires room { HasRoom self.old stream }
        ensures limits { self.new.table.limits ≡ self.old.table.limits }
        ensures begins { (initial : Option ℕ) → or_zero initial ≡ first →
            Begins (known_of self.old) (known_of self.new) stream
            (unless_done (first_of (theirs kind initial whole)))
            (waits_at self.old.waits stream ++ delivered_first (theirs kind initial whole))
            (opened_jobs stream (theirs kind initial whole)) }
    {
        match whole {
            None => {
                let begun = begun(Role::Responder, kind, first, None);
                self.begin(stream, begun, None, None);
            }
            Some((message, complete)) => {
                let begun = begun(Role::Responder, kind, first, Some(complete));
                let job = Job::Asked {
                    stream,
                    kind,
                    initial: Amount::of(first),
                    message,
                    complete,
                };
                self.begin(stream, begun, first_end(kind, complete), Some(job));
            }
        }
    }

    // The peer makes a request.
    fn asked(
        &mut self,
        stream: u32,
        kind: Kind,
        initial: Option<Amount>,
        whole: Option<(Message, bool)>,
    ) -> Effect
        requires id { stream < 2 ^ 31 }
        requires room { HasRoom self.old stream }
        ensures limits { self.new.table.limits ≡ self.old.table.limits }
        ensures effect { result ≡ asked_effect
            (is_peers_next self.old.table.limits.side (known_of self.old) stream)
            (nat_lt (known_of self.old).live self.old.table.limits.max_streams)
            (is_fnf kind) (is_some whole) stream }
        ensures stands { (seen : List Mark) → Stands self.old seen →
            IfCounted result (Stands self.new (Opens stream (theirs kind initial whole) ∷ seen)) }
        ensures broken { IfBroken result (self.new ≡ self.old) }
    {
        let first = number_of(initial);
        if !self.is_peers_next(stream) {
            return Effect::Broken(Rule::StreamId(stream));
        }
        if self.admits(kind, whole.is_some()) {
            self.admit(stream, kind, first, whole);
            return Effect::Used;
        }
        self.table.skip(stream);
        if kind == Kind::Fnf {
            Effect::Ignored
        } else {
            Effect::TooMany
        }
    }

    // The peer makes a request that its lease does not cover: its id is used.
    fn passed_over(&mut self, id: u32) -> Effect
        requires fits { id < 2 ^ 31 }
        ensures limits { self.new.table.limits ≡ self.old.table.limits }
        ensures effect { result ≡ passed_effect
            (is_peers_next self.old.table.limits.side (known_of self.old) id) id }
        ensures stands { (seen : List Mark) → Stands self.old seen →
            IfCounted result (Stands self.new (Passed id ∷ seen)) }
        ensures broken { IfBroken result (self.new ≡ self.old) }
    {
        if !self.is_peers_next(id) {
            return Effect::Broken(Rule::StreamId(id));
        }
        self.table.skip(id);
        Effect::Ignored
    }

    // The peer sends metadata for the connection: a job.
    fn pushed(&mut self, metadata: Blob) -> Effect
        requires room { 0 < self.old.jobs.room }
        ensures limits { self.new.table.limits ≡ self.old.table.limits }
        ensures effect { result ≡ Effect.Used }
        ensures stands { (seen : List Mark) → Stands self.old seen →
            Stands self.new (Pushed metadata ∷ seen) }
    {
        self.jobs.push_some(Some(Job::Pushed { metadata }));
        Effect::Used
    }

    /// What the peer says has its effect.
    pub fn arrive(&mut self, what: Arrival) -> Effect
        requires room { HasRoom self.old (stream_in what) }
        requires fits { CanArrive (known_of self.old) what }
        ensures limits { self.new.table.limits ≡ self.old.table.limits }
        ensures effect { result ≡ effect_by self.old.table.limits (known_of self.old) what }
        ensures stands { (seen : List Mark) → Stands self.old seen →
            IfCounted result (Stands self.new (heard what ∷ seen)) }
        ensures broken { IfBroken result (self.new ≡ self.old) }
    {
        match what {
            Arrival::Asked {
                stream,
                kind,
                initial,
                whole,
            } => self.asked(stream, kind, initial, whole),
            Arrival::Whole {
                stream,
                message,
                complete,
                next,
            } => self.message(stream, message, complete, next),
            Arrival::Granted { stream, n } => self.granted(stream, n),
            Arrival::Canceled { stream } => self.canceled(stream),
            Arrival::Failed {
                stream,
                code,
                content,
            } => self.failed(stream, code, content),
            Arrival::PassedOver { stream } => self.passed_over(stream),
            Arrival::Pushed { metadata } => self.pushed(metadata),
        }
    }
}
