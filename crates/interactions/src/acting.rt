//! What the callers of this end do on the streams.

ghost use Rattle.std.specs.Prelude.{◌≡◌, ◌<◌, ◌≤◌, ◌++◌, ◌∷◌, [], ℕ, List, Some, None, true, false, IfOk, OnErr, IsOk, length};
ghost use Rattle.rs_wire.specs.declared.message.Message.{Message as Content};
ghost use Rattle.stream_model.specs.Marks.{Mark, Opens, Sent, Payload, RequestN, Cancel as Cancels, Fail as Fails};
ghost use Rattle.stream_model.specs.Turns.{inbound, is_fnf};
ghost use Rattle.stream_model.specs.Kept.{is_done, unless_done, FitsCredit};
ghost use Rattle.stream_model.specs.Known.{next_id, over_at};
ghost use Rattle.stream_model.specs.Arriving.{CanAct, MayGrant, ours, said};
ghost use Rattle.stream_model.specs.Refused.{credit_refused, refused_by};
ghost use Rattle.stream_table.specs.Tables.{IsNew, kept_at};
ghost use Rattle.interactions.specs.Waiting.{waits_at};
ghost use Rattle.interactions.specs.Stands.{known_of, Begins, KeepsRoom, Says, Stands};
ghost use Rattle.interactions.specs.Next.{stream_by, waits_own};

use crate::parts::Parts;
use crate::stream::{after_cancel, after_error, after_grant, after_message, begun, number_of};
use crate::ways::{cancel_ends, inbound, is_over_at, message_ends};
use rs_wire::{Amount, Call, Kind, OutOfMemory, Role};
use stream_model::Stream;

impl Parts {
    // An act of this end: the stream goes on so, and what waits is dropped where the act ends the
    // way that this end receives.
    #[inline(always)]
    fn own(&mut self, stream: u32, before: Stream, after: Stream, ends: bool)
        requires live { kept_at self.old.table.kept stream ≡ Some before }
        requires credit { is_done after ≡ false → FitsCredit after }
        ensures limits { self.new.table.limits ≡ self.old.table.limits }
        ensures says { Says (known_of self.old) (known_of self.new) stream (unless_done after)
            (waits_own (over_at before (inbound before.role)) ends (waits_at self.old.waits stream))
            [] }
    {
        self.table.set(stream, after);
        if ends && !is_over_at(before, inbound(before.role)) {
            self.waits.clear(stream);
        }
    }

    // Sends a message.
    #[inline(always)]
    fn send(&mut self, stream: u32, complete: bool, next: bool)
        requires credit { next ≡ true → credit_refused ((known_of self.old).kept stream) ≡ None }
        ensures limits { self.new.table.limits ≡ self.old.table.limits }
        ensures stands { (message : Content) (seen : List Mark) → Stands self.old seen →
            Stands self.new (Sent stream (Payload message complete next) ∷ seen) }
    {
        if let Some(kept) = self.table.get(stream) {
            let after = after_message(kept, kept.role, complete, next);
            let ends = message_ends(kept.role, kept.kind, complete, inbound(kept.role));
            self.own(stream, kept, after, ends);
        }
    }

    // Grants items of the way that this end receives.
    fn grant(&mut self, stream: u32, n: Amount)
        requires grant { MayGrant ((known_of self.old).kept stream) }
        ensures limits { self.new.table.limits ≡ self.old.table.limits }
        ensures stands { (seen : List Mark) → Stands self.old seen →
            Stands self.new (Sent stream (RequestN n) ∷ seen) }
    {
        if let Some(kept) = self.table.get(stream) {
            self.own(stream, kept, after_grant(kept, kept.role, n), false);
        }
    }

    // Wants nothing more of the stream, or of the way that this end receives.
    fn cancel(&mut self, stream: u32)
        ensures limits { self.new.table.limits ≡ self.old.table.limits }
        ensures stands { (seen : List Mark) → Stands self.old seen →
            Stands self.new (Sent stream Cancels ∷ seen) }
    {
        if let Some(kept) = self.table.get(stream) {
            let ends = cancel_ends(kept.role, kept.kind, inbound(kept.role));
            self.own(stream, kept, after_cancel(kept, kept.role), ends);
        }
    }

    // Ends the stream by an error.
    fn fail(&mut self, stream: u32)
        ensures limits { self.new.table.limits ≡ self.old.table.limits }
        ensures stands { (code : ℕ) (content : List ℕ) (seen : List Mark) → Stands self.old seen →
            Stands self.new (Sent stream (Fails code content) ∷ seen) }
    {
        if let Some(kept) = self.table.get(stream) {
            self.own(stream, kept, after_error(kept, kept.role), true);
        }
    }

    // A stream of this end's begins, or is over at once.
    fn begin_own(&mut self, stream: u32, begun: Stream)
        requires new { IsNew self.old.table stream }
        requires credit { FitsCredit begun }
        requires live { is_done begun ≡ false →
            length self.old.table.kept < self.old.table.limits.max_streams }
        requires place { 0 < self.old.table.place }
        ensures limits { self.new.table.limits ≡ self.old.table.limits }
        ensures begins { Begins (known_of self.old) (known_of self.new) stream (unless_done begun)
            (waits_at self.old.waits stream) [] }
    {
        self.table.begin(stream, begun);
    }

    // Makes a request on the next id.
    fn request(&mut self, kind: Kind, initial: Option<Amount>, complete: bool) -> u32
        requires id { next_id self.old.table.limits.side (known_of self.old) ≤
            self.old.table.limits.last_id }
        requires live { is_fnf kind ≡ false →
            length self.old.table.kept < self.old.table.limits.max_streams }
        requires place { 0 < self.old.table.place }
        ensures limits { self.new.table.limits ≡ self.old.table.limits }
        ensures id { result ≡ next_id self.old.table.limits.side (known_of self.old) }
        ensures stands { (message : Content) (seen : List Mark) → Stands self.old seen →
            Stands self.new (Opens result (ours kind initial message complete) ∷ seen) }
    {
        let Some(stream) = self.table.next_id() else {
            unreachable!()
        };
        let begun = begun(Role::Requester, kind, number_of(initial), Some(complete));
        self.begin_own(stream, begun);
        stream
    }

    /// A call of this end's acts on the streams. It answers the stream.
    pub fn act(&mut self, call: &Call) -> Result<u32, OutOfMemory>
        requires accepted { refused_by self.old.table.limits (known_of self.old) call.now ≡ None }
        requires acts { CanAct (known_of self.old) call.now }
        requires live { length self.old.table.kept ≤ self.old.table.limits.max_streams }
        ensures limits { self.new.table.limits ≡ self.old.table.limits }
        ensures stream { IfOk result (λ s. s ≡
            stream_by self.old.table.limits.side (known_of self.old) call.now) }
        ensures stands { IfOk result (λ s. (seen : List Mark) → Stands self.old seen →
            Stands self.new (said s call.now ++ seen)) }
        ensures known { OnErr result (known_of self.new ≡ known_of self.old) }
        ensures keeps { OnErr result (KeepsRoom self.old self.new) }
        ensures enough { 0 < self.old.table.place → IsOk result }
    {
        match call {
            Call::Request {
                kind,
                initial,
                complete,
                ..
            } => {
                self.table.reserve()?;
                Ok(self.request(*kind, *initial, *complete))
            }
            Call::Next {
                stream,
                complete,
                ..
            } => {
                self.send(*stream, *complete, true);
                Ok(*stream)
            }
            Call::Done { stream } => {
                self.send(*stream, true, false);
                Ok(*stream)
            }
            Call::Grant { stream, n } => {
                self.grant(*stream, *n);
                Ok(*stream)
            }
            Call::Cancel { stream } => {
                self.cancel(*stream);
                Ok(*stream)
            }
            Call::Fail { stream, .. } => {
                self.fail(*stream);
                Ok(*stream)
            }
            Call::Push { .. }
            | Call::Lease { .. }
            | Call::Take { .. }
            | Call::TakeJob
            | Call::Close => unreachable!(),
        }
    }
}
