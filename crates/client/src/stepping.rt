//! One step of a call: a turn of its pump, its request, and what waits.

ghost use Rattle.std.specs.Prelude.{◌≡◌, ◌<◌, ◌^◌, IfOk, IsSome, OnOk, Some};
ghost use Rattle.rs_wire.specs.Calls.{CanBeAsked};
ghost use Rattle.rs_wire.specs.declared.words.Side.TheVariants.{Client as Calls};
ghost use Rattle.outside.specs.Links.{Shown};
ghost use Rattle.call_model.specs.Order.{Asking, request_of};
ghost use Rattle.client.specs.Alone.{IsOwn};
ghost use Rattle.client.specs.Clients.{AsksSo, OnlyCalls};
ghost use Rattle.client.specs.Counting.{HasCounted};
ghost use Rattle.client.specs.Turning.{HasStepped, IsReady};

use crate::calling::Calling;
use crate::client::Client;
use crate::plan::CallPlan;
use outside::{Clock, Net};
use pump::Turned;
use rs_wire::OutOfMemory;
use std::sync::Wait;
use tape::Tape;

/// What a step came to: how its turn ended, and whether the end of the call came.
#[derive(Clone, Copy)]
pub(crate) struct Stepped {
    pub(crate) turned: Turned,
    pub(crate) ended: bool,
}

impl<N: Net, T: Tape> Client<N, T> {
    // Asks for the stream, where it is not started, but not after a lull, which brought nothing.
    fn ask_where_due<R: Wait>(
        &mut self,
        rt: &R,
        calling: &mut Calling,
        turned: Turned,
    ) -> Result<(), OutOfMemory>
        requires { CanBeAsked calling.old.request }
        ensures same { OnlyCalls self.old self.new }
        ensures calling { calling.new ≡ record calling.old { stream = calling.new.stream } }
        ensures asked { OnOk result (AsksSo turned calling.old.request self.old.caller
            calling.old.stream calling.new.stream self.new.caller.front) }
    {
        if calling.stream.is_some() || turned == Turned::Lull {
            return Ok(());
        }
        self.ask_again(rt, calling)
    }

    /// One step, over the link of the present connection. What is printed is appended.
    pub(crate) fn advance<K: Clock, R: Wait>(
        &mut self,
        rt: &R,
        clock: &K,
        plan: &CallPlan,
        calling: &mut Calling,
        out: &mut Vec<u8>,
    ) -> Result<Stepped, OutOfMemory>
        requires client { self.old.of.settings.side ≡ Calls }
        requires link { IsSome self.old.link }
        requires limit { calling.old.pump.max_in ≡ self.old.of.settings.max_in }
        requires askable { CanBeAsked calling.old.request }
        ensures same { self.new ≡ record self.old {
          caller = record self.old.caller {
            front = self.new.caller.front;
            note = self.new.caller.note;
          };
          link = self.new.link;
        } }
        ensures link { IsSome self.new.link }
        ensures calling { calling.new ≡ record calling.old {
          pump = calling.new.pump;
          stream = calling.new.stream;
          fresh = calling.new.fresh;
        } }
        ensures max_in { calling.new.pump.max_in ≡ calling.old.pump.max_in }
        ensures conn { calling.new.pump.conn ≡ calling.old.pump.conn }
        ensures stepped { IfOk result (λ r. (w : Asking) (s : Shown) →
            calling.old.request ≡ request_of w → w.kind ≡ plan.now.kind →
            w.count ≡ plan.now.initial → self.old.link ≡ Some s →
            calling.old.pump.conn ≡ self.old.conn → IsOwn self.new.caller →
            IsOwn self.old.caller × (IsReady w (K.moments clock.now)
            self.old.caller.of.settings self.old.caller.front s self.old.conn calling.old.pump
            calling.old.stream calling.old.fresh calling.old.full → (t : Shown) ×
            (self.new.link ≡ Some t) × HasStepped w (K.moments clock.now)
            self.old.caller.of.settings self.old.caller.front self.new.caller.front t
            self.old.conn calling.new.pump calling.new.stream calling.new.fresh
            calling.old.full r.turned r.ended out.old.items out.new.items ×
            (calling.old.pump.max_in < 2 ^ 24 → HasCounted self.old.caller.of.settings
            self.old.caller.front self.new.caller.front s t self.old.conn
            calling.old.pump calling.new.pump calling.old.full r.turned))) }
    {
        self.is_joined();
        let turned = self.turn(rt, clock, calling);
        self.ask_where_due(rt, calling, turned)?;
        let ended = self.take_all(rt, plan, calling, out)?;
        Ok(Stepped { turned, ended })
    }
}
