//! One turn of a pump.

ghost use Rattle.std.specs.Prelude.{◌≡◌, ◌≤◌, false, length, true};
ghost use Rattle.outside.specs.Links.{NoneFell};
ghost use Rattle.pump.specs.Turns.{IsKept, IsReadOut, IsTurned, RulesOut, TurnedFor, is_early};

use crate::pump::Pump;
use crate::turned::{Turned, ended_by, sum_up};
use conn::{Caller, Connection};
use outside::{Clock, Link};
use std::sync::Wait;
use tape::Tape;

impl Pump {
    /// One turn. In this order it ticks; draws at most 16,384 bytes where no drawn byte is left;
    /// gives; takes at most 16,384 bytes where no frame waits; and brings the whole frames. It
    /// waits for turns at the connection, and as long as a call of the link does.
    ///
    /// It ends at once at `Displaced`, `Dead`, `TapeFull` and `OutOfMemory`; after `OutOfMemory` no
    /// byte is lost either. A give that fails ends what the turn does with the link; the frames
    /// that were taken still come before `LinkFault` and `End`. Once bytes came that are no frame,
    /// what is taken is dropped. Of what else holds at the end, `Over` comes before `Busy`, that
    /// before `Moved`, and that before `Lull`.
    pub fn turn<T: Tape, L: Link, K: Clock, R: Wait>(
        &mut self,
        rt: &R,
        connection: &Connection<T>,
        caller: &mut Caller<T>,
        link: &mut L,
        clock: &K,
    ) -> Turned
        requires of { caller.old.of ≡ connection.now }
        requires limit { self.old.max_in ≡ connection.now.settings.max_in }
        ensures same { caller.new ≡ record caller.old {
          front = caller.new.front;
          note = caller.new.note;
        } }

        // No byte is lost, none invented, after whatever result.
        ensures kept { IsKept caller.old (L.shown link.old) self.old
            → IsKept caller.new (L.shown link.new) self.new }

        // One tick, then one draw where one is due, then what came; nothing is taken where a frame
        // waited; and bytes moved or a lull rose.
        ensures turned { IsTurned connection.now.settings (K.moments clock.now) caller.old
            caller.new.front (L.shown link.old) (L.shown link.new) self.old result }

        // Each result has its cause.
        ensures cause { TurnedFor connection.now.settings (K.moments clock.now) caller.old
            caller.new.front (L.shown link.old) (L.shown link.new) self.new result }

        // What goes on is not over, and nothing stands in front that can come but after Busy.
        ensures order { RulesOut connection.now.settings caller.new.front self.new result }
        ensures read { is_early result ≡ false →
            IsReadOut connection.now.settings caller.old self.new caller.new.front }
        ensures counted { NoneFell (L.shown link.old).counts (L.shown link.new).counts }

        // Once bytes came that are no frame, the pump holds no byte more of what it takes.
        ensures dropped { self.old.bad ≡ true → length self.new.rest ≤ length self.old.rest }
        ensures conn { self.new.conn ≡ self.old.conn }
        ensures max_in { self.new.max_in ≡ self.old.max_in }
    {
        let begun = self.inner.begin(rt, connection, caller, clock);
        if let Some(turned) = ended_by(begun) {
            return turned;
        }
        let gave = self.inner.give_some(link);
        let took = self.inner.take_some(link, gave);
        let heard = self.inner.hear_all(rt, connection, caller);
        let looked = connection.look(rt, caller);
        let left = self.inner.outgoing.len();
        sum_up(gave, took, heard, looked, left)
    }
}
