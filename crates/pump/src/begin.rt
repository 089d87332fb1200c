//! How a turn of a pump begins.

ghost use Rattle.std.specs.Prelude.{◌≡◌, ◌<◌, ◌≤◌};
ghost use Rattle.outside.specs.Links.{Shown};
ghost use Rattle.pump.specs.Turns.{BeginsSo, BroughtFor, Draws, IsKept, IsPumped, has, is_empty};
ghost use Rattle.pump.specs.declared.numbers.TheConstants as pieces;

use crate::bringing::{Brought, is_ended, tick};
use crate::inner::Inner;
use crate::numbers::PIECE;
use conn::{Caller, Connection};
use outside::Clock;
use std::sync::Wait;
use tape::Tape;

impl Inner {
    /// Draws at most `room` bytes, where no drawn byte is left.
    pub(crate) fn draw_some<T: Tape, R: Wait>(
        &mut self,
        rt: &R,
        connection: &Connection<T>,
        caller: &mut Caller<T>,
        room: usize,
    ) -> Brought
        requires of { caller.old.of ≡ connection.now }
        requires some { 0 < room }
        requires few { room ≤ pieces.PIECE }
        ensures same { caller.new ≡ record caller.old {
          front = caller.new.front;
          note = caller.new.note;
        } }
        ensures draws { Draws (is_empty self.old.outgoing) connection.now.settings caller.old
            caller.new (has self.old) (has self.new) room result }
        ensures rest { self.new ≡ record self.old { outgoing = self.new.outgoing } }
    {
        if self.outgoing.len() != 0 {
            return Brought::Nothing;
        }
        self.outgoing.draw(rt, connection, caller, self.conn, room)
    }

    /// Ticks, and then draws where no drawn byte is left.
    pub(crate) fn begin<T: Tape, K: Clock, R: Wait>(
        &mut self,
        rt: &R,
        connection: &Connection<T>,
        caller: &mut Caller<T>,
        clock: &K,
    ) -> Brought
        requires of { caller.old.of ≡ connection.now }
        ensures same { caller.new ≡ record caller.old {
          front = caller.new.front;
          note = caller.new.note;
        } }
        ensures kept { (s : Shown) → IsKept caller.old s (has self.old)
            → IsKept caller.new s (has self.new) }
        ensures begins { BeginsSo connection.now.settings (K.moments clock.now) caller.old
            self.old.conn self.old.outgoing self.new.outgoing caller.new.front result }
        ensures cause { BroughtFor (IsPumped (K.moments clock.now) self.old.conn)
            connection.now.settings caller.old caller.new.front result }
        ensures rest { self.new ≡ record self.old { outgoing = self.new.outgoing } }
    {
        let ticked = tick(rt, connection, caller, clock);
        if is_ended(ticked) {
            return ticked;
        }
        self.draw_some(rt, connection, caller, PIECE)
    }
}
