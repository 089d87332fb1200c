//! Turns of a pump, one after the other.

ghost use Rattle.std.specs.Prelude.{◌≡◌, false};
ghost use Rattle.outside.specs.Links.{NoneFell};
ghost use Rattle.pump.specs.Turns.{GoesOn, IsKept, IsPumped, IsReadOut, is_early};
ghost use Rattle.pump.specs.Runs.{IsRun, RanFor, placed};

use crate::pump::Pump;
use crate::turned::{Turned, is_last, lulls_in};
use conn::{Caller, Connection};
use outside::{Clock, Link};
use std::sync::Wait;
use tape::Tape;

impl Pump {
    /// Turns while the pump goes on. It answers the last result, or `Lull` where that is the lull
    /// of this number, counted from 1; 0 counts as 1.
    pub fn run<T: Tape, L: Link, K: Clock, R: Wait>(
        &mut self,
        rt: &R,
        connection: &Connection<T>,
        caller: &mut Caller<T>,
        link: &mut L,
        clock: &K,
        lulls: u64,
    ) -> Turned
        requires of { caller.old.of ≡ connection.now }
        requires limit { self.old.max_in ≡ connection.now.settings.max_in }
        ensures same { caller.new ≡ record caller.old {
          front = caller.new.front;
          note = caller.new.note;
        } }
        ensures kept { IsKept caller.old (L.shown link.old) self.old
            → IsKept caller.new (L.shown link.new) self.new }
        ensures goes { GoesOn (IsPumped (K.moments clock.now) self.old.conn) caller.old
            caller.new.front }

        // Turns, each of which lets the pump go on, with fewer lulls; and then the last.
        ensures turns { IsRun connection.now.settings (K.moments clock.now) lulls
            (placed caller.old (L.shown link.old) self.old)
            (placed caller.new (L.shown link.new) self.new) result }
        ensures cause { RanFor connection.now.settings (K.moments clock.now) lulls caller.old
            caller.new.front (L.shown link.old) (L.shown link.new) self.new result }
        ensures read { is_early result ≡ false →
            IsReadOut connection.now.settings caller.old self.new caller.new.front }
        ensures counted { NoneFell (L.shown link.old).counts (L.shown link.new).counts }
        ensures conn { self.new.conn ≡ self.old.conn }
        ensures max_in { self.new.max_in ≡ self.old.max_in }
    {
        let mut met = 0u64;
        for _ in rt.forever() {
            let turned = self.turn(rt, connection, caller, link, clock);
            if is_last(turned) {
                return turned;
            }
            met = met.saturating_add(lulls_in(turned));
            if met >= lulls && turned == Turned::Lull {
                return Turned::Lull;
            }
        }
        unreachable!()
    }
}
