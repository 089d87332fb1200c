//! What came, on its way from a pump to the session.

ghost use Rattle.std.specs.Prelude.{◌≡◌, ◌≢◌, [], false, true};
ghost use Rattle.rs_chunk.specs.Stream.{IsWhole};
ghost use Rattle.tape.specs.declared.event.Event.{Event as Happening};
ghost use Rattle.link_model.specs.Reading.{IsInFront};
ghost use Rattle.pump.specs.Turns.{HasWaiting, Hears, IfDone, IsEmptied, Steps, has, is_bad};

use crate::bringing::{Brought, after_some, bring_event, is_bad, leaves};
use crate::inner::Inner;
use conn::{Caller, Connection};
use std::sync::Wait;
use tape::{Event, Tape};

impl Inner {
    // What stood in front has come: bytes that are no frame, or else a frame, which is passed.
    fn settle(&mut self, bad: bool)
        requires fed { self.old.incoming.waits ≡ [] }
        requires good { self.old.bad ≡ false }
        requires whole { bad ≡ false →
            IsWhole self.old.incoming.bytes self.old.incoming.max_in }
        ensures steps { (e : Happening) → is_bad e ≡ bad →
            IsInFront self.old.conn self.old.incoming.bytes self.old.incoming.max_in e →
            Steps self.old self.new e }
        ensures conn { self.new.conn ≡ self.old.conn }
        ensures max_in { self.new.incoming.max_in ≡ self.old.incoming.max_in }
        ensures left { self.new.outgoing ≡ self.old.outgoing }
    {
        if bad {
            self.bad = true;
        } else {
            self.incoming.pass();
        }
    }

    // Brings what stands in front.
    fn bring<T: Tape, R: Wait>(
        &mut self,
        rt: &R,
        connection: &Connection<T>,
        caller: &mut Caller<T>,
        event: Event,
    ) -> Brought
        requires of { caller.old.of ≡ connection.now }
        requires limit { self.old.incoming.max_in ≡ connection.now.settings.max_in }
        requires fed { self.old.incoming.waits ≡ [] }
        requires good { self.old.bad ≡ false }
        requires is { IsInFront self.old.conn self.old.incoming.bytes
            self.old.incoming.max_in event }
        ensures same { caller.new ≡ record caller.old {
          front = caller.new.front;
          note = caller.new.note;
        } }
        ensures hears { Hears connection.now.settings caller.old caller.new (has self.old)
            (has self.new) result }
        ensures some { result ≢ Brought.Nothing }
        ensures conn { self.new.conn ≡ self.old.conn }
        ensures max_in { self.new.incoming.max_in ≡ self.old.incoming.max_in }
        ensures left { self.new.outgoing ≡ self.old.outgoing }
    {
        let bad = is_bad(&event);
        let brought = bring_event(rt, connection, caller, event);
        if !leaves(brought) {
            return brought;
        }
        self.settle(bad);
        brought
    }

    // Brings what stands in front, where something does.
    fn hear<T: Tape, R: Wait>(
        &mut self,
        rt: &R,
        connection: &Connection<T>,
        caller: &mut Caller<T>,
    ) -> Brought
        requires of { caller.old.of ≡ connection.now }
        requires limit { self.old.incoming.max_in ≡ connection.now.settings.max_in }
        ensures same { caller.new ≡ record caller.old {
          front = caller.new.front;
          note = caller.new.note;
        } }
        ensures hears { Hears connection.now.settings caller.old caller.new (has self.old)
            (has self.new) result }
        ensures emptied { result ≡ Brought.Nothing → IsEmptied (has self.new) }
        ensures some { HasWaiting (has self.old) → result ≢ Brought.Nothing }
        ensures quiet { result ≡ Brought.Nothing → caller.new.front ≡ caller.old.front }
        ensures conn { self.new.conn ≡ self.old.conn }
        ensures max_in { self.new.incoming.max_in ≡ self.old.incoming.max_in }
        ensures left { self.new.outgoing ≡ self.old.outgoing }
        ensures dropped { self.old.bad ≡ true → self.new ≡ self.old }
    {
        if self.bad {
            return Brought::Nothing;
        }
        if self.incoming.feed().is_err() {
            return Brought::OutOfMemory;
        }
        match self.incoming.next(self.alloc, self.conn) {
            Err(_) => Brought::OutOfMemory,
            Ok(None) => Brought::Nothing,
            Ok(Some(event)) => self.bring(rt, connection, caller, event),
        }
    }

    /// Brings all that stands in front, up to what stops it.
    pub(crate) fn hear_all<T: Tape, R: Wait>(
        &mut self,
        rt: &R,
        connection: &Connection<T>,
        caller: &mut Caller<T>,
    ) -> Brought
        requires of { caller.old.of ≡ connection.now }
        requires limit { self.old.incoming.max_in ≡ connection.now.settings.max_in }
        ensures same { caller.new ≡ record caller.old {
          front = caller.new.front;
          note = caller.new.note;
        } }
        ensures hears { Hears connection.now.settings caller.old caller.new (has self.old)
            (has self.new) result }
        ensures emptied { IfDone result (IsEmptied (has self.new)) }
        ensures some { HasWaiting (has self.old) → result ≢ Brought.Nothing }
        ensures quiet { result ≡ Brought.Nothing → caller.new.front ≡ caller.old.front }
        ensures conn { self.new.conn ≡ self.old.conn }
        ensures max_in { self.new.incoming.max_in ≡ self.old.incoming.max_in }
        ensures left { self.new.outgoing ≡ self.old.outgoing }
        ensures dropped { self.old.bad ≡ true → self.new ≡ self.old }
    {
        let mut noted = false;
        for _ in rt.forever() {
            let brought = self.hear(rt, connection, caller);
            if brought != Brought::Noted {
                return after_some(noted, brought);
            }
            noted = true;
        }
        unreachable!()
    }
}
