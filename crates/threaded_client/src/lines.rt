//! The lines of a script, in order.

ghost use Rattle.std.specs.Prelude.{◌≡◌, ◌++◌, ◌∷◌, [], List, OnOk};
ghost use Rattle.rtrb.specs.Ring.{SameConsumer, SameProducer, received, sent};
ghost use Rattle.rs_wire.specs.declared.words.Side.TheVariants.{Client};
ghost use Rattle.cable_script.specs.declared.line.Line.{Line as Said};
ghost use Rattle.threaded_client.specs.Carrying.{IsCarrying, IsSound};

use crate::carrier::ClientCarrier;
use cable_script::Line;
use conn::Connection;
use ring::Stop;
use std::alloc::Global;
use std::sync::Wait;
use tape::Tape;

impl<T: Tape> ClientCarrier<T> {
    // Does what a line does at the client's carrier.
    fn line<R: Wait>(
        &mut self,
        rt: &R,
        alloc: Global,
        connection: &Connection<T>,
        line: &Line,
    ) -> Result<(), Stop>
        requires of { self.old.caller.of ≡ connection.now }
        requires sound { IsSound connection.now.settings self.old.conn self.old.pump }
        requires client { connection.now.settings.side ≡ Client }
        ensures same { self.new.caller ≡ record self.old.caller {
          front = self.new.caller.front;
          note = self.new.caller.note;
        } }
        ensures out { SameProducer self.old.out self.new.out }
        ensures from { SameConsumer self.old.from self.new.from }
        ensures sound { OnOk result (IsSound connection.now.settings self.new.conn self.new.pump) }
        ensures kept { OnOk result ((done : List Said) →
            IsCarrying self.old.caller done self.old.pump (sent self.old.out)
            (received self.old.from) → IsCarrying self.new.caller (done ++ line.now ∷ []) self.new.pump
            (sent self.new.out) (received self.new.from)) }
    {
        match line {
            Line::Up { most } => {
                self.up(rt, connection, u64::from(most.get()))?;
                self.step(rt, false)
            }
            Line::Down { .. } => {
                self.down(rt, alloc, connection)?;
                Ok(())
            }
            Line::Drain => self.drain(rt, alloc, connection),
            Line::Cut => self.cut(rt, alloc, connection),
            Line::Open => self.open(rt, alloc, connection),
            Line::Tick { now } => self.tick(rt, connection, *now),
            // The calls are another caller's, and a connection is given up at both ends or at none.
            Line::Ask { .. } => Ok(()),
            Line::Many { .. } => Ok(()),
            Line::Drop => Ok(()),
            Line::Late { .. } => Ok(()),
        }
    }

    /// Goes through the lines, in order.
    pub fn carry_all<R: Wait>(
        &mut self,
        rt: &R,
        alloc: Global,
        connection: &Connection<T>,
        lines: &[Line],
    ) -> Result<(), Stop>
        requires of { self.old.caller.of ≡ connection.now }
        requires sound { IsSound connection.now.settings self.old.conn self.old.pump }
        requires client { connection.now.settings.side ≡ Client }
        ensures same { self.new.caller ≡ record self.old.caller {
          front = self.new.caller.front;
          note = self.new.caller.note;
        } }
        ensures out { SameProducer self.old.out self.new.out }
        ensures from { SameConsumer self.old.from self.new.from }
        ensures sound { OnOk result (IsSound connection.now.settings self.new.conn self.new.pump) }
        ensures kept { OnOk result ((done : List Said) →
            IsCarrying self.old.caller done self.old.pump (sent self.old.out)
            (received self.old.from) → IsCarrying self.new.caller (done ++ lines.now) self.new.pump
            (sent self.new.out) (received self.new.from)) }
    {
        for line in lines {
            self.line(rt, alloc, connection, line)?;
        }
        Ok(())
    }
}
