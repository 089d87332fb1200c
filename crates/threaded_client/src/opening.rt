//! Connections are opened and cut, and moments told.

ghost use Rattle.std.specs.Prelude.{◌≡◌, ◌<◌, ◌^◌, ◌++◌, ◌∷◌, [], List, None, false, IfOk, OnOk};
ghost use Rattle.rtrb.specs.Ring.{SameConsumer, SameProducer, received, sent};
ghost use Rattle.rs_wire.specs.declared.words.Side.TheVariants.{Client};
ghost use Rattle.cable_script.specs.declared.line.Line.{Line};
ghost use Rattle.cable_script.specs.declared.line.Line.TheVariants as line;
ghost use Rattle.ring.specs.declared.item.Mark.TheVariants as marks;
ghost use Rattle.tape.specs.declared.answer.Answer.{Answer as Answered};
ghost use Rattle.tape.specs.declared.event.Event.TheVariants as events;
ghost use Rattle.session_model.specs.Legal.{Legal};
ghost use Rattle.threaded_model.specs.Threaded.{made_by};
ghost use Rattle.carriers.specs.Moves.{HasTold};
ghost use Rattle.threaded_client.specs.Carrying.{IsCarrying, IsSound};

use crate::carrier::ClientCarrier;
use carriers::{lose, push_mark, tell};
use conn::{Caller, Connection};
use pump::Pump;
use ring::{Mark, Stop};
use rs_chunk::Reader;
use std::alloc::Global;
use std::sync::Wait;
use tape::{Answer, Event, Tape};

// A pump for a connection on which nothing came.
fn pump_for(alloc: Global, conn: u64, max_in: u32) -> Result<Pump, Stop>
    requires { max_in < 2 ^ 24 }
    ensures { IfOk result (λ p. p ≡ record {
      conn = conn;
      left = [];
      rest = [];
      max_in = max_in;
      bad = false;
    }) }
{
    match Pump::new(alloc, conn, Reader::new(alloc, max_in)) {
        Ok(pump) => Ok(pump),
        Err(_) => Err(Stop::OutOfMemory),
    }
}

// The mark is that of a cut. In a run no other comes there.
fn is_cut(mark: Mark) -> Result<(), Stop>
    ensures { OnOk result (mark ≡ marks.Cut) }
{
    match mark {
        Mark::Cut => Ok(()),
        _ => Err(Stop::Gone),
    }
}

// The number of an opening that was accepted.
fn number_of(answer: &Answer) -> Option<u64>
    ensures { result ≡ made_by answer.now }
{
    match answer {
        Answer::Opened(conn) => Some(*conn),
        _ => None,
    }
}

// Brings an opening: the number of the connection, where it is accepted.
fn bring_opening<T: Tape, R: Wait>(
    rt: &R,
    connection: &Connection<T>,
    caller: &mut Caller<T>,
) -> Result<Option<u64>, Stop>
    requires of { caller.old.of ≡ connection.now }
    requires client { connection.now.settings.side ≡ Client }
    ensures same { caller.new ≡ record caller.old {
      front = caller.new.front;
      note = caller.new.note;
    } }
    ensures told { IfOk result (λ made. (a : Answered) × (made_by a ≡ made) × HasTold
        connection.now.settings caller.old caller.new (events.Open None false) a) }
    ensures legal { Legal caller.new.of.settings caller.new.front }
{
    let answer = tell(rt, connection, caller, Event::opening())?;
    Ok(number_of(&answer))
}

impl<T: Tape> ClientCarrier<T> {
    /// Opens a connection, where none joins the ends.
    pub fn open<R: Wait>(
        &mut self,
        rt: &R,
        alloc: Global,
        connection: &Connection<T>,
    ) -> Result<(), Stop>
        requires of { self.old.caller.of ≡ connection.now }
        requires sound { IsSound connection.now.settings self.old.conn self.old.pump }
        requires client { connection.now.settings.side ≡ Client }
        ensures same { self.new.caller ≡ record self.old.caller {
          front = self.new.caller.front;
          note = self.new.caller.note;
        } }
        ensures out { SameProducer self.old.out self.new.out }
        ensures from { SameConsumer self.old.from self.new.from }
        ensures sound { OnOk result (IsSound connection.now.settings self.new.conn self.new.pump) }
        ensures kept { OnOk result ((done : List Line) →
            IsCarrying self.old.caller done self.old.pump (sent self.old.out)
            (received self.old.from) → IsCarrying self.new.caller (done ++ line.Open ∷ []) self.new.pump
            (sent self.new.out) (received self.new.from)) }
    {
        if self.pump.is_some() {
            return Ok(());
        }
        let Some(conn) = bring_opening(rt, connection, &mut self.caller)? else {
            return Ok(());
        };
        self.conn = conn;
        self.pump = Some(pump_for(alloc, conn, connection.max_in())?);
        Ok(())
    }

    /// Cuts the connection that joins the ends, and reads up to the server's answer. What comes before
    /// it is not brought any more. Where none joins them a line is over, and that is all.
    pub(crate) fn cut<R: Wait>(
        &mut self,
        rt: &R,
        alloc: Global,
        connection: &Connection<T>,
    ) -> Result<(), Stop>
        requires of { self.old.caller.of ≡ connection.now }
        requires sound { IsSound connection.now.settings self.old.conn self.old.pump }
        ensures same { self.new.caller ≡ record self.old.caller {
          front = self.new.caller.front;
          note = self.new.caller.note;
        } }
        ensures out { SameProducer self.old.out self.new.out }
        ensures from { SameConsumer self.old.from self.new.from }
        ensures sound { OnOk result (IsSound connection.now.settings self.new.conn self.new.pump) }
        ensures kept { OnOk result ((done : List Line) →
            IsCarrying self.old.caller done self.old.pump (sent self.old.out)
            (received self.old.from) → IsCarrying self.new.caller (done ++ line.Cut ∷ []) self.new.pump
            (sent self.new.out) (received self.new.from)) }
    {
        let Some(pump) = &mut self.pump else {
            return push_mark(rt, &mut self.out, Mark::Line);
        };
        let conn = self.conn;
        tell(rt, connection, &mut self.caller, Event::Cut { conn })?;
        push_mark(rt, &mut self.out, Mark::Cut)?;
        let mark = lose(rt, alloc, pump, &mut self.from)?;
        self.pump = None;
        is_cut(mark)
    }

    /// Tells a moment, in milliseconds.
    pub(crate) fn tick<R: Wait>(
        &mut self,
        rt: &R,
        connection: &Connection<T>,
        now: u64,
    ) -> Result<(), Stop>
        requires of { self.old.caller.of ≡ connection.now }
        requires sound { IsSound connection.now.settings self.old.conn self.old.pump }
        ensures same { self.new.caller ≡ record self.old.caller {
          front = self.new.caller.front;
          note = self.new.caller.note;
        } }
        ensures out { SameProducer self.old.out self.new.out }
        ensures from { SameConsumer self.old.from self.new.from }
        ensures sound { OnOk result (IsSound connection.now.settings self.new.conn self.new.pump) }
        ensures kept { OnOk result ((done : List Line) →
            IsCarrying self.old.caller done self.old.pump (sent self.old.out)
            (received self.old.from) → IsCarrying self.new.caller (done ++ line.Tick now ∷ []) self.new.pump
            (sent self.new.out) (received self.new.from)) }
    {
        tell(rt, connection, &mut self.caller, Event::Tick { now })?;
        Ok(())
    }
}
