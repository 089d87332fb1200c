//! The lines of a script, in order.

ghost use Rattle.std.specs.Prelude.{◌≡◌, ◌++◌, ◌∷◌, List, [], true, option_to_list, OnOk};
ghost use Rattle.rs_wire.specs.declared.words.Side.TheVariants.{Server};
ghost use Rattle.cable_script.specs.declared.line.Line.{Line as Followed};
ghost use Rattle.rtrb.specs.Ring.{SameConsumer, SameProducer, received, sent};
ghost use Rattle.threaded_model.specs.Threaded.{told_in};
ghost use Rattle.threaded_server.specs.Carrying.{IsCarrying, IsSound, KeepsOn};

use crate::carrier::ServerCarrier;
use crate::knows::Knows;
use cable_script::Line;
use carriers::{is_more, push_mark, tell};
use conn::Connection;
use ring::{Mark, Stop};
use rs_chunk::Reader;
use std::alloc::Global;
use std::sync::Wait;
use tape::{Event, Tape};

// Whether it is the mark of a cut.
fn is_cut(mark: Mark) -> bool
    ensures { result ≡ true → mark ≡ Mark.Cut }
{
    matches!(mark, Mark::Cut)
}

// The moment that a line tells.
fn moment_of(line: &Line) -> Option<u64>
    ensures { told_in line.now ≡ option_to_list result }
{
    match line {
        Line::Tick { now } => Some(*now),
        _ => None,
    }
}

impl<T: Tape> ServerCarrier<T> {
    // Cuts the connection that joins the ends, where it was accepted and is live.
    fn part<R: Wait>(&mut self, rt: &R, connection: &Connection<T>) -> Result<(), Stop>
        requires of { self.old.caller.of ≡ connection.now }
        requires sound { IsSound connection.now.settings self.old.knows }
        ensures same { self.new.caller ≡ record self.old.caller {
          front = self.new.caller.front;
          note = self.new.caller.note;
        } }
        ensures out { self.new.out ≡ self.old.out }
        ensures from { self.new.from ≡ self.old.from }
        ensures knows { self.new.knows ≡ self.old.knows }
        ensures kept { OnOk result (KeepsOn 1 1 self.old.caller self.new.caller
            self.old.knows self.new.knows (sent self.old.out) (sent self.new.out)
            (received self.old.from) (received self.new.from)) }
    {
        let Knows::Accepted { conn, .. } = &self.knows else {
            return Ok(());
        };
        let conn = *conn;
        if connection.look(rt, &mut self.caller).live != conn {
            return Ok(());
        }
        tell(rt, connection, &mut self.caller, Event::Cut { conn })?;
        Ok(())
    }

    // Answers a cut: from here on another connection joins the ends, of which it knows nothing.
    fn forget<R: Wait>(
        &mut self,
        rt: &R,
        alloc: Global,
        connection: &Connection<T>,
    ) -> Result<(), Stop>
        requires of { self.old.caller.of ≡ connection.now }
        ensures caller { self.new.caller ≡ self.old.caller }
        ensures out { SameProducer self.old.out self.new.out }
        ensures from { self.new.from ≡ self.old.from }
        ensures sound { OnOk result (IsSound connection.now.settings self.new.knows) }
        ensures kept { OnOk result (KeepsOn 1 0 self.old.caller self.new.caller
            self.old.knows self.new.knows (sent self.old.out) (sent self.new.out)
            (received self.old.from) (received self.new.from)) }
    {
        push_mark(rt, &mut self.out, Mark::Cut)?;
        self.knows = Knows::Nothing(Reader::new(alloc, connection.max_in()));
        Ok(())
    }

    // Cuts the connection here too, and answers the cut.
    fn answer<R: Wait>(
        &mut self,
        rt: &R,
        alloc: Global,
        connection: &Connection<T>,
    ) -> Result<(), Stop>
        requires of { self.old.caller.of ≡ connection.now }
        requires sound { IsSound connection.now.settings self.old.knows }
        ensures same { self.new.caller ≡ record self.old.caller {
          front = self.new.caller.front;
          note = self.new.caller.note;
        } }
        ensures out { SameProducer self.old.out self.new.out }
        ensures from { self.new.from ≡ self.old.from }
        ensures sound { OnOk result (IsSound connection.now.settings self.new.knows) }
        ensures kept { OnOk result (KeepsOn 1 0 self.old.caller self.new.caller
            self.old.knows self.new.knows (sent self.old.out) (sent self.new.out)
            (received self.old.from) (received self.new.from)) }
    {
        self.part(rt, connection)?;
        self.forget(rt, alloc, connection)
    }

    // Reads up to the next mark, and brings what came; where the client cut the connection it is cut
    // here, too, and the cut is answered.
    fn cut<R: Wait>(
        &mut self,
        rt: &R,
        alloc: Global,
        connection: &Connection<T>,
    ) -> Result<(), Stop>
        requires of { self.old.caller.of ≡ connection.now }
        requires server { connection.now.settings.side ≡ Server }
        requires sound { IsSound connection.now.settings self.old.knows }
        ensures same { self.new.caller ≡ record self.old.caller {
          front = self.new.caller.front;
          note = self.new.caller.note;
        } }
        ensures out { SameProducer self.old.out self.new.out }
        ensures from { SameConsumer self.old.from self.new.from }
        ensures sound { OnOk result (IsSound connection.now.settings self.new.knows) }
        ensures kept { OnOk result (KeepsOn 0 0 self.old.caller self.new.caller
            self.old.knows self.new.knows (sent self.old.out) (sent self.new.out)
            (received self.old.from) (received self.new.from)) }
    {
        let heard = self.read(rt, alloc, connection)?;
        let cut = is_cut(heard.mark);
        if cut {
            return self.answer(rt, alloc, connection);
        }
        is_more(heard.mark)?;
        Ok(())
    }

    // Tells a moment, in milliseconds.
    fn tick<R: Wait>(&mut self, rt: &R, connection: &Connection<T>, now: u64) -> Result<(), Stop>
        requires of { self.old.caller.of ≡ connection.now }
        ensures same { self.new.caller ≡ record self.old.caller {
          front = self.new.caller.front;
          note = self.new.caller.note;
        } }
        ensures out { self.new.out ≡ self.old.out }
        ensures from { self.new.from ≡ self.old.from }
        ensures knows { self.new.knows ≡ self.old.knows }
        ensures kept { OnOk result ((lines : List Followed) (l : Followed) → told_in l ≡ now ∷ [] →
            IsCarrying self.old.caller lines self.old.knows (sent self.old.out)
            (received self.old.from) → IsCarrying self.new.caller (lines ++ l ∷ []) self.new.knows
            (sent self.new.out) (received self.new.from)) }
    {
        tell(rt, connection, &mut self.caller, Event::Tick { now })?;
        Ok(())
    }

    // A line down: bytes, and then a mark.
    fn line_down<R: Wait>(
        &mut self,
        rt: &R,
        connection: &Connection<T>,
        most: u64,
    ) -> Result<(), Stop>
        requires of { self.old.caller.of ≡ connection.now }
        requires sound { IsSound connection.now.settings self.old.knows }
        ensures same { self.new.caller ≡ record self.old.caller {
          front = self.new.caller.front;
          note = self.new.caller.note;
        } }
        ensures out { SameProducer self.old.out self.new.out }
        ensures from { self.new.from ≡ self.old.from }
        ensures sound { OnOk result (IsSound connection.now.settings self.new.knows) }
        ensures kept { OnOk result (KeepsOn 0 0 self.old.caller self.new.caller
            self.old.knows self.new.knows (sent self.old.out) (sent self.new.out)
            (received self.old.from) (received self.new.from)) }
    {
        self.down(rt, connection, most)?;
        self.step(rt, false)
    }

    // A line up.
    fn line_up<R: Wait>(
        &mut self,
        rt: &R,
        alloc: Global,
        connection: &Connection<T>,
    ) -> Result<(), Stop>
        requires of { self.old.caller.of ≡ connection.now }
        requires server { connection.now.settings.side ≡ Server }
        requires sound { IsSound connection.now.settings self.old.knows }
        ensures same { self.new.caller ≡ record self.old.caller {
          front = self.new.caller.front;
          note = self.new.caller.note;
        } }
        ensures out { self.new.out ≡ self.old.out }
        ensures from { SameConsumer self.old.from self.new.from }
        ensures sound { OnOk result (IsSound connection.now.settings self.new.knows) }
        ensures kept { OnOk result (KeepsOn 0 0 self.old.caller self.new.caller
            self.old.knows self.new.knows (sent self.old.out) (sent self.new.out)
            (received self.old.from) (received self.new.from)) }
    {
        self.up(rt, alloc, connection)?;
        Ok(())
    }

    // Moves the bytes that a line moves, or answers the cut.
    fn carry<R: Wait>(
        &mut self,
        rt: &R,
        alloc: Global,
        connection: &Connection<T>,
        line: &Line,
    ) -> Result<(), Stop>
        requires of { self.old.caller.of ≡ connection.now }
        requires server { connection.now.settings.side ≡ Server }
        requires sound { IsSound connection.now.settings self.old.knows }
        ensures same { self.new.caller ≡ record self.old.caller {
          front = self.new.caller.front;
          note = self.new.caller.note;
        } }
        ensures out { SameProducer self.old.out self.new.out }
        ensures from { SameConsumer self.old.from self.new.from }
        ensures sound { OnOk result (IsSound connection.now.settings self.new.knows) }
        ensures kept { OnOk result (KeepsOn 0 0 self.old.caller self.new.caller
            self.old.knows self.new.knows (sent self.old.out) (sent self.new.out)
            (received self.old.from) (received self.new.from)) }
    {
        match line {
            Line::Up { .. } => self.line_up(rt, alloc, connection),
            Line::Down { most } => self.line_down(rt, connection, u64::from(most.get())),
            Line::Drain => self.drain(rt, alloc, connection),
            Line::Cut => self.cut(rt, alloc, connection),
            _ => Ok(()),
        }
    }

    // Does what a line does at the server's carrier.
    fn line<R: Wait>(
        &mut self,
        rt: &R,
        alloc: Global,
        connection: &Connection<T>,
        line: &Line,
    ) -> Result<(), Stop>
        requires of { self.old.caller.of ≡ connection.now }
        requires server { connection.now.settings.side ≡ Server }
        requires sound { IsSound connection.now.settings self.old.knows }
        ensures same { self.new.caller ≡ record self.old.caller {
          front = self.new.caller.front;
          note = self.new.caller.note;
        } }
        ensures out { SameProducer self.old.out self.new.out }
        ensures from { SameConsumer self.old.from self.new.from }
        ensures sound { OnOk result (IsSound connection.now.settings self.new.knows) }
        ensures kept { OnOk result ((lines : List Followed) → IsCarrying self.old.caller lines
            self.old.knows (sent self.old.out) (received self.old.from) →
            IsCarrying self.new.caller (lines ++ line.now ∷ []) self.new.knows (sent self.new.out)
            (received self.new.from)) }
    {
        match moment_of(line) {
            Some(now) => self.tick(rt, connection, now),
            None => self.carry(rt, alloc, connection, line),
        }
    }

    /// Goes through the lines, in order.
    pub fn carry_all<R: Wait>(
        &mut self,
        rt: &R,
        alloc: Global,
        connection: &Connection<T>,
        lines: &[Line],
    ) -> Result<(), Stop>
        requires of { self.old.caller.of ≡ connection.now }
        requires server { connection.now.settings.side ≡ Server }
        requires sound { IsSound connection.now.settings self.old.knows }
        ensures same { self.new.caller ≡ record self.old.caller {
          front = self.new.caller.front;
          note = self.new.caller.note;
        } }
        ensures out { SameProducer self.old.out self.new.out }
        ensures from { SameConsumer self.old.from self.new.from }
        ensures sound { OnOk result (IsSound connection.now.settings self.new.knows) }
        ensures kept { OnOk result ((before : List Followed) → IsCarrying self.old.caller before
            self.old.knows (sent self.old.out) (received self.old.from) →
            IsCarrying self.new.caller (before ++ lines.now) self.new.knows (sent self.new.out)
            (received self.new.from)) }
    {
        for line in lines {
            self.line(rt, alloc, connection, line)?;
        }
        Ok(())
    }
}
