//! Bytes go up, and come down.

ghost use Rattle.std.specs.Prelude.{◌≡◌, ◌++◌, ◌∷◌, [], List, true, IfOk, IfSome, OnOk};
ghost use Rattle.rtrb.specs.Ring.{SameConsumer, SameProducer, received, sent};
ghost use Rattle.cable_script.specs.declared.line.Line.{Line};
ghost use Rattle.ring.specs.declared.item.Item.TheVariants as item;
ghost use Rattle.ring.specs.declared.item.Mark.TheVariants as mark;
ghost use Rattle.pump.specs.Turns.{GoesOn, IsEmptied};
ghost use Rattle.carriers.specs.Moves.{mark_for};
ghost use Rattle.threaded_client.specs.Carrying.{IsAny, IsCarrying, IsSound};

use crate::carrier::ClientCarrier;
use carriers::{heard_before, is_more, push_mark, send, skip, take};
use conn::Connection;
use ring::{Mark, Stop};
use std::alloc::Global;
use std::sync::Wait;
use tape::Tape;

// The mark between two halves of a round.
fn mark_of(more: bool) -> Mark
    ensures { result ≡ mark_for more }
{
    if more { Mark::More } else { Mark::Line }
}

impl<T: Tape> ClientCarrier<T> {
    /// Draws what is queued now, at most `most` bytes of it, and pushes it: whether there was something.
    pub fn up<R: Wait>(
        &mut self,
        rt: &R,
        connection: &Connection<T>,
        most: u64,
    ) -> Result<bool, Stop>
        requires of { self.old.caller.of ≡ connection.now }
        requires sound { IsSound connection.now.settings self.old.conn self.old.pump }
        ensures same { self.new.caller ≡ record self.old.caller {
          front = self.new.caller.front;
          note = self.new.caller.note;
        } }
        ensures out { SameProducer self.old.out self.new.out }
        ensures from { SameConsumer self.old.from self.new.from }
        ensures sound { OnOk result (IsSound connection.now.settings self.new.conn self.new.pump) }
        ensures goes { OnOk result (GoesOn IsAny self.old.caller self.new.caller.front) }
        ensures kept { OnOk result ((done : List Line) →
            IsCarrying self.old.caller done self.old.pump (sent self.old.out)
            (received self.old.from) → IsCarrying self.new.caller done self.new.pump
            (sent self.new.out) (received self.new.from)) }
    {
        match &mut self.pump {
            None => Ok(false),
            Some(pump) => send(rt, connection, &mut self.caller, pump, &mut self.out, most),
        }
    }

    /// Reads up to the next mark, and brings what came: whether something came here, or at the server
    /// by its mark.
    pub fn down<R: Wait>(
        &mut self,
        rt: &R,
        alloc: Global,
        connection: &Connection<T>,
    ) -> Result<bool, Stop>
        requires of { self.old.caller.of ≡ connection.now }
        requires sound { IsSound connection.now.settings self.old.conn self.old.pump }
        ensures same { self.new.caller ≡ record self.old.caller {
          front = self.new.caller.front;
          note = self.new.caller.note;
        } }
        ensures out { SameProducer self.old.out self.new.out }
        ensures from { SameConsumer self.old.from self.new.from }
        ensures sound { OnOk result (IsSound connection.now.settings self.new.conn self.new.pump) }
        ensures goes { OnOk result (GoesOn IsAny self.old.caller self.new.caller.front) }
        ensures kept { OnOk result ((done : List Line) →
            IsCarrying self.old.caller done self.old.pump (sent self.old.out)
            (received self.old.from) → IsCarrying self.new.caller done self.new.pump
            (sent self.new.out) (received self.new.from)) }
    {
        match &mut self.pump {
            None => is_more(skip(rt, alloc, &mut self.from)?),
            Some(pump) => {
                let heard = take(
                    rt,
                    alloc,
                    connection,
                    &mut self.caller,
                    pump,
                    &mut self.from,
                )?;
                let more = is_more(heard.mark)?;
                Ok(heard.moved || more)
            }
        }
    }

    /// Brings what stands in front once more: whether nothing that can come stands there then.
    pub fn heard<R: Wait>(&mut self, rt: &R, connection: &Connection<T>) -> Result<bool, Stop>
        requires of { self.old.caller.of ≡ connection.now }
        requires sound { IsSound connection.now.settings self.old.conn self.old.pump }
        ensures same { self.new.caller ≡ record self.old.caller {
          front = self.new.caller.front;
          note = self.new.caller.note;
        } }
        ensures out { SameProducer self.old.out self.new.out }
        ensures from { SameConsumer self.old.from self.new.from }
        ensures sound { OnOk result (IsSound connection.now.settings self.new.conn self.new.pump) }
        ensures goes { OnOk result (GoesOn IsAny self.old.caller self.new.caller.front) }
        ensures kept { OnOk result ((done : List Line) →
            IsCarrying self.old.caller done self.old.pump (sent self.old.out)
            (received self.old.from) → IsCarrying self.new.caller done self.new.pump
            (sent self.new.out) (received self.new.from)) }
        ensures emptied { IfOk result (λ all. all ≡ true →
            IfSome self.new.pump (λ b. IsEmptied b)) }
    {
        match &mut self.pump {
            None => Ok(true),
            Some(pump) => heard_before(rt, connection, &mut self.caller, pump),
        }
    }

    /// Pushes the mark between two halves of a round: whether something came.
    pub fn step<R: Wait>(&mut self, rt: &R, more: bool) -> Result<(), Stop>
        ensures rest { self.new ≡ record self.old { out = self.new.out } }
        ensures out { SameProducer self.old.out self.new.out }
        ensures kept { OnOk result ((done : List Line) →
            IsCarrying self.old.caller done self.old.pump (sent self.old.out)
            (received self.old.from) → IsCarrying self.new.caller done self.new.pump
            (sent self.new.out) (received self.new.from)) }
    {
        push_mark(rt, &mut self.out, mark_of(more))
    }

    // A round: whether another is due.
    fn round<R: Wait>(
        &mut self,
        rt: &R,
        alloc: Global,
        connection: &Connection<T>,
    ) -> Result<bool, Stop>
        requires of { self.old.caller.of ≡ connection.now }
        requires sound { IsSound connection.now.settings self.old.conn self.old.pump }
        ensures same { self.new.caller ≡ record self.old.caller {
          front = self.new.caller.front;
          note = self.new.caller.note;
        } }
        ensures out { SameProducer self.old.out self.new.out }
        ensures from { SameConsumer self.old.from self.new.from }
        ensures sound { OnOk result (IsSound connection.now.settings self.new.conn self.new.pump) }
        ensures kept { OnOk result ((done : List Line) →
            IsCarrying self.old.caller done self.old.pump (sent self.old.out)
            (received self.old.from) → IsCarrying self.new.caller done self.new.pump
            (sent self.new.out) (received self.new.from)) }
    {
        let gave = self.up(rt, connection, u64::MAX)?;
        self.step(rt, false)?;
        let came = self.down(rt, alloc, connection)?;
        let again = gave || came;
        self.step(rt, again)?;
        Ok(again)
    }

    /// Rounds, until nothing moves.
    pub(crate) fn drain<R: Wait>(
        &mut self,
        rt: &R,
        alloc: Global,
        connection: &Connection<T>,
    ) -> Result<(), Stop>
        requires of { self.old.caller.of ≡ connection.now }
        requires sound { IsSound connection.now.settings self.old.conn self.old.pump }
        ensures same { self.new.caller ≡ record self.old.caller {
          front = self.new.caller.front;
          note = self.new.caller.note;
        } }
        ensures out { SameProducer self.old.out self.new.out }
        ensures from { SameConsumer self.old.from self.new.from }
        ensures sound { OnOk result (IsSound connection.now.settings self.new.conn self.new.pump) }
        ensures kept { OnOk result ((done : List Line) →
            IsCarrying self.old.caller done self.old.pump (sent self.old.out)
            (received self.old.from) → IsCarrying self.new.caller done self.new.pump
            (sent self.new.out) (received self.new.from)) }
    {
        for _ in rt.forever() {
            if !self.round(rt, alloc, connection)? {
                return Ok(());
            }
        }
        unreachable!()
    }

    /// Pushes the mark of the end, after which nothing is pushed.
    pub fn end<R: Wait>(&mut self, rt: &R) -> Result<(), Stop>
        ensures rest { self.new ≡ record self.old { out = self.new.out } }
        ensures out { SameProducer self.old.out self.new.out }
        ensures ended { OnOk result
            (sent self.new.out ≡ sent self.old.out ++ item.Mark mark.End ∷ []) }
    {
        push_mark(rt, &mut self.out, Mark::End)
    }

    /// Reads the mark of the end, before which no byte comes.
    pub fn finish<R: Wait>(&mut self, rt: &R, alloc: Global) -> Result<(), Stop>
        ensures rest { self.new ≡ record self.old { from = self.new.from } }
        ensures from { SameConsumer self.old.from self.new.from }
        ensures finished { OnOk result
            (received self.new.from ≡ received self.old.from ++ item.Mark mark.End ∷ []) }
    {
        match skip(rt, alloc, &mut self.from)? {
            Mark::End => Ok(()),
            _ => Err(Stop::Gone),
        }
    }
}
