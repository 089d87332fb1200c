//! Bytes come up, and go down.

ghost use Rattle.std.specs.Prelude.{◌≡◌, ◌≤◌, ◌+◌, ◌++◌, ◌∷◌, [], ℕ, length, true, IfOk, OnOk};
ghost use Rattle.rs_wire.specs.declared.words.Side.TheVariants.{Server};
ghost use Rattle.rtrb.specs.Ring.{SameConsumer, SameProducer, received, sent};
ghost use Rattle.ring.specs.declared.item.Item.TheVariants as item;
ghost use Rattle.ring.specs.declared.item.Mark.TheVariants as mark;
ghost use Rattle.ring.specs.Parts.{bytes_of, cuts};
ghost use Rattle.carriers.specs.Moves.{mark_for};
ghost use Rattle.pump.specs.Turns.{GoesOn};
ghost use Rattle.threaded_server.specs.Carrying.{IsAny, IsEmptiedOn, IsSound, KeepsOn};
ghost use Rattle.threaded_server.specs.Moves.{HasFilled, HasPassed, HasPushed};

use crate::carrier::ServerCarrier;
use crate::knows::Knows;
use crate::opening::begin;
use carriers::{Heard, heard_before, is_more, push_mark, send, skip, take};
use conn::Connection;
use ring::{Item, Mark, Stop, push_bytes, read_line};
use rs_chunk::Reader;
use rs_wire::Blob;
use rtrb::{Consumer, Producer};
use std::alloc::Global;
use std::sync::Wait;
use tape::Tape;

// Reads up to the next mark, and adds what came to the reader.
fn fill<R: Wait>(
    rt: &R,
    alloc: Global,
    reader: &mut Reader,
    from: &mut Consumer<Item>,
) -> Result<Heard, Stop>
    ensures ring { SameConsumer from.old from.new }
    ensures filled { IfOk result (λ h. HasFilled reader.old reader.new h.mark
        (received from.old) (received from.new)) }
{
    let mut bytes = Vec::new(alloc);
    let mark = read_line(rt, from, &mut bytes)?;
    match reader.feed(&bytes) {
        Ok(()) => Ok(Heard { mark, moved: false }),
        Err(_) => Err(Stop::OutOfMemory),
    }
}

// Reads up to the next mark, and drops what came.
fn pass_over<R: Wait>(rt: &R, alloc: Global, from: &mut Consumer<Item>) -> Result<Heard, Stop>
    ensures ring { SameConsumer from.old from.new }
    ensures passed { IfOk result (λ h. HasPassed h.mark (received from.old) (received from.new)) }
{
    let mut bytes = Vec::new(alloc);
    let mark = read_line(rt, from, &mut bytes)?;
    Ok(Heard { mark, moved: false })
}

// The less of the two.
fn at_most(left: usize, most: u64) -> usize
    ensures { result ≤ left }
{
    if most < left as u64 {
        most as usize
    } else {
        left
    }
}

// Pushes at most so many bytes of what is left of a refusal.
fn push_refusal<R: Wait>(
    rt: &R,
    out: &mut Producer<Item>,
    bytes: &Blob,
    pushed: &mut usize,
    most: u64,
) -> Result<(), Stop>
    requires { pushed.old ≤ length bytes.now }
    ensures ring { SameProducer out.old out.new }
    ensures pushed { OnOk result (HasPushed bytes.now pushed.old pushed.new
        (sent out.old) (sent out.new)) }
{
    let start = *pushed;
    let end = start + at_most(bytes.len() - start, most);
    match push_bytes(rt, out, &bytes.as_slice()[start..end]) {
        Ok(()) => {
            *pushed = end;
            Ok(())
        }
        Err(_) => Err(Stop::Gone),
    }
}

// The mark between two halves of a round.
fn between(more: bool) -> Mark
    ensures { result ≡ mark_for more }
{
    if more { Mark::More } else { Mark::Line }
}

impl<T: Tape> ServerCarrier<T> {
    // Reads up to the next mark: what is brought on a connection that was accepted is what came.
    fn read_on<R: Wait>(
        &mut self,
        rt: &R,
        alloc: Global,
        connection: &Connection<T>,
    ) -> Result<Heard, Stop>
        requires of { self.old.caller.of ≡ connection.now }
        requires sound { IsSound connection.now.settings self.old.knows }
        ensures same { self.new.caller ≡ record self.old.caller {
          front = self.new.caller.front;
          note = self.new.caller.note;
        } }
        ensures out { self.new.out ≡ self.old.out }
        ensures from { SameConsumer self.old.from self.new.from }
        ensures sound { OnOk result (IsSound connection.now.settings self.new.knows) }
        ensures goes { OnOk result (GoesOn IsAny self.old.caller self.new.caller.front) }
        ensures kept { IfOk result (λ h. KeepsOn 0 (cuts (item.Mark h.mark ∷ []))
            self.old.caller self.new.caller self.old.knows self.new.knows (sent self.old.out) (sent self.new.out)
            (received self.old.from) (received self.new.from)) }
    {
        match &mut self.knows {
            Knows::Nothing(reader) => fill(rt, alloc, reader, &mut self.from),
            Knows::Accepted { pump, .. } => {
                take(
                    rt,
                    alloc,
                    connection,
                    &mut self.caller,
                    pump,
                    &mut self.from,
                )
            }
            Knows::Refused { .. } => pass_over(rt, alloc, &mut self.from),
        }
    }

    // Opens a connection by the first frame, where none is known and a frame came: whether it did.
    fn open<R: Wait>(
        &mut self,
        rt: &R,
        alloc: Global,
        connection: &Connection<T>,
    ) -> Result<bool, Stop>
        requires of { self.old.caller.of ≡ connection.now }
        requires server { connection.now.settings.side ≡ Server }
        requires sound { IsSound connection.now.settings self.old.knows }
        ensures same { self.new.caller ≡ record self.old.caller {
          front = self.new.caller.front;
          note = self.new.caller.note;
        } }
        ensures out { self.new.out ≡ self.old.out }
        ensures from { self.new.from ≡ self.old.from }
        ensures sound { OnOk result (IsSound connection.now.settings self.new.knows) }
        ensures goes { OnOk result (GoesOn IsAny self.old.caller self.new.caller.front) }
        ensures kept { OnOk result ((u : ℕ) → KeepsOn u u self.old.caller self.new.caller
            self.old.knows self.new.knows (sent self.old.out) (sent self.new.out)
            (received self.old.from) (received self.new.from)) }
    {
        let Knows::Nothing(reader) = &mut self.knows else {
            return Ok(false);
        };
        let Some(knows) = begin(rt, alloc, connection, &mut self.caller, reader)? else {
            return Ok(false);
        };
        self.knows = knows;
        Ok(true)
    }

    /// Brings what stands in front once more, on a connection that was accepted: whether nothing that
    /// can come stands there then.
    pub fn heard<R: Wait>(&mut self, rt: &R, connection: &Connection<T>) -> Result<bool, Stop>
        requires of { self.old.caller.of ≡ connection.now }
        requires sound { IsSound connection.now.settings self.old.knows }
        ensures same { self.new.caller ≡ record self.old.caller {
          front = self.new.caller.front;
          note = self.new.caller.note;
        } }
        ensures out { self.new.out ≡ self.old.out }
        ensures from { self.new.from ≡ self.old.from }
        ensures sound { OnOk result (IsSound connection.now.settings self.new.knows) }
        ensures emptied { IfOk result (λ all. all ≡ true → IsEmptiedOn self.new.knows) }
        ensures goes { OnOk result (GoesOn IsAny self.old.caller self.new.caller.front) }
        ensures kept { OnOk result ((u : ℕ) → KeepsOn u u self.old.caller self.new.caller
            self.old.knows self.new.knows (sent self.old.out) (sent self.new.out)
            (received self.old.from) (received self.new.from)) }
    {
        match &mut self.knows {
            Knows::Accepted { pump, .. } => heard_before(rt, connection, &mut self.caller, pump),
            _ => Ok(true),
        }
    }

    /// Reads up to the next mark, whatever it is, and brings what came.
    pub(crate) fn read<R: Wait>(
        &mut self,
        rt: &R,
        alloc: Global,
        connection: &Connection<T>,
    ) -> Result<Heard, Stop>
        requires of { self.old.caller.of ≡ connection.now }
        requires server { connection.now.settings.side ≡ Server }
        requires sound { IsSound connection.now.settings self.old.knows }
        ensures same { self.new.caller ≡ record self.old.caller {
          front = self.new.caller.front;
          note = self.new.caller.note;
        } }
        ensures out { self.new.out ≡ self.old.out }
        ensures from { SameConsumer self.old.from self.new.from }
        ensures sound { OnOk result (IsSound connection.now.settings self.new.knows) }
        ensures goes { OnOk result (GoesOn IsAny self.old.caller self.new.caller.front) }
        ensures kept { IfOk result (λ h. KeepsOn 0 (cuts (item.Mark h.mark ∷ []))
            self.old.caller self.new.caller self.old.knows self.new.knows (sent self.old.out) (sent self.new.out)
            (received self.old.from) (received self.new.from)) }
    {
        let heard = self.read_on(rt, alloc, connection)?;
        if !self.open(rt, alloc, connection)? {
            return Ok(heard);
        }
        self.heard(rt, connection)?;
        Ok(Heard {
            mark: heard.mark,
            moved: true,
        })
    }

    /// Reads up to the next mark, which is that of a line, and brings what came.
    pub fn up<R: Wait>(
        &mut self,
        rt: &R,
        alloc: Global,
        connection: &Connection<T>,
    ) -> Result<Heard, Stop>
        requires of { self.old.caller.of ≡ connection.now }
        requires server { connection.now.settings.side ≡ Server }
        requires sound { IsSound connection.now.settings self.old.knows }
        ensures same { self.new.caller ≡ record self.old.caller {
          front = self.new.caller.front;
          note = self.new.caller.note;
        } }
        ensures out { self.new.out ≡ self.old.out }
        ensures from { SameConsumer self.old.from self.new.from }
        ensures sound { OnOk result (IsSound connection.now.settings self.new.knows) }
        ensures goes { OnOk result (GoesOn IsAny self.old.caller self.new.caller.front) }
        ensures kept { OnOk result (KeepsOn 0 0 self.old.caller self.new.caller
            self.old.knows self.new.knows (sent self.old.out) (sent self.new.out)
            (received self.old.from) (received self.new.from)) }
    {
        let heard = self.read(rt, alloc, connection)?;
        is_more(heard.mark)?;
        Ok(heard)
    }

    /// Draws what is queued now, at most `most` bytes of it, and pushes it; of a connection that was
    /// refused, what is left of the refusal.
    pub fn down<R: Wait>(
        &mut self,
        rt: &R,
        connection: &Connection<T>,
        most: u64,
    ) -> Result<(), Stop>
        requires of { self.old.caller.of ≡ connection.now }
        requires sound { IsSound connection.now.settings self.old.knows }
        ensures same { self.new.caller ≡ record self.old.caller {
          front = self.new.caller.front;
          note = self.new.caller.note;
        } }
        ensures out { SameProducer self.old.out self.new.out }
        ensures from { self.new.from ≡ self.old.from }
        ensures sound { OnOk result (IsSound connection.now.settings self.new.knows) }
        ensures goes { OnOk result (GoesOn IsAny self.old.caller self.new.caller.front) }
        ensures kept { OnOk result (KeepsOn 0 0 self.old.caller self.new.caller
            self.old.knows self.new.knows (sent self.old.out) (sent self.new.out)
            (received self.old.from) (received self.new.from)) }
    {
        match &mut self.knows {
            Knows::Nothing(_) => Ok(()),
            Knows::Accepted { pump, .. } => {
                send(rt, connection, &mut self.caller, pump, &mut self.out, most)?;
                Ok(())
            }
            Knows::Refused { bytes, pushed } => {
                push_refusal(rt, &mut self.out, bytes, pushed, most)
            }
        }
    }

    /// Pushes the mark between two halves of a round: whether something came.
    pub fn step<R: Wait>(&mut self, rt: &R, more: bool) -> Result<(), Stop>
        ensures caller { self.new.caller ≡ self.old.caller }
        ensures knows { self.new.knows ≡ self.old.knows }
        ensures out { SameProducer self.old.out self.new.out }
        ensures from { self.new.from ≡ self.old.from }
        ensures kept { OnOk result (KeepsOn 0 0 self.old.caller self.new.caller
            self.old.knows self.new.knows (sent self.old.out) (sent self.new.out)
            (received self.old.from) (received self.new.from)) }
    {
        push_mark(rt, &mut self.out, between(more))
    }

    // A round: whether another is due.
    fn round<R: Wait>(
        &mut self,
        rt: &R,
        alloc: Global,
        connection: &Connection<T>,
    ) -> Result<bool, Stop>
        requires of { self.old.caller.of ≡ connection.now }
        requires server { connection.now.settings.side ≡ Server }
        requires sound { IsSound connection.now.settings self.old.knows }
        ensures same { self.new.caller ≡ record self.old.caller {
          front = self.new.caller.front;
          note = self.new.caller.note;
        } }
        ensures out { SameProducer self.old.out self.new.out }
        ensures from { SameConsumer self.old.from self.new.from }
        ensures sound { OnOk result (IsSound connection.now.settings self.new.knows) }
        ensures kept { OnOk result (KeepsOn 0 0 self.old.caller self.new.caller
            self.old.knows self.new.knows (sent self.old.out) (sent self.new.out)
            (received self.old.from) (received self.new.from)) }
    {
        let came = self.up(rt, alloc, connection)?;
        self.down(rt, connection, u64::MAX)?;
        self.step(rt, came.moved)?;
        let again = self.up(rt, alloc, connection)?;
        is_more(again.mark)
    }

    /// Rounds, until the client says that nothing moves.
    pub(crate) fn drain<R: Wait>(
        &mut self,
        rt: &R,
        alloc: Global,
        connection: &Connection<T>,
    ) -> Result<(), Stop>
        requires of { self.old.caller.of ≡ connection.now }
        requires server { connection.now.settings.side ≡ Server }
        requires sound { IsSound connection.now.settings self.old.knows }
        ensures same { self.new.caller ≡ record self.old.caller {
          front = self.new.caller.front;
          note = self.new.caller.note;
        } }
        ensures out { SameProducer self.old.out self.new.out }
        ensures from { SameConsumer self.old.from self.new.from }
        ensures sound { OnOk result (IsSound connection.now.settings self.new.knows) }
        ensures kept { OnOk result (KeepsOn 0 0 self.old.caller self.new.caller
            self.old.knows self.new.knows (sent self.old.out) (sent self.new.out)
            (received self.old.from) (received self.new.from)) }
    {
        for _ in rt.forever() {
            if !self.round(rt, alloc, connection)? {
                return Ok(());
            }
        }
        unreachable!()
    }

    /// Pushes the mark of the end, after which nothing is pushed.
    pub fn end<R: Wait>(&mut self, rt: &R) -> Result<(), Stop>
        ensures caller { self.new.caller ≡ self.old.caller }
        ensures knows { self.new.knows ≡ self.old.knows }
        ensures out { SameProducer self.old.out self.new.out }
        ensures from { self.new.from ≡ self.old.from }
        ensures ended { OnOk result
            (sent self.new.out ≡ sent self.old.out ++ item.Mark mark.End ∷ []) }
    {
        push_mark(rt, &mut self.out, Mark::End)
    }

    /// Reads the mark of the end, before which no byte comes.
    pub fn finish<R: Wait>(&mut self, rt: &R, alloc: Global) -> Result<(), Stop>
        ensures caller { self.new.caller ≡ self.old.caller }
        ensures knows { self.new.knows ≡ self.old.knows }
        ensures out { self.new.out ≡ self.old.out }
        ensures from { SameConsumer self.old.from self.new.from }
        ensures ended { OnOk result
            (received self.new.from ≡ received self.old.from ++ item.Mark mark.End ∷ []) }
    {
        match skip(rt, alloc, &mut self.from)? {
            Mark::End => Ok(()),
            _ => Err(Stop::Gone),
        }
    }
}
