//! A pump, as its callers see it.

ghost use Rattle.std.specs.Prelude.{◌≡◌, ◌<◌, ◌≤◌, ◌^◌, ◌&&◌, ◌++◌, [], false, true, min, nat_lt, IfOk, IsOk, OnErr, OnOk, length};
ghost use Rattle.outside.specs.Links.{Shown};
ghost use Rattle.conn_shared.specs.Members.{Knowledge};
ghost use Rattle.pump.specs.Halves.{and_given, and_taken};
ghost use Rattle.pump.specs.Turns.{Draws, Hears, IfDone, IsEmptied, IsKept, has, is_empty};
ghost use Rattle.pump.specs.declared.numbers.TheConstants as pieces;

use crate::bringing::Brought;
use crate::inner::Inner;
use crate::numbers::PIECE;
use conn::{Caller, Connection};
use rs_chunk::Reader;
use rs_wire::OutOfMemory;
use std::alloc::Global;
use std::marker::Model;
use std::sync::Wait;
use tape::Tape;

/// Moves bytes between a link and one connection of a session. Contracts see what stands between
/// the two: the number of the connection, the bytes drawn and not given, the bytes taken that did
/// not come, how long a frame may be, and whether bytes came that are no frame.
///
/// ```text
///               +-------------------- Pump --------------------+
///               |   draw             left             give     |
///               |  ------>  at most 16,384 bytes    --------->  |
///   Connection  |                                              |  Link
///               |   Came, Bad        rest             take     |
///               |  <------   frames, whole or not   <---------  |
///               +----------------------------------------------+
/// ```
#[derive(Drop)]
pub struct Pump {
    /// The bytes on their way.
    pub(crate) inner: Inner,
}

impl Model for Pump {
    ghost use Rattle.link_model.specs.Carrying.{Between};
    ghost use Rattle.pump.specs.Turns.{has};

    ghost Value = { Between };

    ghost view = { λ p. has p.inner };
}

impl Pump {
    /// A pump for the connection of this number. The reader has what was taken from the link and
    /// did not come, and as its limit the `max_in` of the connection. The two buffers of a pump, of
    /// 16,384 bytes each, are made here.
    pub fn new(alloc: Global, conn: u64, reader: Reader) -> Result<Pump, OutOfMemory>
        requires { reader.max_in < 2 ^ 24 }
        ensures { IfOk result (λ p. p ≡ record {
          conn = conn;
          left = [];
          rest = reader.bytes;
          max_in = reader.max_in;
          bad = false;
        }) }
    {
        Ok(Pump {
            inner: Inner::new(alloc, conn, reader)?,
        })
    }

    /// How many bytes are drawn and not given, at most 16,384.
    pub fn left(&self) -> usize
        ensures count { result ≡ length self.now.left }
        ensures few { result ≤ pieces.PIECE }
    {
        self.inner.outgoing.len()
    }

    /// The bytes that are drawn and not given, at most 16,384. With [`draw`](Pump::draw) and
    /// [`gave`](Pump::gave) they are the half of a pump that gives, for whoever carries the bytes
    /// by other means than a link.
    pub fn bytes(&self) -> &[u8]
        ensures { result.now ≡ self.now.left }
    {
        self.inner.outgoing.bytes()
    }

    /// Says that all these bytes were given.
    pub fn gave(&mut self)
        ensures kept { (me : Knowledge) (s : Shown) → IsKept me s self.old →
            IsKept me (and_given s self.old.left) self.new }
        ensures rest { self.new ≡ record self.old { left = [] } }
    {
        self.inner.outgoing.clear();
    }

    /// Draws at most `most` bytes and at most 16,384, where no drawn byte is left and `most` is
    /// above 0. It waits for a turn at the connection.
    pub fn draw<T: Tape, R: Wait>(
        &mut self,
        rt: &R,
        connection: &Connection<T>,
        caller: &mut Caller<T>,
        most: usize,
    ) -> Brought
        requires of { caller.old.of ≡ connection.now }
        ensures same { caller.new ≡ record caller.old {
          front = caller.new.front;
          note = caller.new.note;
        } }

        // One draw, where it is due; no byte is lost, and each end has its cause.
        ensures draws { Draws (is_empty self.old.left && nat_lt 0 most) connection.now.settings
            caller.old caller.new self.old self.new (min most pieces.PIECE) result }
        ensures rest { self.new ≡ record self.old { left = self.new.left } }
    {
        if most == 0 {
            return Brought::Nothing;
        }
        self.inner
            .draw_some(rt, connection, caller, most.min(PIECE))
    }

    /// Hands over bytes that were taken. Once bytes came that are no frame, they are dropped. With
    /// [`hear`](Pump::hear) it is the half of a pump that takes.
    pub fn feed(&mut self, piece: &[u8]) -> Result<(), OutOfMemory>
        ensures kept { OnOk result ((me : Knowledge) (s : Shown) → IsKept me s self.old →
            IsKept me (and_taken s piece.now) self.new) }
        ensures same { OnErr result (self.new ≡ self.old) }
        ensures rest { self.new ≡ record self.old { rest = self.new.rest } }

        // They stand behind those that were handed over before; after bytes that are no frame
        // nothing changes, and that needs no memory.
        ensures appended { self.old.bad ≡ false →
            OnOk result (self.new.rest ≡ self.old.rest ++ piece.now) }
        ensures dropped { self.old.bad ≡ true → IsOk result × (self.new ≡ self.old) }
    {
        if self.inner.bad {
            return Ok(());
        }
        self.inner.incoming.append(piece)?;
        Ok(())
    }

    /// Brings all whole frames that were handed over, up to what stops it. It waits for turns at
    /// the connection.
    pub fn hear<T: Tape, R: Wait>(
        &mut self,
        rt: &R,
        connection: &Connection<T>,
        caller: &mut Caller<T>,
    ) -> Brought
        requires of { caller.old.of ≡ connection.now }
        requires limit { self.old.max_in ≡ connection.now.settings.max_in }
        ensures same { caller.new ≡ record caller.old {
          front = caller.new.front;
          note = caller.new.note;
        } }

        // No byte is lost, nothing but what came is added, and each end has its cause.
        ensures hears { Hears connection.now.settings caller.old caller.new self.old self.new
            result }
        ensures emptied { IfDone result (IsEmptied self.new) }
        ensures conn { self.new.conn ≡ self.old.conn }
        ensures max_in { self.new.max_in ≡ self.old.max_in }
        ensures left { self.new.left ≡ self.old.left }
    {
        self.inner.hear_all(rt, connection, caller)
    }
}
