//! Bytes that were drawn and are on their way to a link.

ghost use Rattle.std.specs.Prelude.{◌≡◌, ◌<◌, ◌≤◌, [], IfOk, None, length};
ghost use Rattle.outside.specs.Links.{NoneFell};
ghost use Rattle.pump.specs.Moves.{GivesFirst, HasGave};
ghost use Rattle.pump.specs.Turns.{HasDrawnInto, HasDrawnSo};
ghost use Rattle.pump.specs.declared.numbers.TheConstants as pieces;
ghost use Rattle.link_model.specs.Giving.{count_drawn};

use crate::bringing::{Brought, brought_by};
use crate::numbers::PIECE;
use conn::{Caller, Connection};
use outside::{Given, Link};
use rs_wire::OutOfMemory;
use std::alloc::Global;
use std::marker::Model;
use std::sync::Wait;
use tape::{Answer, Tape};

/// What giving to a link did.
#[derive(Clone, Copy, Debug, PartialEq, Eq)]
pub(crate) enum Gave {
    /// No byte was left to give.
    Nothing,
    /// So many bytes were given, at least 1.
    Count(u32),
    /// The link had no room.
    Stalled,
    /// The link failed.
    Failed,
}

/// The bytes that were drawn and not given. Contracts see just these.
#[derive(Drop)]
pub(crate) struct Outgoing {
    /// The bytes of the last draw, in front of others.
    bytes: Vec<u8>,
    /// Those from `from` up to `to` are not given.
    from: usize,
    to: usize,
}

impl Model for Outgoing {
    ghost use Rattle.std.specs.Prelude.{◌≡◌, ◌≤◌, ◌-◌, ℕ, List, drop, length, take};
    ghost use Rattle.pump.specs.declared.numbers.TheConstants.{PIECE};

    ghost Value = { List ℕ };

    ghost view = { λ o. take (o.to - o.from) (drop o.from o.bytes.items) };

    ghost invariant = { λ o. (o.from ≤ o.to) × (o.to ≤ length o.bytes.items)
        × (length o.bytes.items ≡ PIECE) };
}

fn count_drawn(answer: &Answer) -> u32
    ensures { result ≡ count_drawn answer.now }
{
    match answer {
        Answer::Drawn(n) => *n,
        _ => 0,
    }
}

// Draws into the first `room` bytes of the buffer.
fn draw_first<T: Tape, R: Wait>(
    rt: &R,
    connection: &Connection<T>,
    caller: &mut Caller<T>,
    conn: u64,
    buffer: &mut [u8],
    room: usize,
) -> Answer
    requires of { caller.old.of ≡ connection.now }
    requires some { 0 < room }
    requires few { room ≤ pieces.PIECE }
    requires within { room ≤ length buffer.old }
    ensures same { caller.new ≡ record caller.old { front = caller.new.front; note = None } }
    ensures drawn { HasDrawnInto connection.now.settings caller.old conn room result buffer.old
        buffer.new caller.new.front }
{
    connection.draw(rt, caller, conn, &mut buffer[..room])
}

impl Outgoing {
    pub(crate) fn new(alloc: Global) -> Result<Outgoing, OutOfMemory>
        ensures { IfOk result (λ o. o ≡ []) }
    {
        let bytes = vec![in alloc; 0u8; PIECE]?;
        Ok(Outgoing {
            bytes,
            from: 0,
            to: 0,
        })
    }

    pub(crate) fn len(&self) -> usize
        ensures count { result ≡ length self.now }
        ensures few { result ≤ pieces.PIECE }
    {
        self.to - self.from
    }

    /// The bytes.
    pub(crate) fn bytes(&self) -> &[u8]
        ensures { result.now ≡ self.now }
    {
        &self.bytes[self.from..self.to]
    }

    /// Drops the bytes, which were given.
    pub(crate) fn clear(&mut self)
        ensures { self.new ≡ [] }
    {
        self.from = self.to;
    }

    /// Draws the next bytes, at most `room`, where none is left.
    pub(crate) fn draw<T: Tape, R: Wait>(
        &mut self,
        rt: &R,
        connection: &Connection<T>,
        caller: &mut Caller<T>,
        conn: u64,
        room: usize,
    ) -> Brought
        requires of { caller.old.of ≡ connection.now }
        requires some { 0 < room }
        requires few { room ≤ pieces.PIECE }
        ensures same { caller.new ≡ record caller.old { front = caller.new.front; note = None } }
        ensures drew { HasDrawnSo connection.now.settings caller.old conn room result self.new
            caller.new.front }
    {
        let answer = draw_first(rt, connection, caller, conn, &mut self.bytes, room);
        self.from = 0;
        self.to = count_drawn(&answer) as usize;
        let brought = brought_by(&answer);
        drop(answer);
        brought
    }

    /// Gives the link what it takes of the bytes, where there are any.
    pub(crate) fn give<L: Link>(&mut self, link: &mut L) -> Gave
        ensures gave { HasGave (L.shown link.old) (L.shown link.new) result }
        ensures first { GivesFirst (L.shown link.old).given (L.shown link.new).given
            self.old self.new }
        ensures nothing { result ≡ Gave.Nothing → self.old ≡ [] }
        ensures taken { (L.shown link.new).taken ≡ (L.shown link.old).taken }
        ensures counted { NoneFell (L.shown link.old).counts (L.shown link.new).counts }
    {
        if self.from == self.to {
            return Gave::Nothing;
        }
        match link.give(&self.bytes[self.from..self.to]) {
            Given::Took(n) => {
                self.from += n;
                Gave::Count(n as u32)
            }
            Given::Lull => Gave::Stalled,
            Given::Failed => Gave::Failed,
        }
    }
}
