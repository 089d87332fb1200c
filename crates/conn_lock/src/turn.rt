//! A turn: the time in which a caller has the value.

ghost use Rattle.std.specs.Prelude.{◌≡◌, ◌<◌};
ghost use Rattle.conn_lock.specs.Callers.{times};

use crate::seat::Token;
use crate::stands::Stands;
use std::marker::Model;

/// A caller that has the value. Contracts see what its seat knows, with the list as it stood when
/// the turn began as the front, and the value.
///
/// It cannot be dropped: [`leave`](crate::Lock::leave) takes it and gives the seat back.
pub struct Turn<S: Stands> {
    /// The seat at the table of words, which has the view.
    pub(crate) token: Token<S>,
    /// The caller's number, one of the names in the view.
    pub(crate) number: u32,
    /// The parts, as the view has them.
    pub(crate) parts: u64,
    /// The ticket that is served, below 2^64 - 1.
    pub(crate) ticket: u64,
    /// The value, out of the slot for as long as the turn lasts.
    pub(crate) value: S,
}

impl<S: Stands> Model for Turn<S> {
    ghost use Rattle.conn_lock.specs.Callers.{InTurn};
    ghost use Rattle.conn_lock.specs.Seats.{IsServed, known};

    ghost Value = { InTurn S S.Entry };

    ghost view = { λ t. record {
      seat = known t.token.table_id t.number t.token.me.0;
      value = t.value;
    } };

    ghost invariant = { λ t. IsServed t.number t.parts t.ticket t.token.me };
}

impl<S: Stands> Turn<S> {
    ghost use Rattle.std.specs.Borrow.{Lends, sem};
    ghost use Rattle.conn_lock.specs.contracts.turn.Turn.{the_row};

    /// The number that the caller's entries carry.
    pub fn number(&self) -> u32
        ensures value { result ≡ self.now.seat.number }
        ensures named { 0 < times result self.now.seat.names }
    {
        self.number
    }

    /// The value, to read and to change. What the reference leaves is the turn's value
    /// afterwards.
    pub fn value(&mut self) -> &mut S
        ensures* lends { sem 𝓛 (Lends (the_row S.row S.Entry.row S.Stands) S.row self.entry result
            (λ last. record self.old { value = last })) }
        ensures value { result.now ≡ self.old.value }
    {
        &mut self.value
    }
}
