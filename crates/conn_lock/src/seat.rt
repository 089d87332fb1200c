//! A seat: what a caller holds of the lock between its turns.

ghost use Rattle.std.specs.Prelude.{◌≡◌, ◌<◌, ◌≤◌};
ghost use Rattle.conn_lock.specs.Callers.{all_parts, times};

use crate::stands::Stands;
use crate::view::View;
use std::marker::Model;

/// The right to step on the words of one lock, with what it knows.
pub(crate) type Token<S> = atomic_table::Seat<Option<S>, View<<S as Stands>::Entry>>;

/// What a caller of a lock has between its turns. Contracts see what the caller knows: its lock,
/// its number, its names, its parts, its front, how many numbers it has found to be drawn, how often
/// a try missed, and what it has noted.
///
/// The number, from 0 to 4,294,967,294, is that of no other seat of the lock, ever. The names are
/// the number and those of the seats that were joined into this one. The parts are from 1 to 2^62,
/// the parts of all seats of a lock, dropped ones too, are 2^62 in sum, and only
/// [`split`](crate::Lock::split) and [`join`](crate::Lock::join) change names and parts. What it has
/// found and how often it missed never fall.
///
/// A seat that is dropped takes its parts with it, and then nobody can close the lock.
#[derive(Drop)]
pub struct Seat<S: Stands> {
    /// The seat at the table of words, which has the view.
    pub(crate) token: Token<S>,
    /// The caller's number, one of the names in the view.
    pub(crate) number: u32,
    /// The parts, as the view has them.
    pub(crate) parts: u64,
}

impl<S: Stands> Model for Seat<S> {
    ghost use Rattle.conn_lock.specs.Callers.{Known};
    ghost use Rattle.conn_lock.specs.Seats.{IsSeated, known};

    ghost Value = { Known S.Entry };

    ghost view = { λ s. known s.token.table_id s.number s.token.me.0 };

    ghost invariant = { λ s. IsSeated s.number s.parts s.token.me };
}

impl<S: Stands> Seat<S> {
    /// The number that the caller's entries carry.
    pub fn number(&self) -> u32
        ensures value { result ≡ self.now.number }
        ensures named { 0 < times result self.now.names }
    {
        self.number
    }

    /// How many of the 2^62 parts of the lock the seat has, at least 1.
    pub fn parts(&self) -> u64
        ensures value { result ≡ self.now.parts }
        ensures some_part { 0 < result }
        ensures at_most_all { result ≤ all_parts }
    {
        self.parts
    }
}
