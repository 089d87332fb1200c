//! One who shares a session.

ghost use Rattle.std.specs.Prelude.{◌≡◌, ◌<◌, ◌≤◌};
ghost use Rattle.conn_lock.specs.Callers.{all_parts, times};
ghost use Rattle.session_model.specs.Legal.{Fair, Legal};
ghost use Rattle.conn_shared.specs.Members.{IsMember, knows};

use crate::stored::Stored;
use conn_lock::Seat;
use std::marker::Model;
use tape::Tape;

/// One who shares a session. Contracts see what it knows: which shared session it is of, its number,
/// its names, its parts, its front, which are the entries of the session as far as it has seen them,
/// the newest first, how many numbers it has found to be drawn, how often a try missed, and what it
/// has noted.
///
/// The number, from 0 to 4,294,967,294, is that of no other member of the session, ever. The names
/// are the number and those of the members that were joined into it. The parts of all members of a
/// session, dropped ones too, are 2^62 in sum.
///
/// A member that is dropped takes its parts with it, and then nobody can close the shared session.
#[derive(Drop)]
pub struct Member<T: Tape> {
    /// The seat at the lock.
    pub(crate) seat: Seat<Stored<T>>,
}

impl<T: Tape> Model for Member<T> {
    ghost use Rattle.conn_shared.specs.Members.{IsMember, Knowledge, knows};

    ghost Value = { Knowledge };

    ghost view = { λ m. knows m.seat };

    ghost invariant = { λ m. IsMember m.seat };
}

impl<T: Tape> Member<T> {
    /// The member's seat.
    #[inline(always)]
    pub(crate) fn into_seat(self) -> Seat<Stored<T>>
        ensures known { knows result ≡ self }
        ensures member { IsMember result }
    {
        self.seat
    }

    /// How many of the 2^62 parts of the session the member has, at least 1.
    pub fn parts(&self) -> u64
        ensures value { result ≡ self.now.parts }
        ensures some_part { 0 < result }
        ensures at_most_all { result ≤ all_parts }
    {
        self.seat.parts()
    }

    /// The number that the member's entries carry.
    pub fn number(&self) -> u32
        ensures value { result ≡ self.now.number }
        ensures named { 0 < times result self.now.names }
    {
        self.seat.number()
    }

    /// Each answer in the front is the definitions' answer to the entries before it, and each event
    /// is as the caller has to bring it. It does nothing.
    pub fn legal(&self)
        ensures legal { Legal self.now.of.settings self.now.front }
        ensures fair { Fair self.now.of.settings self.now.front }
    {
        // The seat that is read has them as its invariant.
        let _ = &self.seat;
    }
}
