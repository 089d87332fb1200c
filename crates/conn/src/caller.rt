//! One who calls a connection.

ghost use Rattle.std.specs.Prelude.{◌≡◌, ◌<◌, ◌≤◌, None, Some};
ghost use Rattle.conn_lock.specs.Callers.{all_parts, times};
ghost use Rattle.session_model.specs.Legal.{Fair, Legal};
ghost use Rattle.conn.specs.Callers.{IsThere};

use conn_shared::Member;
use std::marker::Model;
use tape::Tape;

/// One who calls a connection. Contracts see what it knows: which connection it is of, its number,
/// its names, its parts, its front, which are the entries of the session as far as it has seen them,
/// the newest first, how many numbers it has found to be drawn, how often a try missed, and what it
/// has noted.
///
/// The number, from 0 to 4,294,967,294, is that of no other caller of the connection, ever. The names
/// are the number and those of the callers that were joined into this one. The parts of all callers of
/// a connection, dropped ones too, are 2^62 in sum.
///
/// A caller that is dropped takes its parts with it, and then nobody can close the connection.
#[derive(Drop)]
pub struct Caller<T: Tape> {
    /// The member of the shared session, which is away during a call alone.
    pub(crate) member: Option<Member<T>>,
}

impl<T: Tape> Model for Caller<T> {
    ghost use Rattle.conn_shared.specs.Members.{Knowledge};
    ghost use Rattle.conn.specs.Callers.{IsThere, known_by};

    ghost Value = { Knowledge };

    ghost view = { λ c. known_by c.member };

    ghost invariant = { λ c. IsThere c.member };
}

/// Takes the member out of its caller, at the beginning of a call.
#[inline(always)]
pub(crate) fn take<T: Tape>(place: &mut Option<Member<T>>) -> Member<T>
    requires { IsThere place.old }
    ensures out { place.new ≡ None }
    ensures member { place.old ≡ Some result }
{
    match place.take() {
        None => unreachable!(),
        Some(member) => member,
    }
}

/// Gives the member back, at the end of the call. Nothing is dropped.
#[inline(always)]
pub(crate) fn give_back<T: Tape>(place: &mut Option<Member<T>>, member: Member<T>)
    requires { place.old ≡ None }
    ensures { place.new ≡ Some member }
{
    match place.replace(member) {
        None => {}
        Some(_) => unreachable!(),
    }
}

impl<T: Tape> Caller<T> {
    /// How many of the 2^62 parts of the connection the caller has, at least 1.
    pub fn parts(&self) -> u64
        ensures value { result ≡ self.now.parts }
        ensures some_part { 0 < result }
        ensures at_most_all { result ≤ all_parts }
    {
        match &self.member {
            None => unreachable!(),
            Some(member) => member.parts(),
        }
    }

    /// The number that the caller's entries carry.
    pub fn number(&self) -> u32
        ensures value { result ≡ self.now.number }
        ensures named { 0 < times result self.now.names }
    {
        match &self.member {
            None => unreachable!(),
            Some(member) => member.number(),
        }
    }

    /// Each answer in the front is the definitions' answer to the entries before it, and each event
    /// is as the caller has to bring it. It does nothing.
    pub fn legal(&self)
        ensures legal { Legal self.now.of.settings self.now.front }
        ensures fair { Fair self.now.of.settings self.now.front }
    {
        match &self.member {
            None => unreachable!(),
            Some(member) => member.legal(),
        }
    }
}
