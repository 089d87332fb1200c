//! How members come, are joined, and end.

ghost use Rattle.std.specs.Prelude.{◌≡◌, ◌<◌, ◌≤◌, ◌+◌, ◌-◌, ◌↔◌, ℕ, [], ◌∷◌, ◌++◌, IfErr, IfOk, max};
ghost use Rattle.conn_lock.specs.Callers.{all_parts, calls, longer, most_numbers, share, times};
ghost use Rattle.conn_shared.specs.Members.{Follows, IsMember, first_member};
ghost use Rattle.conn_shared.specs.Lines.{entries_in, settings_in, tells_in, who_of};

use crate::member::Member;
use crate::shared::SharedSession;
use crate::stored::Stored;
use conn_lock::{Lock, Seat, SplitFault};
use session_core::Session;
use std::sync::Wait;
use tape::Tape;

// The lock's session, whose entries are the seat's front, where the seat has all parts.
fn shut<T: Tape>(
    lock: Lock<Stored<T>>,
    seat: Seat<Stored<T>>,
) -> Result<Session<T>, (Lock<Stored<T>>, Seat<Stored<T>>)>
    requires of { seat.lock ≡ lock }
    requires member { IsMember seat }
    ensures closed { IfOk result (λ s. seat.parts ≡ all_parts) }
    ensures entries { IfOk result (λ s. s.entries ≡ entries_in seat.front) }
    ensures settings { IfOk result (λ s. s.settings ≡ settings_in seat.front) }
    ensures tells { IfOk result (λ s. s.tells ≡ tells_in seat.front) }
    ensures named { IfOk result (λ s.
        (x : ℕ) → times x seat.names ≡ 0 → calls who_of x (entries_in seat.front) ≡ 0) }
    ensures refused { IfErr result (λ r. seat.parts < all_parts) }
    ensures kept { IfErr result (λ r. (r.0 ≡ lock) × (r.1 ≡ seat)) }
{
    match lock.close(seat) {
        Ok(stored) => Ok(stored.into_session()),
        Err(back) => Err(back),
    }
}

impl<T: Tape> SharedSession<T> {
    /// The member, and a new one with a number that was never drawn before, the same front, and a
    /// 65,536th of the parts, rounded down, but at least one. It may wait, since other members draw
    /// numbers too.
    ///
    /// It is refused with [`PartsGone`](SplitFault::PartsGone) exactly where the member has one part,
    /// and else with [`NamesGone`](SplitFault::NamesGone) exactly where 4,294,967,295 numbers were
    /// drawn, which the member has then found.
    pub fn split<R: Wait>(
        &self,
        rt: &R,
        member: Member<T>,
    ) -> Result<(Member<T>, Member<T>), (Member<T>, SplitFault)>
        requires of { member.of ≡ self.now }
        ensures old { IfOk result (λ r. r.0 ≡ record member {
          parts = member.parts - share member.parts;
          found = r.1.number + 1;
        }) }
        ensures new { IfOk result (λ r. r.1 ≡ record (first_member self.now) {
          number = r.1.number;
          names = r.1.number ∷ [];
          parts = share member.parts;
          front = member.front;
          found = r.1.number + 1;
        }) }
        ensures parts { IfOk result (λ r. r.0.parts + r.1.parts ≡ member.parts) }
        ensures drawn { IfOk result (λ r.
            (member.found ≤ r.1.number) × (r.1.number < most_numbers)) }
        ensures fresh { IfOk result (λ r. times r.1.number member.names ≡ 0) }
        ensures unused { IfOk result (λ r. calls who_of r.1.number member.front ≡ 0) }
        ensures several_parts { IfOk result (λ r. 1 < member.parts) }
        ensures parts_gone { IfErr result (λ r.
            (r.1 ≡ SplitFault.PartsGone) ↔ (member.parts ≡ 1)) }
        ensures names_gone { IfErr result (λ r. r.1 ≡ SplitFault.NamesGone
            → (1 < member.parts) × (r.0.found ≡ most_numbers)) }
        ensures kept { IfErr result (λ r. r.0 ≡ record member { found = r.0.found }) }
        ensures found { IfErr result (λ r. member.found ≤ r.0.found) }
    {
        match self.lock.split(rt, member.into_seat()) {
            Ok((seat, other)) => Ok((Member { seat }, Member { seat: other })),
            Err((seat, fault)) => Err((Member { seat }, fault)),
        }
    }

    // The first seat goes on, as the members do in `join`.
    fn join_seats(&self, seat: Seat<Stored<T>>, other: Seat<Stored<T>>) -> Seat<Stored<T>>
        requires first { seat.lock ≡ self.now.lock }
        requires second { other.lock ≡ self.now.lock }
        requires members { IsMember seat × IsMember other }
        requires settings { (settings_in seat.front ≡ self.now.settings)
            × (settings_in other.front ≡ self.now.settings) }
        requires tells { (tells_in seat.front ≡ self.now.tells)
            × (tells_in other.front ≡ self.now.tells) }
        ensures both { result ≡ record seat {
          names = seat.names ++ other.names;
          parts = seat.parts + other.parts;
          front = result.front;
          found = max seat.found other.found;
        } }
        ensures settings { settings_in result.front ≡ self.now.settings }
        ensures tells { tells_in result.front ≡ self.now.tells }
        ensures member { IsMember result }
        ensures front { entries_in result.front
            ≡ longer (entries_in seat.front) (entries_in other.front) }
        ensures own { Follows seat.names (entries_in seat.front) (entries_in result.front)
            × Follows other.names (entries_in other.front) (entries_in result.front) }
        ensures apart { (x : ℕ) → 0 < times x seat.names → times x other.names ≡ 0 }
        ensures distinct { (x : ℕ) → times x result.names ≤ 1 }
        ensures at_most_all { result.parts ≤ all_parts }
    {
        self.lock.join(seat, other)
    }

    /// The first member goes on, with the names and parts of both, the longer front, and the greater
    /// count of numbers found. No entry of a member is missing in the longer front: it goes on from
    /// the member's own by entries of others alone. The two members have no name in common.
    pub fn join(&self, member: Member<T>, other: Member<T>) -> Member<T>
        requires first { member.of ≡ self.now }
        requires second { other.of ≡ self.now }
        ensures both { result ≡ record member {
          names = member.names ++ other.names;
          parts = member.parts + other.parts;
          front = longer member.front other.front;
          found = max member.found other.found;
        } }
        // From either front the longer one goes on by entries that carry none of its member's names.
        ensures own { Follows member.names member.front result.front
            × Follows other.names other.front result.front }
        ensures apart { (x : ℕ) → 0 < times x member.names → times x other.names ≡ 0 }
        ensures distinct { (x : ℕ) → times x result.names ≤ 1 }
        ensures at_most_all { result.parts ≤ all_parts }
    {
        let seat = self.join_seats(member.into_seat(), other.into_seat());
        Member { seat }
    }

    /// The session, whose entries are the member's front, exactly where the member has all 2^62
    /// parts. So a program that has joined every member that it split off can close. Where the member
    /// has fewer, the shared session and the member come back as they were.
    pub fn close(self, member: Member<T>) -> Result<Session<T>, (SharedSession<T>, Member<T>)>
        requires { member.of ≡ self }
        ensures closed { IfOk result (λ s. member.parts ≡ all_parts) }
        ensures entries { IfOk result (λ s. s.entries ≡ member.front) }
        ensures settings { IfOk result (λ s. s.settings ≡ self.settings) }
        ensures tells { IfOk result (λ s. s.tells ≡ self.tells) }
        // Each entry carries one of the member's names.
        ensures named { IfOk result (λ s.
            (x : ℕ) → times x member.names ≡ 0 → calls who_of x member.front ≡ 0) }

        ensures refused { IfErr result (λ r. member.parts < all_parts) }
        ensures kept { IfErr result (λ r. (r.0 ≡ self) × (r.1 ≡ member)) }
    {
        let SharedSession { lock, alloc, began } = self;
        match shut(lock, member.into_seat()) {
            Ok(session) => Ok(session),
            Err((lock, seat)) => {
                let shared = SharedSession { lock, alloc, began };
                Err((shared, Member { seat }))
            }
        }
    }
}
