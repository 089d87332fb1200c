//! How callers come, are joined, and end.

ghost use Rattle.std.specs.Prelude.{◌≡◌, ◌<◌, ◌≤◌, ◌+◌, ◌↔◌, ℕ, ◌∷◌, ◌++◌, [], IfErr, IfOk, max};
ghost use Rattle.conn_lock.specs.Callers.{all_parts, calls, longer, most_numbers, share, times};
ghost use Rattle.conn_shared.specs.Lines.{who_of};
ghost use Rattle.conn_shared.specs.Members.{Follows, first_member};

use crate::caller::{Caller, give_back, take};
use crate::connection::Connection;
use conn_lock::SplitFault;
use session_core::Session;
use std::sync::Wait;
use tape::Tape;

impl<T: Tape> Connection<T> {
    /// A new caller with a number that was never drawn before, the same front, and a 65,536th of the
    /// parts, rounded down, but at least one. It may wait, since other callers draw numbers too.
    ///
    /// It is refused with [`PartsGone`](SplitFault::PartsGone) exactly where the caller has one part,
    /// and else with [`NamesGone`](SplitFault::NamesGone) exactly where 4,294,967,295 numbers were
    /// drawn, which the caller has then found.
    pub fn split<R: Wait>(&self, rt: &R, caller: &mut Caller<T>) -> Result<Caller<T>, SplitFault>
        requires of { caller.old.of ≡ self.now }
        ensures same { caller.new ≡ record caller.old {
          parts = caller.new.parts;
          found = caller.new.found;
        } }
        ensures new { IfOk result (λ c. c ≡ record (first_member self.now) {
          number = c.number;
          names = c.number ∷ [];
          parts = share caller.old.parts;
          front = caller.old.front;
          found = c.number + 1;
        }) }
        ensures parts { IfOk result (λ c. caller.new.parts + c.parts ≡ caller.old.parts) }
        ensures drawn { IfOk result (λ c.
            (caller.old.found ≤ c.number) × (c.number < most_numbers)) }
        ensures fresh { IfOk result (λ c. times c.number caller.old.names ≡ 0) }
        ensures unused { IfOk result (λ c. calls who_of c.number caller.old.front ≡ 0) }
        ensures several_parts { IfOk result (λ c. 1 < caller.old.parts) }
        ensures parts_gone { IfErr result (λ f.
            (f ≡ SplitFault.PartsGone) ↔ (caller.old.parts ≡ 1)) }
        ensures names_gone { IfErr result (λ f. f ≡ SplitFault.NamesGone
            → (1 < caller.old.parts) × (caller.new.found ≡ most_numbers)) }
        ensures kept { IfErr result (λ f. caller.new.parts ≡ caller.old.parts) }
        ensures found { caller.old.found ≤ caller.new.found }
    {
        let member = take(&mut caller.member);
        match self.shared.split(rt, member) {
            Ok((member, other)) => {
                give_back(&mut caller.member, member);
                Ok(Caller {
                    member: Some(other),
                })
            }
            Err((member, fault)) => {
                give_back(&mut caller.member, member);
                Err(fault)
            }
        }
    }

    /// The first caller goes on, with the names and parts of both, the longer front, and the greater
    /// count of numbers found. No entry of a caller is missing in the longer front: it goes on from
    /// the caller's own by entries of others alone. The two callers have no name in common.
    pub fn join(&self, caller: &mut Caller<T>, other: Caller<T>)
        requires first { caller.old.of ≡ self.now }
        requires second { other.of ≡ self.now }
        ensures both { caller.new ≡ record caller.old {
          names = caller.old.names ++ other.names;
          parts = caller.old.parts + other.parts;
          front = longer caller.old.front other.front;
          found = max caller.old.found other.found;
        } }
        // From either front the longer one goes on by entries that carry none of its caller's names.
        ensures own { Follows caller.old.names caller.old.front caller.new.front
            × Follows other.names other.front caller.new.front }
        ensures apart { (x : ℕ) → 0 < times x caller.old.names → times x other.names ≡ 0 }
        ensures distinct { (x : ℕ) → times x caller.new.names ≤ 1 }
        ensures at_most_all { caller.new.parts ≤ all_parts }
    {
        match other.member {
            None => unreachable!(),
            Some(second) => {
                let first = take(&mut caller.member);
                give_back(&mut caller.member, self.shared.join(first, second));
            }
        }
    }

    /// The session, whose entries are the caller's front, exactly where the caller has all 2^62
    /// parts. So a program that has joined every caller that it split off can close. Where the caller
    /// has fewer, the connection and the caller come back as they were.
    pub fn close(self, caller: Caller<T>) -> Result<Session<T>, (Connection<T>, Caller<T>)>
        requires { caller.of ≡ self }
        ensures closed { IfOk result (λ s. caller.parts ≡ all_parts) }
        ensures entries { IfOk result (λ s. s.entries ≡ caller.front) }
        ensures settings { IfOk result (λ s. s.settings ≡ self.settings) }
        ensures tells { IfOk result (λ s. s.tells ≡ self.tells) }
        // Each entry carries one of the caller's names.
        ensures named { IfOk result (λ s.
            (x : ℕ) → times x caller.names ≡ 0 → calls who_of x caller.front ≡ 0) }

        ensures refused { IfErr result (λ r. caller.parts < all_parts) }
        ensures kept { IfErr result (λ r. (r.0 ≡ self) × (r.1 ≡ caller)) }
    {
        let Connection {
            shared,
            max_in,
            resume,
            bell,
        } = self;
        match caller.member {
            None => unreachable!(),
            Some(member) => match shared.close(member) {
                Ok(session) => Ok(session),
                Err((shared, member)) => Err((
                    Connection {
                        shared,
                        max_in,
                        resume,
                        bell,
                    },
                    Caller {
                        member: Some(member),
                    },
                )),
            },
        }
    }
}
