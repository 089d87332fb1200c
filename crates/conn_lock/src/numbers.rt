//! Numbers and parts: how a seat is split in two, and how two become one.

ghost use Rattle.std.specs.Prelude.{◌≡◌, ◌<◌, ◌≤◌, ◌+◌, ◌-◌, ◌↔◌, ℕ, List, [], ◌∷◌, ◌++◌, IfErr, IfNone, IfOk, IfSome, None, false, max};
ghost use Rattle.conn_lock.specs.Callers.{all_parts, calls, Follows, longer, most_numbers, share, times};
ghost use Rattle.conn_lock.specs.Rule.{left, right};
ghost use Rattle.conn_lock.specs.Seats.{IsSeated, known};

use crate::lock::{Lock, NAMES};
use crate::seat::{Seat, Token};
use crate::stands::Stands;
use crate::steps::{Both, Count, Name, Share, Tell};
use std::sync::Wait;
use thiserror::Error;

/// How many numbers a lock gives out, from 0 on.
const MOST_NUMBERS: u64 = 4_294_967_295;

/// A new seat gets one in this many of the parts of the seat that it is split off. So the first seat
/// can be split some two million times.
const SHARE: u64 = 65_536;

/// Why no seat was split off. A split allocates nothing, so it can't run out of memory.
#[derive(Clone, Copy, Debug, PartialEq, Eq, Error)]
pub enum SplitFault {
    /// The seat has one part.
    #[error("the seat has one part")]
    PartsGone,
    /// All 4,294,967,295 numbers of the lock were drawn.
    #[error("all 4,294,967,295 numbers of the lock were drawn")]
    NamesGone,
}

// The seat that has this token, between two turns.
fn seat_of<S: Stands>(token: Token<S>, number: u32, parts: u64) -> Seat<S>
    requires { IsSeated number parts token.me }
    ensures { result ≡ known token.table_id number token.me.0 }
{
    Seat {
        token,
        number,
        parts,
    }
}

impl<S: Stands> Lock<S> {
    /// The seat, and a new one with a number that was never drawn before, the same front, and a
    /// 65,536th of the parts, rounded down, but at least one. It may wait, since other seats draw
    /// numbers too.
    ///
    /// It is refused with [`PartsGone`](SplitFault::PartsGone) exactly where the seat has one part,
    /// and else with [`NamesGone`](SplitFault::NamesGone) exactly where 4,294,967,295 numbers were
    /// drawn, which the seat has then found. The refused seat comes back with its names, parts and
    /// front.
    pub fn split<R: Wait>(
        &self,
        rt: &R,
        seat: Seat<S>,
    ) -> Result<(Seat<S>, Seat<S>), (Seat<S>, SplitFault)>
        requires { seat.lock ≡ self.now }
        ensures old { IfOk result (λ r. r.0 ≡ record seat {
          parts = seat.parts - share seat.parts;
          found = r.1.number + 1;
        }) }
        ensures new { IfOk result (λ r. r.1 ≡ record {
          lock = self.now;
          number = r.1.number;
          names = r.1.number ∷ [];
          parts = share seat.parts;
          front = seat.front;
          found = r.1.number + 1;
          misses = 0;
          note = None;
        }) }
        ensures parts { IfOk result (λ r. r.0.parts + r.1.parts ≡ seat.parts) }

        // The new number is how many were drawn before: no fewer than the seat had found, not all.
        ensures drawn { IfOk result (λ r. (seat.found ≤ r.1.number) × (r.1.number < most_numbers)) }
        ensures fresh { IfOk result (λ r. times r.1.number seat.names ≡ 0) }
        ensures unused { IfOk result (λ r. calls S.number r.1.number seat.front ≡ 0) }

        ensures several_parts { IfOk result (λ r. 1 < seat.parts) }
        ensures parts_gone { IfErr result (λ r. (r.1 ≡ SplitFault.PartsGone) ↔ (seat.parts ≡ 1)) }
        ensures names_gone { IfErr result (λ r. r.1 ≡ SplitFault.NamesGone
            → (1 < seat.parts) × (r.0.found ≡ most_numbers)) }
        ensures kept { IfErr result (λ r. r.0 ≡ record seat { found = r.0.found }) }
        ensures found { IfErr result (λ r. seat.found ≤ r.0.found) }
    {
        if seat.parts == 1 {
            return Err((seat, SplitFault::PartsGone));
        }
        let Seat {
            mut token,
            number,
            parts,
        } = seat;
        let Some(drawn) = self.draw_number(rt, &mut token) else {
            return Err((seat_of(token, number, parts), SplitFault::NamesGone));
        };
        let other = self.cut(&mut token, drawn);
        let given = (parts / SHARE).max(1);
        let seat = seat_of(token, number, parts - given);
        Ok((seat, seat_of(other, drawn, given)))
    }

    /// The first seat goes on, with the names and parts of both, the longer front, and the greater
    /// count of numbers found. No entry of a seat is missing in the longer front: it goes on from
    /// the seat's own by entries of others alone. The two seats have no name in common.
    pub fn join(&self, seat: Seat<S>, other: Seat<S>) -> Seat<S>
        requires first { seat.lock ≡ self.now }
        requires second { other.lock ≡ self.now }
        ensures both { result ≡ record seat {
          names = seat.names ++ other.names;
          parts = seat.parts + other.parts;
          front = longer seat.front other.front;
          found = max seat.found other.found;
        } }
        // From either front the longer one goes on by entries that carry none of its seat's names.
        ensures own { Follows S.number seat.names seat.front result.front
            × Follows S.number other.names other.front result.front }
        ensures apart { (x : ℕ) → 0 < times x seat.names → times x other.names ≡ 0 }
        ensures distinct { (x : ℕ) → times x result.names ≤ 1 }
        ensures at_most_all { result.parts ≤ all_parts }
    {
        let Seat {
            mut token,
            number,
            parts,
        } = seat;
        let Seat {
            token: theirs,
            number: _,
            parts: more,
        } = other;
        self.table.shared.join_seat::<Both>(&mut token, theirs);
        self.table.shared.load::<Tell>(&mut token, NAMES);
        Seat {
            token,
            number,
            parts: parts + more,
        }
    }

    // Draws a number, which becomes the first of the seat's names.
    fn draw_number<R: Wait>(&self, rt: &R, token: &mut Token<S>) -> Option<u32>
        requires of { token.old.table_id ≡ self.now }
        requires idle { (token.old.me.1 ≡ []) × (token.old.me.0.tickets ≡ [])
            × (token.old.me.0.turn ≡ false) × (0 < token.old.me.0.parts) }
        ensures same { (token.new.table_id ≡ token.old.table_id) × (token.new.id ≡ token.old.id) }
        ensures drawn { IfSome result (λ n. (token.old.me.0.found ≤ n) × (n < most_numbers)) }
        ensures fresh { IfSome result (λ n. times n token.old.me.0.names ≡ 0) }
        ensures unused { IfSome result (λ n. calls S.number n token.old.me.0.front ≡ 0) }
        ensures name { IfSome result (λ n. token.new.me
            ≡ (record token.old.me.0 { names = n ∷ token.old.me.0.names; found = n + 1 }, [])) }
        ensures gone { IfNone result (token.new.me ≡
            (record token.old.me.0 { found = most_numbers }, [])) }
        ensures found { IfNone result (token.old.me.0.found ≤ most_numbers) }
    {
        let mut seen = self.table.shared.load::<Count>(token, NAMES);
        for _ in rt.forever() {
            if seen >= MOST_NUMBERS {
                return None;
            }
            let found = self
                .table
                .shared
                .compare_exchange::<Name>(token, NAMES, seen, seen + 1);
            if found == seen {
                return Some(found as u32);
            }
            seen = found;
        }
        unreachable!()
    }

    // A new seat with the first name and a share of the parts.
    fn cut(&self, token: &mut Token<S>, _number: u32) -> Token<S>
        requires of { token.old.table_id ≡ self.now }
        requires named { (names : List ℕ) × (token.old.me.0.names ≡ _number ∷ names) }
        requires idle { (token.old.me.0.tickets ≡ []) × (token.old.me.0.turn ≡ false)
            × (1 < token.old.me.0.parts) }
        ensures same { (token.new.table_id ≡ token.old.table_id) ×
            (result.table_id ≡ token.old.table_id) }
        ensures left { token.new.me ≡ (left token.old.me.0, token.old.me.1) }
        ensures right { result.me ≡ (right token.old.me.0, []) }
    {
        self.table.shared.split_seat::<Share>(token)
    }
}
