//! Turns: how one is waited for, tried for, and given back.

ghost use Rattle.std.specs.Prelude.{◌≡◌, ◌<◌, ◌+◌, ◌-◌, ◌^◌, ◌⊎◌, [], ◌∷◌, IfErr, IfOk, IfSome, IsSome, Option, None, Some, false};
ghost use Rattle.conn_lock.specs.Callers.{Adds, Follows};
ghost use Rattle.conn_lock.specs.Seats.{IsBegun};

use crate::lock::{Lock, SERVING, TICKET, VALUE};
use crate::seat::{Seat, Token};
use crate::stands::Stands;
use crate::steps::{Grab, Note, Pass, Win};
use crate::turn::Turn;
use crossbeam_utils::Backoff;
use std::sync::Wait;

impl<S: Stands> Lock<S> {
    /// Waits for a turn. Where 2^64 - 1 tickets have been drawn it waits for ever.
    #[inline(always)]
    pub fn enter<R: Wait>(&self, rt: &R, seat: Seat<S>) -> Turn<S>
        requires { seat.lock ≡ self.now }
        ensures same { result.seat ≡ record seat { front = S.list result.value; note = None } }
        ensures front { Follows S.number seat.names seat.front (S.list result.value) }
    {
        let Seat {
            mut token,
            number,
            parts,
        } = seat;
        let ticket = self.win(rt, &mut token);
        let value = self.take_out(&mut token);
        Turn {
            token,
            number,
            parts,
            ticket,
            value,
        }
    }

    /// A turn, where nobody has one. It waits for nobody.
    ///
    /// It is refused only where the next ticket was not the one that was served when this call
    /// looked, which counts as a miss of the seat, or where the last ticket, 2^64 - 1, is served.
    /// The seat has seen nothing new then.
    pub fn try_enter(&self, seat: Seat<S>) -> Result<Turn<S>, Seat<S>>
        requires { seat.lock ≡ self.now }
        ensures same { IfOk result (λ t. t.seat ≡
            record seat { front = S.list t.value; note = None }) }
        ensures front { IfOk result (λ t. Follows S.number seat.names seat.front (S.list t.value)) }

        ensures refused { IfErr result (λ s.
            (s ≡ record seat { misses = seat.misses + 1; note = None })
            ⊎ (s ≡ record seat { note = Some (2 ^ 64 - 1) })) }
    {
        let Seat {
            mut token,
            number,
            parts,
        } = seat;
        let serving = self.table.shared.load::<Note>(&mut token, SERVING);
        if serving < u64::MAX {
            let found = self
                .table
                .shared
                .compare_exchange::<Grab>(&mut token, TICKET, serving, serving + 1);
            if found == serving {
                let value = self.take_out(&mut token);
                return Ok(Turn {
                    token,
                    number,
                    parts,
                    ticket: serving,
                    value,
                });
            }
        }
        Err(Seat {
            token,
            number,
            parts,
        })
    }

    /// Gives the turn back. The seat has then seen the whole list of the value. The list may only
    /// have gained entries of the turn's number.
    #[inline(always)]
    pub fn leave(&self, turn: Turn<S>) -> Seat<S>
        requires of { turn.seat.lock ≡ self.now }
        requires own { Adds S.number turn.seat.number turn.seat.front (S.list turn.value) }
        ensures { result ≡ record turn.seat { front = S.list turn.value } }
    {
        let Turn {
            mut token,
            number,
            parts,
            ticket,
            value,
        } = turn;
        self.put_in(&mut token, value);
        self.table
            .shared
            .store::<Pass>(&mut token, SERVING, ticket + 1);
        Seat {
            token,
            number,
            parts,
        }
    }

    // Draws the ticket that is served, once nobody has it, and the turn begins. It is never the last. No
    // ticket waits in line, so a thread that waits and does not run holds up nobody.
    #[inline(always)]
    fn win<R: Wait>(&self, rt: &R, token: &mut Token<S>) -> u64
        requires of { token.old.table_id ≡ self.now }
        requires idle { (token.old.me.1 ≡ []) × (token.old.me.0.tickets ≡ [])
            × (token.old.me.0.turn ≡ false) × (0 < token.old.me.0.parts) }
        ensures same { (token.new.table_id ≡ token.old.table_id) × (token.new.id ≡ token.old.id) }
        ensures fits { result < 2 ^ 64 - 1 }
        ensures turn { IsBegun S.list S.number result token.old.me token.new.me }
    {
        match self.try_win(token) {
            Some(ticket) => ticket,
            None => self.win_later(rt, token),
        }
    }

    // The same, where somebody has a turn.
    #[cold]
    fn win_later<R: Wait>(&self, rt: &R, token: &mut Token<S>) -> u64
        requires of { token.old.table_id ≡ self.now }
        requires idle { (token.old.me.1 ≡ []) × (token.old.me.0.tickets ≡ [])
            × (token.old.me.0.turn ≡ false) × (0 < token.old.me.0.parts) }
        ensures same { (token.new.table_id ≡ token.old.table_id) × (token.new.id ≡ token.old.id) }
        ensures fits { result < 2 ^ 64 - 1 }
        ensures turn { IsBegun S.list S.number result token.old.me token.new.me }
    {
        let backoff = Backoff::new();
        for _ in rt.forever() {
            backoff.snooze();
            if let Some(ticket) = self.try_win(token) {
                return ticket;
            }
        }
        unreachable!()
    }

    // Draws the ticket that is served, where nobody has it, unless it is the last.
    #[inline(always)]
    fn try_win(&self, token: &mut Token<S>) -> Option<u64>
        requires of { token.old.table_id ≡ self.now }
        requires idle { (token.old.me.1 ≡ []) × (token.old.me.0.tickets ≡ [])
            × (token.old.me.0.turn ≡ false) × (0 < token.old.me.0.parts) }
        ensures same { (token.new.table_id ≡ token.old.table_id) × (token.new.id ≡ token.old.id) }
        ensures fits { IfSome result (λ n. n < 2 ^ 64 - 1) }
        ensures turn { IfSome result (λ n. IsBegun S.list S.number n token.old.me token.new.me) }
        ensures none { result ≡ None → token.new.me ≡
            (record token.old.me.0 { note = token.new.me.0.note }, []) }
    {
        let served = self.table.shared.load::<Note>(token, SERVING);
        if served == u64::MAX || self.table.shared.peek(TICKET) != served {
            return None;
        }
        let found = self
            .table
            .shared
            .compare_exchange::<Win>(token, TICKET, served, served + 1);
        if found != served {
            return None;
        }
        Some(served)
    }

    // Takes the value out of the slot, which is out with the seat.
    #[inline(always)]
    fn take_out(&self, token: &mut Token<S>) -> S
        requires of { token.old.table_id ≡ self.now }
        requires there { (x : Option S) × (token.old.me.1 ≡ (0, x) ∷ []) × IsSome x }
        ensures same { (token.new.table_id ≡ token.old.table_id) × (token.new.id ≡ token.old.id) }
        ensures value { token.old.me.1 ≡ (0, Some result) ∷ [] }
        ensures out { token.new.me ≡ (token.old.me.0, (0, None) ∷ []) }
    {
        match self.table.shared.exchange(token, VALUE, None) {
            Some(value) => value,
            None => unreachable!(),
        }
    }

    // Puts the value into the slot, which is out with the seat.
    #[inline(always)]
    fn put_in(&self, token: &mut Token<S>, value: S)
        requires of { token.old.table_id ≡ self.now }
        requires out { token.old.me.1 ≡ (0, None) ∷ [] }
        ensures same { (token.new.table_id ≡ token.old.table_id) × (token.new.id ≡ token.old.id) }
        ensures value { token.new.me ≡ (token.old.me.0, (0, Some value) ∷ []) }
    {
        match self.table.shared.exchange(token, VALUE, Some(value)) {
            None => {}
            Some(_) => unreachable!(),
        }
    }
}
