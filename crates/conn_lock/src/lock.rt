//! The lock: how it is made, and how it is closed.

ghost use Rattle.std.specs.Prelude.{◌≡◌, ◌<◌, ℕ, [], ◌∷◌, IfErr, IfOk, None};
ghost use Rattle.conn_lock.specs.Callers.{all_parts, calls, times};

use crate::seat::Seat;
use crate::stands::Stands;
use crate::steps::Rules;
use crate::view::View;
use rs_wire::OutOfMemory;
use std::alloc::Global;
use std::marker::Model;
use std::snapshot::Snapshot;

/// The word with the next ticket.
pub(crate) const TICKET: usize = 0;

/// The word with the ticket that is served.
pub(crate) const SERVING: usize = 1;

/// The word with the count of the numbers that were drawn.
pub(crate) const NAMES: usize = 2;

/// The slot of the value.
pub(crate) const VALUE: usize = 0;

/// The parts of all seats of a lock.
const ALL_PARTS: u64 = 1 << 62;

type Table<S> = atomic_table::Table<
    Option<S>,
    View<<S as Stands>::Entry>,
    Snapshot<S>,
    Rules<S>,
    Global,
>;

/// A lock round a value. Threads share it by reference. Contracts see which lock it is.
#[derive(Drop)]
pub struct Lock<S: Stands> {
    /// The three words and the one slot.
    pub(crate) table: Table<S>,
}

impl<S: Stands> Model for Lock<S> {
    ghost use Rattle.std.specs.Prelude.{◌≡◌};
    ghost use Rattle.conn_lock.specs.Callers.{LockId};

    ghost Value = { LockId };

    ghost view = { λ l. l.table.shared.table_id };

    ghost invariant = { λ l.
        (l.table.shared.table_id.words ≡ 3) × (l.table.shared.table_id.slots ≡ 1) };
}

impl<S: Stands> Lock<S> {
    /// A lock round the value, and its first seat, with the number 0, all 2^62 parts, and the value's
    /// list as its front. Each entry of that list carries the number 0. The value comes back where
    /// there was no memory.
    pub fn new(alloc: Global, value: S) -> Result<(Lock<S>, Seat<S>), (S, OutOfMemory)>
        requires { (x : ℕ) → 0 < x → calls S.number x (S.list value) ≡ 0 }
        ensures first { IfOk result (λ r. r.1 ≡ record {
          lock = r.0;
          number = 0;
          names = 0 ∷ [];
          parts = all_parts;
          front = S.list value;
          found = 1;
          misses = 0;
          note = None;
        }) }
        ensures kept { IfErr result (λ r. r.0 ≡ value) }
    {
        let start = Snapshot::of(&value);
        let mut slots = Vec::new(alloc);
        if let Err(failed) = slots.push(Some(value)) {
            slots.destroy_empty();
            return match failed.value {
                Some(value) => Err((value, OutOfMemory)),
                None => unreachable!(),
            };
        }
        match Table::new(alloc, &[0, 0, 1], slots, &start) {
            Ok((table, token)) => Ok((
                Lock { table },
                Seat {
                    token,
                    number: 0,
                    parts: ALL_PARTS,
                },
            )),
            Err(refused) => {
                let mut slots = refused.slots;
                match slots.pop() {
                    Some(Some(value)) => {
                        slots.destroy_empty();
                        Err((value, OutOfMemory))
                    }
                    _ => unreachable!(),
                }
            }
        }
    }

    /// The value, whose list is the seat's front, exactly where the seat has all 2^62 parts. So a
    /// program that has joined every seat that it split off can close. Where the seat has fewer, the
    /// lock and the seat come back as they were.
    pub fn close(self, seat: Seat<S>) -> Result<S, (Lock<S>, Seat<S>)>
        requires { seat.lock ≡ self }
        ensures closed { IfOk result (λ v. seat.parts ≡ all_parts) }
        ensures list { IfOk result (λ v. S.list v ≡ seat.front) }
        // Each entry carries one of the seat's names.
        ensures named { IfOk result (λ v.
            (x : ℕ) → times x seat.names ≡ 0 → calls S.number x (S.list v) ≡ 0) }

        ensures refused { IfErr result (λ r. seat.parts < all_parts) }
        ensures kept { IfErr result (λ r. (r.0 ≡ self) × (r.1 ≡ seat)) }
    {
        if seat.parts != ALL_PARTS {
            return Err((self, seat));
        }
        let Seat {
            token,
            number: _,
            parts: _,
        } = seat;
        let Lock { table } = self;
        let mut closed = table.close_with(token);
        let held = closed.take(VALUE);
        closed.free();
        match held {
            Some(value) => Ok(value),
            None => unreachable!(),
        }
    }
}
