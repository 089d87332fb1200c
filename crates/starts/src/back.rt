//! What a thread hands back.

ghost use Rattle.std.specs.Prelude.{◌≡◌, [], IfErr, IfNone, IfOk, None, Some, length};
ghost use Rattle.rtrb.specs.Ring.{IsPair, SameConsumer, received, sent};

use crate::place::{Giver, Named, Taker};
use std::snapshot::Snapshot;
use std::thread::Promise;

/// What a thread hands back: its end of the ring by which it got its work, and what became of that.
#[derive(Drop)]
pub struct Back<W, D, N: Named<W>> {
    /// Its end of the ring.
    pub start: Taker<W, N>,
    /// What became of the work, or `None` where it got none.
    pub done: Option<D>,
}

/// A fact about what became of work.
pub trait Fact<D> {
    ghost holds: { Self → D → Type 0 };
}

/// The promise of a thread: its end of the ring is the one that it was started with, it got its work or
/// popped nothing, and what became of the work meets the fact.
#[derive(Drop)]
pub struct Honest<W, N: Named<W>, F> {
    /// The end of the ring that it was started with.
    pub of: Snapshot<Taker<W, N>>,
    /// The fact.
    pub fact: F,
}

impl<W, D, N: Named<W>, F: Fact<D>> Promise<Back<W, D, N>> for Honest<W, N, F> {
    ghost use Rattle.std.specs.Prelude.{◌≡◌, [], IfNone, IfSome};
    ghost use Rattle.rtrb.specs.Ring.{SameConsumer, received};

    ghost kept_by = { λ p b. SameConsumer p.of.value b.start
        × IfNone b.done (received b.start ≡ []) × IfSome b.done (F.holds p.fact) };
}

/// What became of the work, or the work itself where the thread got none.
pub fn take_back<W: Drop, D: Drop, N: Named<W>>(
    start: Giver<W, N>,
    back: Back<W, D, N>,
    was: Snapshot<Taker<W, N>>,
) -> Result<D, W>
    requires pair { IsPair start was.value }
    requires ring { SameConsumer was.value back.start }
    requires none { IfNone back.done (received back.start ≡ []) }
    requires one { length (sent start) ≡ 1 }
    ensures done { IfOk result (λ done. back.done ≡ Some done) }
    ensures left { IfErr result (λ work. (back.done ≡ None) × (N.work ≡ Some work)) }
{
    let mut start = start;
    let Back {
        start: mut waits,
        done,
    } = back;
    waits.slots_beside(&mut start);
    match done {
        Some(done) => Ok(done),
        None => Err(waits.pop_known()),
    }
}
