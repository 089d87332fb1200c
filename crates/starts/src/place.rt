//! The ring by which a thread gets its work.

ghost use Rattle.std.specs.Prelude.{◌≡◌, [], IfNone, IfOk, IfSome, Option, Some};
ghost use Rattle.rtrb.specs.Ring.{IsPair, SameConsumer, known_free, received, sent};

use rtrb::{Consumer, Producer, Protocol, RingBuffer};
use std::alloc::{AllocError, Global};
use std::marker::{Brand, PhantomData};
use std::sync::Wait;
use std::thread;

/// Which work it is. A call picks it where it passes `Brand`, for the proof alone.
pub trait Named<W> {
    ghost work: { Option W };
}

impl<W> Named<W> for Brand {
    ghost use Rattle.std.specs.Prelude.{None};

    ghost work = { None };
}

/// What goes through the ring is the work that it is named for.
pub struct Just<N> {
    of: PhantomData<N>,
}

impl<W, N: Named<W>> Protocol<W> for Just<N> {
    ghost use Rattle.std.specs.Prelude.{◌≡◌, Some};

    ghost allows = { λ before work. N.work ≡ Some work };
}

/// The end of the ring that stays with whoever starts the thread.
pub type Giver<W, N> = Producer<W, Global, Just<N>>;

/// The end of the ring that goes to the thread.
pub type Taker<W, N> = Consumer<W, Global, Just<N>>;

/// An empty ring of one place.
pub fn one_place<W: Drop, N: Named<W>>(
    alloc: Global,
) -> Result<(Giver<W, N>, Taker<W, N>), AllocError>
    ensures pair { IfOk result (λ r. IsPair r.0 r.1) }
    ensures free { IfOk result (λ r. (sent r.0 ≡ []) × (known_free r.0 ≡ 1)) }
    ensures fresh { IfOk result (λ r. received r.1 ≡ []) }
{
    RingBuffer::<W>::with_protocol::<Global, Just<N>>(alloc, 1)
}

/// The work, or `None` where none will come. It waits for it.
pub fn wait_for_work<W: Drop, N: Named<W>, R: Wait>(rt: &R, from: &mut Taker<W, N>) -> Option<W>
    ensures ring { SameConsumer from.old from.new }
    ensures named { IfSome result (λ work. N.work ≡ Some work) }
    ensures none { IfNone result (received from.new ≡ received from.old) }
{
    for _ in rt.forever() {
        if let Ok(work) = from.pop() {
            return Some(work);
        }
        if from.is_abandoned() {
            return None;
        }
        thread::yield_now();
    }
    unreachable!()
}
