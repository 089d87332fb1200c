//! Both ends of a ring in one thread.

ghost use Rattle.std.specs.Prelude.{◌≡◌, ◌++◌, ◌∷◌, [], List};
ghost use Rattle.rtrb.specs.Ring.{ConsumerLooked, IsPair, ProducerLooked, received, sent};
ghost use Rattle.ring.specs.Parts.{IsEnded, IsFinished, IsPrefix};

use crate::item::Item;
use rtrb::{Consumer, Producer};

/// What was read is a prefix of what was pushed. Where the end that pushed has pushed its last item, and the
/// other has read it, all was read.
pub fn compare(producer: &mut Producer<Item>, consumer: &mut Consumer<Item>)
    requires { IsPair producer.old consumer.old }
    ensures sent { sent producer.new ≡ sent producer.old }
    ensures received { received consumer.new ≡ received consumer.old }
    ensures begins { IsPrefix (received consumer.old) (sent producer.old) }
    ensures all { IsEnded (sent producer.old) → IsFinished (received consumer.old) →
        received consumer.old ≡ sent producer.old }
{
    consumer.slots_beside(producer);
}
