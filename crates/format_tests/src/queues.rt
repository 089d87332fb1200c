//! Bytes that wait in a queue.

ghost use Rattle.std.specs.Prelude.{◌≡◌, ◌∷◌, ◌++◌, [], OnOk};

use byte_queue::ByteQueue;
use rs_wire::OutOfMemory;

#[test]
fn what_was_appended_leaves_in_order(rt: HostRuntime) {
    let mut queue = ByteQueue::new(rt.alloc());
    queue.append(&[1, 2, 3]).expect(&rt, "there is memory");
    queue.drop_front(1);
    queue.append(&[4]).expect(&rt, "there is memory");
    let are_three = queue.as_slice() == [2, 3, 4].as_slice();
    queue.drop_front(2);
    let is_last = queue.as_slice() == [4].as_slice() && queue.len() == 1;
    queue.clear();
    let length = queue.len();
    drop(queue);
    assert!(rt; are_three && is_last && length == 0);
}

#[test]
fn what_was_reserved_is_appended_without_allocating(rt: HostRuntime) {
    let mut queue = ByteQueue::new(rt.alloc());
    queue.append(&[7; 9]).expect(&rt, "there is memory");
    queue.reserve(4).expect(&rt, "there is memory");
    queue.drop_front(9);
    queue.append(&[1, 2]).unwrap();
    queue.append(&[3, 4]).unwrap();
    let are_four = queue.as_slice() == [1, 2, 3, 4].as_slice();
    drop(queue);
    assert!(rt; are_four);
}

fn append_pair(queue: &mut ByteQueue, byte: u8) -> Result<(), OutOfMemory>
    ensures { OnOk result (queue.new.bytes ≡ queue.old.bytes ++ byte ∷ byte ∷ []) }
{
    queue.append_with(|out| {
        out.extend_from_slice(&[byte, byte])?;
        Ok(())
    })
}

#[test]
fn a_writer_appends_what_it_writes(rt: HostRuntime) {
    let mut queue = ByteQueue::new(rt.alloc());
    append_pair(&mut queue, 5).expect(&rt, "there is memory");
    append_pair(&mut queue, 6).expect(&rt, "there is memory");
    queue.drop_front(1);
    let are_three = queue.as_slice() == [5, 6, 6].as_slice();
    drop(queue);
    assert!(rt; are_three);
}
