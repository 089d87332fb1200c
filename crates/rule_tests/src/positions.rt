//! Positions.

use position::{Counter, Spent};

/// Lengths that are added in turn to a counter whose top is 10, what that comes to, and the sum then.
const ADDED: &[(u32, Result<(), Spent>, u64)] = &[
    (8, Ok(()), 8),
    (3, Err(Spent), 8),
    (2, Ok(()), 10),
    (0, Ok(()), 10),
    (1, Err(Spent), 10),
];

// Whether adding the length comes to this, and leaves this sum.
fn adds(counter: &mut Counter, length: u32, added: Result<(), Spent>, sum: u64) -> bool {
    counter.add(length) == added && counter.now() == sum
}

#[test]
fn a_length_that_passes_the_top_is_not_added(rt: HostRuntime) {
    let mut counter = Counter::new(10);
    assert!(rt; counter.now() == 0);
    for (length, added, sum) in ADDED {
        assert!(rt; adds(&mut counter, *length, *added, *sum));
    }
}

#[test]
fn a_top_of_zero_takes_nothing_and_sums_may_pass_32_bits(rt: HostRuntime) {
    let mut empty = Counter::new(0);
    assert!(rt; adds(&mut empty, 1, Err(Spent), 0) && empty == Counter::new(0));

    let mut counter = Counter::new(u64::MAX);
    for sum in [4_294_967_295, 8_589_934_590] {
        assert!(rt; adds(&mut counter, u32::MAX, Ok(()), sum));
    }
}

#[test]
fn a_spent_position_says_so_in_a_sentence(rt: HostRuntime) {
    let sentence = format!(in rt.alloc(); "{}", Spent).expect(&rt, "there is memory");
    let is_so = sentence.as_str() == "the sum of the lengths would pass its top";
    drop(sentence);
    assert!(rt; is_so);
}
