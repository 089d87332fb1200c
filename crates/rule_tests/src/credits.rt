//! Credit.

use credit::Credit;
use rs_wire::Amount;

#[test]
fn two_are_granted_two_are_used_and_one_more_is_granted(rt: HostRuntime) {
    let two = Amount::of(2).expect(&rt, "an amount");
    let one = Amount::of(1).expect(&rt, "an amount");
    let mut credit = Credit::new();
    assert!(rt; credit.left() == 0);
    credit.grant(two);
    credit.use_one();
    credit.use_one();
    assert!(rt; credit.granted() == 2 && credit.left() == 0);
    credit.grant(one);
    assert!(rt; credit.granted() == 3 && credit.left() == 1);
}
