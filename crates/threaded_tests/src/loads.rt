//! What both ends of a large run count: the frames that they made and handled, and the bytes of
//! these.
//!
//! The client makes two requests of 10 bytes, 50,000 payloads of 6 bytes and their content, and an
//! end of 6; the server a REQUEST_N of 10, as many payloads, and two ends of 6.

use rsocket_load::load;
use std::alloc::Global;
use std::process::Abort;
use tape::{BlankShelf, KeptShelf, Shelf};

/// A seed, and what its run writes.
type Row = (u32, &'static [u8]);

const FIRST: Row = (
    0,
    b"client made 50003 1899770 handled 50003 1849766
server made 50003 1849766 handled 50003 1899770
load 0 cuts 9
",
);

const ROWS: &[Row] = &[
    FIRST,
    (
        1,
        b"client made 50003 1849802 handled 50003 1899766
server made 50003 1899766 handled 50003 1849802
load 1 cuts 9
",
    ),
    (
        u32::MAX,
        b"client made 50003 1849770 handled 50003 1899798
server made 50003 1899798 handled 50003 1849770
load 4294967295 cuts 9
",
    ),
];

// Whether the run of this seed over that shelf writes so.
fn writes<R: Abort, H: Shelf>(rt: &R, alloc: Global, shelf: &mut H, row: Row) -> bool {
    let (seed, wanted) = row;
    let text = load(alloc, seed, shelf).expect(rt, "there is memory");
    let is_so = text.as_slice() == wanted;
    drop(text);
    is_so
}

#[test]
fn both_ends_handle_all_that_was_made(rt: HostRuntime) {
    for row in ROWS {
        let mut shelf = BlankShelf::new(rt.alloc());
        let is_so = writes(&rt, rt.alloc(), &mut shelf, *row);
        drop(shelf);
        assert!(rt; is_so, "seed {}", row.0);
    }
}

#[test]
fn what_tapes_keep_is_not_written(rt: HostRuntime) {
    let mut shelf = KeptShelf::new(rt.alloc());
    let is_so = writes(&rt, rt.alloc(), &mut shelf, FIRST);
    drop(shelf);
    assert!(rt; is_so);
}
