//! Trials of two ends over the loopback.

use crate::PIECE;
use bell::Bell;
use outside::{Given, Link, Taken};
use std::alloc::Global;
use std::net::{Ipv4Addr, Net, SocketAddr, TcpListener, TcpStream};
use std::process::Abort;
use std::sync::{Arc, Wait};
use std::test::Fail;
use std::thread::{Threads, join};
use std::time::{self, Duration};
use std::{io, thread};
use tcp_end::TcpEnd;

/// What is given at once to a link until it stalls.
const PAGE: [u8; 4096] = [7; 4096];

/// How often two ends answer each other.
const ROUNDS: u64 = 100;

// A socket of the loopback, and the one that answers it.
fn two_sockets<R: Net<Listener = TcpListener, Stream = TcpStream>>(
    rt: &R,
) -> io::Result<(TcpStream, TcpStream)> {
    let anywhere = SocketAddr::from((Ipv4Addr::LOCALHOST, 0));
    let listener = TcpListener::bind(rt, anywhere)?;
    let near = TcpStream::connect(rt, listener.local_addr()?)?;
    let (far, _) = listener.accept()?;
    Ok((near, far))
}

// Two links that are joined.
fn two_ends<R: Net<Listener = TcpListener, Stream = TcpStream>>(
    rt: &R,
    alloc: Global,
) -> io::Result<(TcpEnd, TcpEnd)> {
    let (near, far) = two_sockets(rt)?;
    Ok((TcpEnd::new(rt, alloc, near)?, TcpEnd::new(rt, alloc, far)?))
}

// Takes until a piece is whole, which comes in a hundred takes of 10 milliseconds.
fn take_piece<R: Abort>(rt: &R, link: &mut TcpEnd, piece: &mut [u8; PIECE]) {
    let mut have = 0;
    for _ in 0..100 {
        if have >= PIECE {
            return;
        }
        match link.take(&mut piece[have..]) {
            Taken::Took(count) => have += count,
            Taken::Lull => {}
            Taken::End | Taken::Failed => assert!(rt; false),
        }
    }
    assert!(rt; have >= PIECE);
}

fn answer_all<R: Abort>(rt: &R, link: &mut TcpEnd) {
    let mut piece = [0; PIECE];
    for _ in 0..ROUNDS {
        take_piece(rt, link, &mut piece);
        assert!(rt; link.give(&piece) == Given::Took(PIECE));
    }
}

fn ask_all<R: Abort>(rt: &R, link: &mut TcpEnd) {
    let mut piece = [0; PIECE];
    for round in 0..ROUNDS {
        let asked = [round as u8; PIECE];
        assert!(rt; link.give(&asked) == Given::Took(PIECE));
        take_piece(rt, link, &mut piece);
        assert!(rt; piece == asked);
    }
}

#[test]
fn two_ends_answer_each_other(rt: HostRuntime) -> Result<(), Fail> {
    let (mut near, mut far) = two_ends(&rt, rt.alloc())?;
    join(
        &rt,
        || ask_all(&rt, &mut near),
        || answer_all(&rt, &mut far),
    );
    Ok(())
}

// Gives until the link stalls, since the far end takes nothing. How many bytes it took.
fn fill<R: Abort>(rt: &R, link: &mut TcpEnd) -> u64 {
    let mut given = 0u64;
    for _ in 0..100_000 {
        match link.give(&PAGE) {
            Given::Took(count) => given = given.saturating_add(count as u64),
            Given::Lull => return given,
            Given::Failed => break,
        }
    }
    panic!(rt; "a link whose far end takes nothing stalls")
}

// Takes so many bytes. How many came.
fn drain(link: &mut TcpEnd, given: u64) -> u64 {
    let mut large = [0; 65536];
    let mut taken = 0u64;
    for _ in 0..100_000 {
        if taken >= given {
            break;
        }
        if let Taken::Took(count) = link.take(&mut large) {
            taken = taken.saturating_add(count as u64);
        }
    }
    taken
}

// What a link takes last, whose far end went away.
fn take_last(link: &mut TcpEnd) -> Taken {
    let mut buffer = [0; 8];
    for _ in 0..10 {
        let taken = link.take(&mut buffer);
        if taken != Taken::Lull {
            return taken;
        }
    }
    Taken::Lull
}

// Whether a link fails, whose far end went away.
fn gives_no_more<R: Wait + time::Clock>(rt: &R, link: &mut TcpEnd) -> bool {
    for _ in 0..10 {
        if link.give(&PAGE) == Given::Failed {
            return true;
        }
        thread::sleep(rt, Duration::from_millis(1));
    }
    false
}

#[test]
fn what_cannot_move_lulls_and_what_is_over_ends(rt: HostRuntime) -> Result<(), Fail> {
    let (mut near, mut far) = two_ends(&rt, rt.alloc())?;
    let mut buffer = [0; 8];
    assert!(rt; near.take(&mut buffer) == Taken::Lull);

    // The near end stalls, and then there is room again.
    let given = fill(&rt, &mut near);
    assert_eq!(rt; drain(&mut far, given), given);
    assert!(rt; near.take(&mut buffer) == Taken::Lull);
    assert!(rt; matches!(near.give(&PAGE), Given::Took(_)));

    drop(far);
    assert!(rt; matches!(take_last(&mut near), Taken::End | Taken::Failed));
    assert!(rt; gives_no_more(&rt, &mut near));
    Ok(())
}

#[test]
fn a_ring_ends_a_take(rt: HostRuntime) -> Result<(), Fail> {
    let (mut near, _far) = two_ends(&rt, rt.alloc())?;
    let bell = Arc::new(rt.alloc(), Bell::new())?;
    near.hear(&rt, &bell);
    let mut buffer = [0; 8];
    assert!(rt; near.take(&mut buffer) == Taken::Lull);
    bell.ring();
    assert!(rt; near.take(&mut buffer) == Taken::Lull);
    assert!(rt; near.take(&mut buffer) == Taken::Lull);
    Ok(())
}
