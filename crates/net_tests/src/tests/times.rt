//! How long dials pause, how long a link is waited for that is given up, and the clock.

use super::links::{FRAMES, free_address, take_frames};
use host_net::{HostClock, HostNet};
use outside::{Clock, Given, Link, Net, NetFault};
use rs_wire::Blob;
use std::alloc::Global;
use std::net::{TcpListener, TcpStream};
use std::process::Abort;
use std::random::RandomSource;
use std::time::{Duration, Instant};
use std::{io, net, thread, time};

/// Two dials at which nobody listens, after those of the rows before, and how long they take at
/// least, in milliseconds: they pause for 0 and 100, for 200 and 400. The dial after them pauses for
/// 800 and works, and then the pauses begin again.
const PAUSES: &[u64] = &[100, 600];

// How long two dials take that fail, in milliseconds.
fn two_dials<R: time::Clock + Abort, N: Net>(rt: &R, net: &mut N, nobody: &Blob) -> io::Result<u128>
where
    N::Link: Drop,
{
    let start = Instant::now(rt)?;
    for _ in 0..2 {
        assert!(rt; matches!(net.dial(nobody, false), Err(NetFault::Failed)));
    }
    Ok(start.elapsed(rt)?.as_millis())
}

// Dials at which nobody listens, then one that works, and again.
fn pause<R: time::Clock + Abort, N: Net>(
    rt: &R,
    net: &mut N,
    nobody: &Blob,
    somebody: &Blob,
) -> io::Result<()>
where
    N::Link: Drop,
{
    for &least in PAUSES {
        assert!(rt; two_dials(rt, net, nobody)? >= u128::from(least));
    }
    let Ok(link) = net.dial(somebody, false) else {
        panic!(rt; "somebody listens");
    };
    net.put_back(link);

    // Of 0 and 100 again, where they would have been 1,600 and 3,000.
    let again = two_dials(rt, net, nobody)?;
    assert!(rt; again >= 100 && again < 4_600);
    Ok(())
}

#[test]
fn a_dial_that_failed_pauses_before_the_next(rt: HostRuntime) {
    let nobody = free_address(&rt, rt.alloc());
    let somebody = free_address(&rt, rt.alloc());
    let mut server = HostNet::new(rt.alloc(), &rt);
    assert!(rt; server.listen(&somebody) == Ok(()));
    let mut net = HostNet::new(rt.alloc(), &rt);
    let paused = pause(&rt, &mut net, &nobody, &somebody);
    drop(net);
    drop(server);
    drop(somebody);
    drop(nobody);
    paused.expect(&rt, "there is a clock");
}

/// What a server leaves unread.
const UNREAD: &[u8] = &[7; 4096];

// How long the server takes to put its link back, in milliseconds, where the client sent what is not
// read and ends nothing. The client has what was given last.
fn give_up<R: time::Clock + Abort, N: Net>(
    rt: &R,
    server: &mut N,
    client: &mut N,
    address: &Blob,
) -> io::Result<u128>
where
    N::Link: Drop,
{
    // Over TCP the system answers before anyone accepts.
    let Ok(mut near) = client.dial(address, false) else {
        panic!(rt; "the server listens");
    };
    let Ok(mut far) = server.accept(false) else {
        panic!(rt; "the client dialed");
    };
    assert!(rt; near.give(UNREAD) == Given::Took(4096));
    assert!(rt; far.give(&FRAMES) == Given::Took(9));
    let start = Instant::now(rt);
    server.put_back(far);
    let end = Instant::now(rt);
    take_frames(rt, &mut near);
    client.put_back(near);
    Ok(end?.duration_since(start?).as_millis())
}

#[test]
fn what_was_given_last_comes_though_the_link_was_put_back(rt: HostRuntime) {
    let address = free_address(&rt, rt.alloc());
    let mut server = HostNet::new(rt.alloc(), &rt);
    let mut client = HostNet::new(rt.alloc(), &rt);
    assert!(rt; server.listen(&address) == Ok(()));
    let passed = give_up(&rt, &mut server, &mut client, &address);
    drop(client);
    drop(server);
    drop(address);
    let passed = passed.expect(&rt, "there is a clock");
    assert!(rt; passed >= 190 && passed < 5_000, "{passed} milliseconds");
}

#[test]
fn the_clock_goes_on(rt: HostRuntime) {
    let clock = HostClock::new(&rt);
    let first = clock.now();
    thread::sleep(&rt, Duration::from_millis(20));
    assert!(rt; clock.now() >= first.saturating_add(20));
}
