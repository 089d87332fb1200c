//! Trials of a crew in threads.

use crate::meeting::{Count, Links, Meeting, Seat, Worker};
use crew::serve_with_workers;
use std::process::Abort;
use std::sync::Wait;
use std::thread::Threads;

// Three links and two workers, each in a thread, since each waits for the four others.
fn serve_side_by_side<R: Abort + Threads + Wait + Sync>(rt: &R) {
    let meeting = Meeting::new(5);
    let mut net = Links { left: 9, asked: 0 };
    let mut seats = [Seat::Vacant; 3];
    let mut workers = [Worker { met: false }; 2];
    let mut last = Count { met: 0 };
    serve_with_workers(
        rt,
        &meeting,
        &mut net,
        seats.as_mut_slice(),
        &mut last,
        workers.as_mut_slice(),
    );
    assert!(rt; seats == [Seat::Met(8), Seat::Met(7), Seat::Met(6)]);
    assert!(rt; workers[0].met && workers[1].met);
    assert!(rt; last.met == 3);
    assert!(rt; net.asked == 3);
}

#[test]
fn links_and_workers_run_side_by_side(rt: HostRuntime) {
    serve_side_by_side(&rt);
}

// A net of one link at three places.
fn serve_until_none_comes<R: Abort + Threads + Wait + Sync>(rt: &R) {
    let meeting = Meeting::new(1);
    let mut net = Links { left: 1, asked: 0 };
    let mut seats = [Seat::Vacant; 3];
    let mut workers = [Worker { met: false }; 0];
    let mut last = Count { met: 0 };
    serve_with_workers(
        rt,
        &meeting,
        &mut net,
        seats.as_mut_slice(),
        &mut last,
        workers.as_mut_slice(),
    );
    assert!(rt; seats == [Seat::Met(0), Seat::Missed, Seat::Vacant]);
    assert!(rt; last.met == 1);
    assert!(rt; net.asked == 2);
}

#[test]
fn a_wait_in_vain_is_the_last(rt: HostRuntime) {
    serve_until_none_comes(&rt);
}

// No place at all, and a worker.
fn serve_nobody<R: Abort + Threads + Wait + Sync>(rt: &R) {
    let meeting = Meeting::new(1);
    let mut net = Links { left: 1, asked: 0 };
    let mut seats = [Seat::Vacant; 0];
    let mut workers = [Worker { met: false }; 1];
    let mut last = Count { met: 7 };
    serve_with_workers(
        rt,
        &meeting,
        &mut net,
        seats.as_mut_slice(),
        &mut last,
        workers.as_mut_slice(),
    );
    assert!(rt; workers[0].met);
    assert!(rt; last.met == 7);
    assert!(rt; net.asked == 0);
}

#[test]
fn without_a_place_the_net_is_not_asked(rt: HostRuntime) {
    serve_nobody(&rt);
}
