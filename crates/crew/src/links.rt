//! A thread for each link of a net.

ghost use Rattle.std.specs.List.{AllByRecursion};
ghost use Rattle.std.specs.Thread.{IsSync, IsSend};
ghost use Rattle.crew.specs.Places.{AreServed};

use crate::place::Place;
use std::sync::Wait;
use std::thread::{Threads, join_mut};

// The first link in this thread, the next ones from another, or after it.
#[cycle(serve)]
fn serve_apart<S: Sync, N: Send, P: Place<N, S> + Send, R: Threads + Wait + Sync>(
    rt: &R,
    shared: &S,
    first: &mut P,
    net: &mut N,
    rest: &mut [P],
)
    requires first { (p : P) × P.arrived shared.now p first.old }
    requires rest { AllByRecursion (P.vacant shared.now) rest.old }
    ensures first { (p : P) → P.arrived shared.now p first.old → P.served shared.now p first.new }
    ensures rest { AreServed (P.accepted shared.now) (P.served shared.now) (P.missed shared.now)
        net.old net.new rest.old rest.new }
{
    if rest.is_empty() {
        first.serve(rt, shared);
        return;
    }
    let mut others = ||
        requires { IsSync R.row × IsSync S.row × IsSend N.row × IsSend P.row
            × AllByRecursion (P.vacant shared.now) rest.now }
        ensures { AreServed (P.accepted shared.entry.now) (P.served shared.entry.now) (P.missed shared.entry.now)
            net.entry.now net.exit.now rest.entry.now rest.exit.now }
    { serve_each(rt, shared, net, rest) };
    let mut mine = ||
        requires { (p : P) × P.arrived shared.now p first.now }
        ensures { (p : P) → P.arrived shared.entry.now p first.entry.now
            → P.served shared.entry.now p first.exit.now }
    { first.serve(rt, shared) };
    join_mut(rt, &mut others, &mut mine);
}

/// Serves the links of a net at these places, from the first on, each in a thread of its own where
/// one can be made: the first link in this thread, while another thread waits for the next. Nothing
/// is accepted after a wait in vain, and the places after that one are left as they were.
#[cycle(serve)]
pub fn serve_each<S: Sync, N: Send, P: Place<N, S> + Send, R: Threads + Wait + Sync>(
    rt: &R,
    shared: &S,
    net: &mut N,
    places: &mut [P],
)
    requires { AllByRecursion (P.vacant shared.now) places.old }
    ensures { AreServed (P.accepted shared.now) (P.served shared.now) (P.missed shared.now)
        net.old net.new places.old places.new }
{
    let Some((first, rest)) = places.split_first_mut() else {
        return;
    };
    if first.accept(net, shared) {
        serve_apart(rt, shared, first, net, rest);
    }
}
