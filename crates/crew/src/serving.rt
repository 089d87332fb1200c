//! The links of a net, the workers beside them, and the last task.

ghost use Rattle.std.specs.Prelude.{List};
ghost use Rattle.std.specs.List.{AllByRecursion};
ghost use Rattle.std.specs.Thread.{IsSync, IsSend};
ghost use Rattle.crew.specs.Places.{AreServed, HoldsAfter, Pairwise};

use crate::finish::Finish;
use crate::links::serve_each;
use crate::place::Place;
use crate::task::Task;
use crate::tasks::run_each;
use std::sync::Wait;
use std::thread::{Threads, join_mut};

/// Serves the links of a net at these places, with the workers beside, and does the last task when
/// all links have ended, over the places as the links left them. It returns when the workers have
/// ended, too. Beside this thread there are at most as many as places and workers, and at least one.
pub fn serve_with_workers<
    S: Sync,
    N: Send,
    P: Place<N, S> + Send,
    F: Finish<P, S>,
    W: Task<S> + Send,
    R: Threads + Wait + Sync,
>(rt: &R, shared: &S, net: &mut N, places: &mut [P], last: &mut F, workers: &mut [W])
    requires places { AllByRecursion (P.vacant shared.now) places.old }
    // However the links leave the places, the last task may be done over them.
    requires last { HoldsAfter (P.accepted shared.now) (P.served shared.now) (P.missed shared.now)
        net.old places.old (F.ready shared.now last.old) }
    requires workers { AllByRecursion (W.ready shared.now) workers.old }
    // The places are as the links left them, and then as the last task did.
    ensures places { (left : List P)
        × AreServed (P.accepted shared.now) (P.served shared.now) (P.missed shared.now)
        net.old net.new places.old left
        × F.done shared.now last.old left last.new places.new }
    ensures workers { Pairwise (W.done shared.now) workers.old workers.new }
{
    let mut beside = ||
        requires { IsSync R.row × IsSync S.row × IsSend W.row
            × AllByRecursion (W.ready shared.now) workers.now }
        ensures { Pairwise (W.done shared.entry.now) workers.entry.now workers.exit.now }
    { run_each(rt, shared, workers) };
    let mut here = ||
        requires { IsSync R.row × IsSync S.row × IsSend N.row × IsSend P.row
            × AllByRecursion (P.vacant shared.now) places.now
            × HoldsAfter (P.accepted shared.now) (P.served shared.now) (P.missed shared.now)
            net.now places.now (F.ready shared.now last.now) }
        ensures { (left : List P)
            × AreServed (P.accepted shared.entry.now) (P.served shared.entry.now) (P.missed shared.entry.now)
            net.entry.now net.exit.now places.entry.now left
            × F.done shared.entry.now last.entry.now left last.exit.now places.exit.now }
    {
        serve_each(rt, shared, net, places);
        last.finish(rt, shared, places);
    };
    join_mut(rt, &mut beside, &mut here);
}
