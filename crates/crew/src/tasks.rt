//! A thread for each of some tasks.

ghost use Rattle.std.specs.List.{AllByRecursion};
ghost use Rattle.std.specs.Thread.{IsSync, IsSend};
ghost use Rattle.crew.specs.Places.{Pairwise};

use crate::task::Task;
use std::sync::Wait;
use std::thread::{Threads, join_mut};

// The first in this thread, the rest in another, or after it.
#[cycle(each)]
fn run_apart<S: Sync, T: Task<S> + Send, R: Threads + Wait + Sync>(
    rt: &R,
    shared: &S,
    first: &mut T,
    rest: &mut [T],
)
    requires first { T.ready shared.now first.old }
    requires rest { AllByRecursion (T.ready shared.now) rest.old }
    ensures first { T.done shared.now first.old first.new }
    ensures rest { Pairwise (T.done shared.now) rest.old rest.new }
{
    if rest.is_empty() {
        first.run(rt, shared);
        return;
    }
    let mut others = ||
        requires { IsSync R.row × IsSync S.row × IsSend T.row
            × AllByRecursion (T.ready shared.now) rest.now }
        ensures { Pairwise (T.done shared.entry.now) rest.entry.now rest.exit.now }
    { run_each(rt, shared, rest) };
    let mut mine = ||
        requires { T.ready shared.now first.now }
        ensures { T.done shared.entry.now first.entry.now first.exit.now }
    { first.run(rt, shared) };
    join_mut(rt, &mut others, &mut mine);
}

/// Does each of the tasks once, in a thread of its own where one can be made.
#[cycle(each)]
pub fn run_each<S: Sync, T: Task<S> + Send, R: Threads + Wait + Sync>(
    rt: &R,
    shared: &S,
    tasks: &mut [T],
)
    requires { AllByRecursion (T.ready shared.now) tasks.old }
    ensures { Pairwise (T.done shared.now) tasks.old tasks.new }
{
    let Some((first, rest)) = tasks.split_first_mut() else {
        return;
    };
    run_apart(rt, shared, first, rest);
}
