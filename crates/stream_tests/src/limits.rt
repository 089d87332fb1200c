//! Limits, and many steps.

use super::end::End;
use super::play::{Row, play_within};
use super::step::{Act, Answer, Said, Step};
use rs_wire::Side::{Client, Server};
use rs_wire::{Kind, Refusal, Rule, Way};
use std::alloc::Global;
use std::process::Abort;
use stream_model::{Effect, State};

const USED: Answer = Answer::Had(Effect::Used);

const STREAM: Step = Step::Does(Act::Request(Kind::Stream, 1, false));

const REFUSED: &[Row] = &[
    (Client, STREAM, Answer::Did(1)),
    (Client, STREAM, Answer::Refused(Refusal::TooManyStreams(1))),
    (
        Client,
        Step::Does(Act::Request(Kind::Fnf, 0, false)),
        Answer::Did(3),
    ),
    (Client, Step::Does(Act::Cancel(1)), Answer::Did(1)),
    (Client, STREAM, Answer::Did(5)),
    (Client, STREAM, Answer::Refused(Refusal::IdsGone)),
    (Server, STREAM, Answer::Did(2)),
    (Server, Step::Does(Act::Cancel(2)), Answer::Did(2)),
    (Server, STREAM, Answer::Did(4)),
    (Server, Step::Does(Act::Cancel(4)), Answer::Did(4)),
    (Server, STREAM, Answer::Refused(Refusal::IdsGone)),
];

#[test]
fn a_refused_request_uses_no_id(rt: HostRuntime) {
    play_within(&rt, rt.alloc(), 1, 5, REFUSED);
}

const PASSED_OVER: &[Row] = &[
    (
        Server,
        Step::Comes(Said::Over(3)),
        Answer::Had(Effect::Ignored),
    ),
    (
        Server,
        Step::Comes(Said::Request(3, Kind::Response, 0, Some(false))),
        Answer::Had(Effect::Broken(Rule::StreamId(3))),
    ),
    (
        Server,
        Step::Comes(Said::Over(2)),
        Answer::Had(Effect::Broken(Rule::StreamId(2))),
    ),
    (Server, Step::TellsState(3), Answer::State(State::Over)),
    (
        Server,
        Step::Comes(Said::Message(3, false, true)),
        Answer::Had(Effect::Ignored),
    ),
    (Server, Step::TakesJob, Answer::Nothing),
    (
        Server,
        Step::Comes(Said::Request(5, Kind::Response, 0, Some(false))),
        USED,
    ),
];

#[test]
fn a_request_that_is_passed_over_uses_its_id_alone(rt: HostRuntime) {
    play_within(&rt, rt.alloc(), 1, 9, PASSED_OVER);
}

const PUSHED: &[Row] = &[
    (Server, Step::Comes(Said::Push), USED),
    (
        Server,
        Step::Comes(Said::Request(1, Kind::Fnf, 0, Some(false))),
        USED,
    ),
    (Server, Step::Comes(Said::Push), USED),
    (Server, Step::TakesJob, Answer::Pushed(1)),
    (Server, Step::TakesJob, Answer::Job(1, Kind::Fnf, 0, false)),
    (Server, Step::TakesJob, Answer::Pushed(1)),
    (Server, Step::TakesJob, Answer::Nothing),
];

#[test]
fn pushed_metadata_waits_among_the_jobs(rt: HostRuntime) {
    play_within(&rt, rt.alloc(), 1, 9, PUSHED);
}

const WHOLE_FNF: &[Row] = &[
    (
        Server,
        Step::Comes(Said::Request(1, Kind::Response, 0, Some(false))),
        USED,
    ),
    (
        Server,
        Step::Comes(Said::Request(3, Kind::Response, 0, Some(false))),
        Answer::Had(Effect::TooMany),
    ),
    (
        Server,
        Step::Comes(Said::Request(5, Kind::Fnf, 0, None)),
        Answer::Had(Effect::Ignored),
    ),
    (
        Server,
        Step::Comes(Said::Request(7, Kind::Fnf, 0, Some(false))),
        USED,
    ),
    (
        Server,
        Step::TakesJob,
        Answer::Job(1, Kind::Response, 0, false),
    ),
    (Server, Step::TakesJob, Answer::Job(7, Kind::Fnf, 0, false)),
    (Server, Step::TakesJob, Answer::Nothing),
];

#[test]
fn a_whole_fire_and_forget_finds_its_place(rt: HostRuntime) {
    play_within(&rt, rt.alloc(), 1, 9, WHOLE_FNF);
}

const NOT_GRANTED: &[Row] = &[
    (
        Client,
        Step::Does(Act::Request(Kind::Stream, 1, false)),
        Answer::Did(1),
    ),
    (Client, Step::Comes(Said::Message(1, false, true)), USED),
    (
        Client,
        Step::Comes(Said::Message(1, true, true)),
        Answer::Had(Effect::Broken(Rule::OverCredit(1))),
    ),
    (Client, Step::Comes(Said::Message(1, false, false)), USED),
    (Client, Step::Takes(1), Answer::Item(1)),
    (Client, Step::Takes(1), Answer::Nothing),
    (Client, Step::Comes(Said::Message(1, true, false)), USED),
    (Client, Step::Takes(1), Answer::Complete),
];

#[test]
fn an_item_that_was_not_granted_changes_nothing(rt: HostRuntime) {
    play_within(&rt, rt.alloc(), 1, 9, NOT_GRANTED);
}

// A call acts at an end, or is refused.
fn does(rt: &impl Abort, alloc: Global, end: &mut End, act: Act) -> Answer {
    let call = act.call(rt, alloc);
    let answer = end.act(rt, &call);
    drop(call);
    answer
}

#[test]
fn the_largest_grants_add_up(rt: HostRuntime) {
    let alloc = rt.alloc();
    let most = 2_147_483_647;
    let mut end = End::new(&rt, alloc, Client, 1, 9);
    does(
        &rt,
        alloc,
        &mut end,
        Act::Request(Kind::Stream, most, false),
    );
    for _ in 0..1_000 {
        does(&rt, alloc, &mut end, Act::Grant(1, most));
    }
    let credit = end.streams.credit(1, Way::Reply);
    drop(end);
    let granted = 2_149_631_130_647;
    assert!(rt; credit == Some((granted, granted)));
}

// A response from its request to its last delivery.
fn respond(rt: &impl Abort, alloc: Global, end: &mut End, stream: u32) {
    let did = does(rt, alloc, end, Act::Request(Kind::Response, 0, false));
    assert!(rt; did == Answer::Did(stream));
    end.hear(rt, Said::Message(stream, true, true).arrival(rt, alloc));
    assert!(rt; end.take(rt, stream) == Answer::Item(1));
    assert!(rt; end.take(rt, stream) == Answer::Complete);
}

#[test]
fn many_short_streams_leave_nothing(rt: HostRuntime) {
    let mut end = End::new(&rt, rt.alloc(), Client, 1, 2_147_483_647);
    for n in 0..100_000_u32 {
        respond(&rt, rt.alloc(), &mut end, 2 * n + 1);
    }
    let live = end.streams.live();
    let highest = end.streams.highest(Client);
    let next = end.streams.next_id();
    drop(end);
    assert!(rt; live == 0 && highest == 199_999 && next == Some(200_001));
}
