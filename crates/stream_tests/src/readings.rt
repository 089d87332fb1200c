//! Where the standard leaves room: what this end does.

use super::play::{Row, play, play_within};
use super::step::{Act, Answer, Said, Step};
use rs_wire::Side::{Client, Server};
use rs_wire::{Kind, Refusal, Rule, Way};
use stream_model::{Effect, State};

const USED: Answer = Answer::Had(Effect::Used);

const IGNORED: Answer = Answer::Had(Effect::Ignored);

const ENDED: Answer = Answer::Refused(Refusal::Ended);

const WRONG_KIND: Answer = Answer::Refused(Refusal::WrongKind);

#[test]
fn what_waits_after_the_peers_end_stays(rt: HostRuntime) {
    for act in [Act::Cancel(1), Act::Fail(1)] {
        play(
            &rt,
            rt.alloc(),
            &[
                (
                    Client,
                    Step::Does(Act::Request(Kind::Channel, 2, false)),
                    Answer::Did(1),
                ),
                (Server, Step::Hears, USED),
                (Server, Step::Does(Act::Next(1, true)), Answer::Did(1)),
                (Client, Step::Hears, USED),
                (Client, Step::Does(act), Answer::Did(1)),
                (Client, Step::Takes(1), Answer::Item(1)),
                (Client, Step::Takes(1), Answer::Complete),
                (Client, Step::Takes(1), ENDED),
            ],
        );
    }
}

const FNF_IN_FRAGMENTS: &[Row] = &[
    (
        Server,
        Step::Comes(Said::Request(1, Kind::Fnf, 0, None)),
        USED,
    ),
    (Server, Step::Does(Act::Next(1, false)), WRONG_KIND),
    (Server, Step::Does(Act::Done(1)), WRONG_KIND),
    (Server, Step::Does(Act::Grant(1, 1)), WRONG_KIND),
    (Server, Step::Does(Act::Cancel(1)), WRONG_KIND),
    (Server, Step::Takes(1), WRONG_KIND),
    (Server, Step::Does(Act::Fail(1)), Answer::Did(1)),
    (Server, Step::Comes(Said::Message(1, false, false)), IGNORED),
    (Server, Step::TakesJob, Answer::Nothing),
    (Server, Step::Does(Act::Next(1, false)), ENDED),
    (Server, Step::Takes(1), ENDED),
];

#[test]
fn a_fire_and_forget_in_fragments_can_be_failed_alone(rt: HostRuntime) {
    play(&rt, rt.alloc(), FNF_IN_FRAGMENTS);
}

const NO_WAY: &[Row] = &[
    (
        Client,
        Step::Does(Act::Request(Kind::Stream, 1, false)),
        Answer::Did(1),
    ),
    (
        Client,
        Step::Does(Act::Request(Kind::Response, 0, false)),
        Answer::Did(3),
    ),
    (
        Client,
        Step::Does(Act::Request(Kind::Fnf, 0, false)),
        Answer::Did(5),
    ),
    (Client, Step::Comes(Said::Cancel(1)), USED),
    (Client, Step::Comes(Said::Cancel(3)), USED),
    (Client, Step::Comes(Said::Cancel(5)), IGNORED),
    (Client, Step::Comes(Said::Grant(3, 1)), USED),
    (
        Client,
        Step::TellsCredit(1, Way::Reply),
        Answer::Credit(Some((1, 1))),
    ),
    (Server, Step::Hears, USED),
    (Server, Step::Hears, USED),
    (Server, Step::Comes(Said::Grant(3, 1)), USED),
    (
        Server,
        Step::TellsCredit(3, Way::Reply),
        Answer::Credit(None),
    ),
    (Server, Step::Does(Act::Next(1, true)), Answer::Did(1)),
    (Client, Step::Hears, USED),
    (Client, Step::Takes(1), Answer::Item(1)),
    (Client, Step::Comes(Said::Message(1, false, true)), IGNORED),
    (Client, Step::Comes(Said::Cancel(7)), IGNORED),
];

#[test]
fn a_frame_on_a_way_that_is_not_there_changes_nothing(rt: HostRuntime) {
    play(&rt, rt.alloc(), NO_WAY);
}

const NO_FLAGS: &[Row] = &[
    (
        Client,
        Step::Does(Act::Request(Kind::Response, 0, false)),
        Answer::Did(1),
    ),
    (Client, Step::Comes(Said::Message(1, false, false)), USED),
    (Client, Step::Takes(1), Answer::Complete),
    (Client, Step::Takes(1), ENDED),
];

#[test]
fn a_message_without_flags_ends_a_response(rt: HostRuntime) {
    play(&rt, rt.alloc(), NO_FLAGS);
}

const COMPLETE_REQUEST: &[Row] = &[
    (
        Client,
        Step::Does(Act::Request(Kind::Channel, 1, true)),
        Answer::Did(1),
    ),
    (Client, Step::Does(Act::Next(1, false)), ENDED),
    (Server, Step::Hears, USED),
    (
        Server,
        Step::TakesJob,
        Answer::Job(1, Kind::Channel, 1, true),
    ),
    (Server, Step::Takes(1), Answer::Complete),
    (Server, Step::Takes(1), ENDED),
    (Server, Step::Does(Act::Next(1, true)), Answer::Did(1)),
    (Server, Step::TellsState(1), Answer::State(State::Over)),
];

#[test]
fn a_request_may_complete_a_channel(rt: HostRuntime) {
    play(&rt, rt.alloc(), COMPLETE_REQUEST);
}

const ONE_JOB: &[Row] = &[
    (
        Server,
        Step::Comes(Said::Request(1, Kind::Response, 0, None)),
        USED,
    ),
    (
        Server,
        Step::Comes(Said::Request(3, Kind::Channel, 2, None)),
        USED,
    ),
    (Server, Step::TakesJob, Answer::Nothing),
    (Server, Step::Comes(Said::Message(3, true, false)), USED),
    (Server, Step::Comes(Said::Message(1, true, false)), USED),
    (
        Server,
        Step::TakesJob,
        Answer::Job(3, Kind::Channel, 2, true),
    ),
    (
        Server,
        Step::TakesJob,
        Answer::Job(1, Kind::Response, 0, true),
    ),
    (Server, Step::Takes(3), Answer::Complete),
    (Server, Step::Does(Act::Next(1, true)), Answer::Did(1)),
];

#[test]
fn a_request_in_fragments_is_one_job(rt: HostRuntime) {
    play(&rt, rt.alloc(), ONE_JOB);
}

const OVER_ID: &[Row] = &[
    (Server, Step::TellsState(3), Answer::State(State::Above)),
    (
        Server,
        Step::Comes(Said::Request(3, Kind::Stream, 1, Some(false))),
        USED,
    ),
    (Server, Step::TellsState(1), Answer::State(State::Over)),
    (
        Server,
        Step::Comes(Said::Request(5, Kind::Stream, 1, Some(false))),
        Answer::Had(Effect::TooMany),
    ),
    (Server, Step::TellsState(5), Answer::State(State::Over)),
    (Server, Step::Does(Act::Next(5, false)), ENDED),
    (Server, Step::Takes(1), ENDED),
    (Server, Step::Comes(Said::Message(5, false, true)), IGNORED),
    (
        Server,
        Step::Comes(Said::Request(5, Kind::Fnf, 0, Some(false))),
        Answer::Had(Effect::Broken(Rule::StreamId(5))),
    ),
    (
        Server,
        Step::Comes(Said::Request(6, Kind::Fnf, 0, Some(false))),
        Answer::Had(Effect::Broken(Rule::StreamId(6))),
    ),
];

#[test]
fn an_id_that_was_passed_over_is_over(rt: HostRuntime) {
    play_within(&rt, rt.alloc(), 1, 9, OVER_ID);
}
