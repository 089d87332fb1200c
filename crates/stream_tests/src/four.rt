//! The four interactions, with what is under way between the ends.

use super::play::{Row, play};
use super::step::{Act, Answer, Step};
use rs_wire::Side::{Client, Server};
use rs_wire::{Kind, Refusal, Way};
use stream_model::Effect;

const USED: Answer = Answer::Had(Effect::Used);

const THIRD_ITEM: &[Row] = &[
    (
        Client,
        Step::Does(Act::Request(Kind::Stream, 2, false)),
        Answer::Did(1),
    ),
    (Server, Step::Hears, USED),
    (
        Server,
        Step::TakesJob,
        Answer::Job(1, Kind::Stream, 2, false),
    ),
    (Server, Step::TakesJob, Answer::Nothing),
    (Server, Step::Does(Act::Next(1, false)), Answer::Did(1)),
    (Server, Step::Does(Act::Next(1, false)), Answer::Did(1)),
    (
        Server,
        Step::Does(Act::Next(1, false)),
        Answer::Refused(Refusal::NoCredit(2)),
    ),
    (
        Server,
        Step::TellsCredit(1, Way::Reply),
        Answer::Credit(Some((2, 0))),
    ),
    (Client, Step::Hears, USED),
    (Client, Step::Hears, USED),
    (Client, Step::Does(Act::Grant(1, 1)), Answer::Did(1)),
    (Server, Step::Hears, USED),
    (Server, Step::Does(Act::Next(1, false)), Answer::Did(1)),
    (Client, Step::Hears, USED),
    (
        Client,
        Step::TellsCredit(1, Way::Reply),
        Answer::Credit(Some((3, 0))),
    ),
];

#[test]
fn a_third_item_of_two_has_no_credit(rt: HostRuntime) {
    play(&rt, rt.alloc(), THIRD_ITEM);
}

const BOTH_WAYS: &[Row] = &[
    (
        Client,
        Step::Does(Act::Request(Kind::Channel, 2, false)),
        Answer::Did(1),
    ),
    (Client, Step::Does(Act::Done(1)), Answer::Did(1)),
    (Server, Step::Hears, USED),
    (Server, Step::Hears, USED),
    (Server, Step::Does(Act::Next(1, false)), Answer::Did(1)),
    (Server, Step::Does(Act::Done(1)), Answer::Did(1)),
    (
        Server,
        Step::Does(Act::Next(1, false)),
        Answer::Refused(Refusal::Ended),
    ),
    (Client, Step::Hears, USED),
    (Client, Step::Hears, USED),
    (Client, Step::Takes(1), Answer::Item(1)),
    (Client, Step::Takes(1), Answer::Complete),
    (Client, Step::Takes(1), Answer::Refused(Refusal::Ended)),
];

#[test]
fn a_channel_ends_with_both_of_its_ways(rt: HostRuntime) {
    play(&rt, rt.alloc(), BOTH_WAYS);
}

const CANCELED: &[Row] = &[
    (
        Client,
        Step::Does(Act::Request(Kind::Stream, 5, false)),
        Answer::Did(1),
    ),
    (Server, Step::Hears, USED),
    (Server, Step::Does(Act::Next(1, false)), Answer::Did(1)),
    (Server, Step::Does(Act::Next(1, false)), Answer::Did(1)),
    (Client, Step::Hears, USED),
    (Client, Step::Does(Act::Cancel(1)), Answer::Did(1)),
    (Client, Step::Hears, Answer::Had(Effect::Ignored)),
    (Client, Step::Takes(1), Answer::Refused(Refusal::Ended)),
    (Server, Step::Hears, USED),
    (Server, Step::Takes(1), Answer::Canceled),
    (Server, Step::Takes(1), Answer::Refused(Refusal::Ended)),
    (
        Server,
        Step::Does(Act::Next(1, false)),
        Answer::Refused(Refusal::Ended),
    ),
];

#[test]
fn cancel_drops_waiting_items(rt: HostRuntime) {
    play(&rt, rt.alloc(), CANCELED);
}

const ONE_PAYLOAD: &[Row] = &[
    (
        Client,
        Step::Does(Act::Request(Kind::Response, 0, false)),
        Answer::Did(1),
    ),
    (
        Client,
        Step::Does(Act::Grant(1, 1)),
        Answer::Refused(Refusal::WrongKind),
    ),
    (
        Client,
        Step::Does(Act::Next(1, true)),
        Answer::Refused(Refusal::WrongKind),
    ),
    (
        Client,
        Step::Does(Act::Cancel(9)),
        Answer::Refused(Refusal::UnknownStream),
    ),
    (Server, Step::Hears, USED),
    (Server, Step::Takes(1), Answer::Nothing),
    (Server, Step::Does(Act::Next(1, true)), Answer::Did(1)),
    (
        Server,
        Step::Does(Act::Next(1, true)),
        Answer::Refused(Refusal::Ended),
    ),
    (Client, Step::Takes(1), Answer::Nothing),
    (Client, Step::Hears, USED),
    (Client, Step::Takes(1), Answer::Item(1)),
    (Client, Step::Takes(1), Answer::Complete),
    (Client, Step::Takes(1), Answer::Refused(Refusal::Ended)),
];

#[test]
fn one_payload_answers_a_response(rt: HostRuntime) {
    play(&rt, rt.alloc(), ONE_PAYLOAD);
}

const ERROR: &[Row] = &[
    (
        Client,
        Step::Does(Act::Request(Kind::Response, 0, false)),
        Answer::Did(1),
    ),
    (Server, Step::Hears, USED),
    (Server, Step::Does(Act::Fail(1)), Answer::Did(1)),
    (Client, Step::Hears, USED),
    (Client, Step::Takes(1), Answer::Error(513, 2)),
    (Client, Step::Takes(1), Answer::Refused(Refusal::Ended)),
];

#[test]
fn an_error_ends_a_response(rt: HostRuntime) {
    play(&rt, rt.alloc(), ERROR);
}

const REQUEST_WAY: &[Row] = &[
    (
        Client,
        Step::Does(Act::Request(Kind::Channel, 1, false)),
        Answer::Did(1),
    ),
    (Server, Step::Hears, USED),
    (Server, Step::Does(Act::Cancel(1)), Answer::Did(1)),
    (Client, Step::Hears, USED),
    (Client, Step::Takes(1), Answer::Nothing),
    (
        Client,
        Step::Does(Act::Next(1, false)),
        Answer::Refused(Refusal::Ended),
    ),
    (Server, Step::Takes(1), Answer::Refused(Refusal::Ended)),
    (Server, Step::Does(Act::Next(1, false)), Answer::Did(1)),
];

#[test]
fn a_responder_cancels_the_request_way_alone(rt: HostRuntime) {
    play(&rt, rt.alloc(), REQUEST_WAY);
}

const GRANTS: &[Row] = &[
    (
        Client,
        Step::Does(Act::Request(Kind::Stream, 1, false)),
        Answer::Did(1),
    ),
    (
        Client,
        Step::Does(Act::Request(Kind::Channel, 1, false)),
        Answer::Did(3),
    ),
    (Server, Step::Hears, USED),
    (Server, Step::Hears, USED),
    (
        Server,
        Step::Does(Act::Grant(1, 1)),
        Answer::Refused(Refusal::WrongKind),
    ),
    (
        Client,
        Step::Does(Act::Next(3, false)),
        Answer::Refused(Refusal::NoCredit(0)),
    ),
    (Server, Step::Does(Act::Grant(3, 1)), Answer::Did(3)),
    (Client, Step::Hears, USED),
    (Client, Step::Does(Act::Next(3, false)), Answer::Did(3)),
    (
        Client,
        Step::TellsCredit(3, Way::Request),
        Answer::Credit(Some((1, 0))),
    ),
    (
        Client,
        Step::TellsCredit(1, Way::Request),
        Answer::Credit(None),
    ),
];

#[test]
fn a_responder_grants_on_a_channel_alone(rt: HostRuntime) {
    play(&rt, rt.alloc(), GRANTS);
}
