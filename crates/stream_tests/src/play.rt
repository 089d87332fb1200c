//! Plays a list of steps on the streams of two ends, and compares each answer.

use super::end::End;
use super::step::{Act, Answer, Said, Step};
use rs_wire::Side;
use std::alloc::Global;
use std::collections::VecDeque;
use std::process::Abort;

/// An end, a step at it, and the answer.
pub type Row = (Side, Step, Answer);

/// An end, and what the other one said that did not come yet.
#[derive(Drop)]
struct Place {
    end: End,
    under_way: VecDeque<Said>,
}

impl Place {
    fn new(rt: &impl Abort, alloc: Global, side: Side, max_streams: u32, last_id: u32) -> Place {
        Place {
            end: End::new(rt, alloc, side, max_streams, last_id),
            under_way: VecDeque::new(alloc),
        }
    }

    // A call acts. What it says is under way to the other end then.
    fn does(&mut self, rt: &impl Abort, alloc: Global, other: &mut Place, act: Act) -> Answer {
        let call = act.call(rt, alloc);
        let answer = self.end.act(rt, &call);
        drop(call);
        if let Answer::Did(stream) = answer {
            let said = act.said(stream);
            other
                .under_way
                .push_back(said)
                .expect(rt, "there is memory");
        }
        answer
    }

    fn hears(&mut self, rt: &impl Abort, alloc: Global, said: Said) -> Answer {
        Answer::Had(self.end.hear(rt, said.arrival(rt, alloc)))
    }

    // The answer to a step.
    fn answer(&mut self, rt: &impl Abort, alloc: Global, other: &mut Place, step: Step) -> Answer {
        match step {
            Step::Does(act) => self.does(rt, alloc, other, act),
            Step::Hears => {
                let said = self.under_way.pop_front().expect(rt, "it was said");
                self.hears(rt, alloc, said)
            }
            Step::Comes(said) => self.hears(rt, alloc, said),
            Step::Takes(stream) => self.end.take(rt, stream),
            Step::TakesJob => self.end.take_job(rt),
            Step::TellsState(stream) => Answer::State(self.end.streams.state(stream)),
            Step::TellsCredit(stream, way) => Answer::Credit(self.end.streams.credit(stream, way)),
        }
    }
}

// Plays the steps at these two ends.
fn play_at(rt: &impl Abort, alloc: Global, client: &mut Place, server: &mut Place, steps: &[Row]) {
    for (number, (side, step, expected)) in steps.iter().enumerate() {
        let given = match side {
            Side::Client => client.answer(rt, alloc, server, *step),
            Side::Server => server.answer(rt, alloc, client, *step),
        };
        assert!(rt;
            given == *expected,
            "step {number}, counted from 0, at the {side:?}"
        );
    }
}

/// Plays the steps one after another on a new client and a new server with the usual limits, or
/// with these: how many streams may be open, and the last id. Each step has the answer that stands
/// beside it.
pub fn play_within(rt: &impl Abort, alloc: Global, max_streams: u32, last_id: u32, steps: &[Row]) {
    let mut client = Place::new(rt, alloc, Side::Client, max_streams, last_id);
    let mut server = Place::new(rt, alloc, Side::Server, max_streams, last_id);
    play_at(rt, alloc, &mut client, &mut server, steps);
    drop(client);
    drop(server);
}

/// The same with room for 256 streams, and all ids.
pub fn play(rt: &impl Abort, alloc: Global, steps: &[Row]) {
    play_within(rt, alloc, 256, 2_147_483_647, steps);
}
