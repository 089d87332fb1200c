//! Jobs of each kind. Bytes that are drawn are frames, each after its length of three bytes.

use crate::trial::Move::{Comes, Draws, Grants, Has, Serves, ServesSome};
use crate::trial::Wanted::{Idle, More, Served, Stopped, Waiting};
use crate::trial::{Trial, play};
use rs_wire::Refusal;
use tape::Blank;

const TRIALS: &[Trial] = &[
    Trial {
        shows: "without a job a worker is idle",
        moves: &[Serves(Idle), Draws(b"")],
    },
    Trial {
        shows: "a request of no route is failed",
        moves: &[
            Comes(b"\x00\x00\x00\x01\x11\x00\x00\x00\x01xhi"),
            Serves(Served(1, 0)),
            Draws(b"\x00\x00\x12\x00\x00\x00\x01\x2c\x00\x00\x00\x02\x01no route"),
            Has(0),
            // the route is of another kind
            Comes(b"\x00\x00\x00\x03\x11\x00\x00\x00\x05counthi"),
            Serves(Served(3, 0)),
            Draws(b"\x00\x00\x12\x00\x00\x00\x03\x2c\x00\x00\x00\x02\x01no route"),
            // a fire-and-forget is not answered
            Comes(b"\x00\x00\x00\x05\x14\x00hi"),
            Serves(Served(5, 0)),
            Draws(b""),
            Serves(Idle),
        ],
    },
    Trial {
        shows: "a response is answered once",
        moves: &[
            Comes(b"\x00\x00\x00\x01\x11\x00\x00\x00\x04echohi"),
            Serves(Served(1, 1)),
            Draws(b"\x00\x00\x08\x00\x00\x00\x01\x28\x60hi"),
            Serves(Idle),
            // a law that finishes at once
            Comes(b"\x00\x00\x00\x03\x11\x00\x00\x00\x04nonehi"),
            Serves(Served(3, 0)),
            Draws(b"\x00\x00\x06\x00\x00\x00\x03\x28\x40"),
            // a fire-and-forget of a route, and pushed metadata
            Comes(b"\x00\x00\x00\x05\x15\x00\x00\x00\x04drophi"),
            Comes(b"\x00\x00\x00\x00\x31\x00hi"),
            Serves(Served(5, 0)),
            Serves(Served(0, 0)),
            Draws(b""),
        ],
    },
    Trial {
        shows: "a stream waits for credit and goes on",
        moves: &[
            Comes(b"\x00\x00\x00\x01\x19\x00\x00\x00\x00\x02\x00\x00\x05count3"),
            Serves(Waiting(1)),
            Draws(b"\x00\x00\x07\x00\x00\x00\x01\x28\x200\x00\x00\x07\x00\x00\x00\x01\x28\x201"),
            Serves(Idle),
            Has(1),
            Draws(b""),
            Comes(b"\x00\x00\x00\x01\x20\x00\x00\x00\x00\x01"),
            Serves(Served(1, 3)),
            Draws(b"\x00\x00\x07\x00\x00\x00\x01\x28\x202\x00\x00\x06\x00\x00\x00\x01\x28\x40"),
            Has(0),
            Serves(Idle),
        ],
    },
    Trial {
        shows: "jobs that can go on come before new ones",
        moves: &[
            Comes(b"\x00\x00\x00\x01\x19\x00\x00\x00\x00\x01\x00\x00\x05count2"),
            Comes(b"\x00\x00\x00\x03\x19\x00\x00\x00\x00\x01\x00\x00\x05count2"),
            Comes(b"\x00\x00\x00\x05\x11\x00\x00\x00\x04echohi"),
            Serves(Waiting(1)),
            Serves(Waiting(3)),
            Has(2),
            Comes(b"\x00\x00\x00\x03\x20\x00\x00\x00\x00\x01"),
            Serves(Served(3, 2)),
            Has(1),
            Serves(Served(5, 1)),
            Serves(Idle),
            // the requester ends the stream, so its next reply is refused, and the job is dropped
            Comes(b"\x00\x00\x00\x01\x24\x00"),
            Serves(Stopped(Refusal::Ended)),
            Has(0),
            Serves(Idle),
        ],
    },
    Trial {
        shows: "a channel is answered content by content",
        moves: &[
            Comes(b"\x00\x00\x00\x01\x1d\x00\x00\x00\x00\x02\x00\x00\x05upperab"),
            Serves(Waiting(1)),
            Draws(b"\x00\x00\x08\x00\x00\x00\x01\x28\x20AB"),
            Serves(Idle),
            Grants(1),
            Draws(b"\x00\x00\x0a\x00\x00\x00\x01\x20\x00\x00\x00\x00\x01"),
            Comes(b"\x00\x00\x00\x01\x28\x20cd"),
            Serves(Waiting(1)),
            Draws(b"\x00\x00\x08\x00\x00\x00\x01\x28\x20CD"),
            Grants(1),
            Draws(b"\x00\x00\x0a\x00\x00\x00\x01\x20\x00\x00\x00\x00\x01"),
            // the item that ends the request way finds no credit, and waits in the work
            Comes(b"\x00\x00\x00\x01\x28\x60ef"),
            Serves(Idle),
            Has(1),
            Comes(b"\x00\x00\x00\x01\x20\x00\x00\x00\x00\x01"),
            Serves(Served(1, 3)),
            Draws(b"\x00\x00\x08\x00\x00\x00\x01\x28\x20EF\x00\x00\x06\x00\x00\x00\x01\x28\x40"),
            Has(0),
        ],
    },
    Trial {
        shows: "a content without an item makes no reply",
        moves: &[
            // `a` is no number, so it counts no item, and C says that nothing follows
            Comes(b"\x00\x00\x00\x01\x1d\x40\x00\x00\x00\x02\x00\x00\x05firsta"),
            Serves(Served(1, 0)),
            Draws(b"\x00\x00\x06\x00\x00\x00\x01\x28\x40"),
            // `5` counts five items, of which the first is `0`
            Comes(b"\x00\x00\x00\x03\x1d\x40\x00\x00\x00\x02\x00\x00\x05first5"),
            Serves(Served(3, 1)),
            Draws(b"\x00\x00\x07\x00\x00\x00\x03\x28\x200\x00\x00\x06\x00\x00\x00\x03\x28\x40"),
            // a channel of no route
            Comes(b"\x00\x00\x00\x05\x1c\x00\x00\x00\x00\x02hi"),
            Serves(Served(5, 0)),
            Draws(b"\x00\x00\x12\x00\x00\x00\x05\x2c\x00\x00\x00\x02\x01no route"),
        ],
    },
    Trial {
        shows: "some bytes are served at a time",
        moves: &[
            Comes(b"\x00\x00\x00\x01\x19\x00\x00\x00\x00\x09\x00\x00\x05count3"),
            ServesSome(2, More(1)),
            Draws(b"\x00\x00\x07\x00\x00\x00\x01\x28\x200\x00\x00\x07\x00\x00\x00\x01\x28\x201"),
            Has(1),
            ServesSome(2, Served(1, 3)),
            Draws(b"\x00\x00\x07\x00\x00\x00\x01\x28\x202\x00\x00\x06\x00\x00\x00\x01\x28\x40"),
            ServesSome(2, Idle),
        ],
    },
];

#[test]
fn each_trial_goes_as_it_says(rt: HostRuntime) {
    for trial in TRIALS {
        play(&rt, rt.alloc(), Blank::new(), trial);
    }
}
