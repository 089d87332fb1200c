//! RSocket 1.0 by one name: what a program uses that opens sessions, asks and answers.
//!
//! An [`Endpoint`] is one end of a session with the bytes that came on its connection. It does no
//! input and no output, reads no clock and starts no thread: a program feeds it the bytes of a
//! socket, a file or a buffer, hands it the moments of a clock, and carries off what goes out.
//!
//! 1. [`client`] and [`server`] make an end with the defaults of its side; [`Endpoint::new`] one
//!    with other settings, or with a tape that keeps all that happens.
//! 2. A client connects, and asks by a call: [`request_response`], [`request_stream`],
//!    [`request_channel`] or [`fire_and_forget`], then [`next`], [`complete`], [`request_n`],
//!    [`cancel`], [`error`]; what came is taken by [`take`] and [`take_job`].
//! 3. What goes out is drawn, and given to the peer.
//! 4. What the peer gives is fed, and brought frame by frame.
//!
//! A loop around it: feed what came, bring all, ask what is to be asked, draw until nothing goes out,
//! tick when the moment of [`Endpoint::next_due`] has come, and connect again after a cut where
//! resumption is agreed.
//!
//! What each end has handled is a prefix of what the other made, wherever connections are cut, over
//! every resumption: that holds of any two ends whose bytes arrive unchanged and in order on each
//! connection. Not here are sockets, threads, timers, routing by metadata, and many callers on one
//! connection, which `conn` has.
#![tactic(auto)]

mod calls;
mod coming;
mod endpoint;
mod fault;
mod making;

pub use calls::{
    cancel, complete, error, fire_and_forget, next, next_last, request_channel, request_n,
    request_response, request_stream, take, take_job,
};
pub use endpoint::{CALLER, Endpoint};
pub use fault::EndFault;
pub use handlers::{Handler, Law, Produced, Routes, Stored};
pub use making::{client, server, usual};
pub use rs_frame::{Frame, FrameFault, decode};
pub use rs_wire::{
    Amount, Blob, Call, Checked, Delivery, Job, Kind, Message, OutOfMemory, Settings, Side, check,
};
pub use session_core::{Session, refusal_frame};
pub use tape::{Answer, Blank, Event, Kept, Tape};
