//! A job that is not finished.

use rs_wire::{Blob, Kind, Message};

/// Which content of a channel is to be answered next. A job of another kind has its request alone.
#[derive(Debug, Drop)]
pub enum Stage {
    /// That of the request.
    Request,
    /// One that was taken.
    Taken(Blob),
    /// All that was taken is answered: the next one is to be taken.
    Answered,
    /// All is answered, and nothing more comes.
    Over,
}

/// A job that is not finished.
#[derive(Debug, Drop)]
pub struct OpenJob {
    /// The stream of its replies.
    pub(crate) stream: u32,
    /// The interaction that the stream carries.
    pub(crate) kind: Kind,
    /// What the request carries.
    pub(crate) message: Message,
    /// The route of the request, where there is one.
    pub(crate) route: Option<u32>,
    /// How many replies were accepted.
    pub(crate) made: u64,
    /// What is to be answered next.
    pub(crate) stage: Stage,
}
