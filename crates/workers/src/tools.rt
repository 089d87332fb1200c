//! What a worker works with.

use crate::gate::Gate;
use conn::Connection;
use handlers::{Handler, Routes};
use std::alloc::Global;
use tape::Tape;

/// What stays the same over one call of a worker.
#[derive(Drop)]
pub struct Tools<'a, T: Tape, F: Handler, G: Gate> {
    /// Where memory comes from.
    pub(crate) alloc: Global,
    /// The connection whose jobs are served.
    pub(crate) connection: &'a Connection<T>,
    /// The routes, which find the handler of a job.
    pub(crate) routes: &'a Routes<F>,
    /// What is told of when handlers run.
    pub(crate) gate: &'a G,
    /// How many bytes the replies of one call may have before it ends, where there is a bound.
    pub(crate) most: Option<u64>,
}
