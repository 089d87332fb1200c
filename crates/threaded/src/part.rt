//! What a thread is told.

use cable_script::Script;
use rs_wire::Side;
use std::alloc::Global;

/// What a thread is told: the script, the end at which it acts, and where its memory comes from.
#[derive(Clone, Copy)]
pub(crate) struct Part<'e> {
    /// Where its memory comes from.
    pub(crate) alloc: Global,
    /// The end at which it acts.
    pub(crate) side: Side,
    /// The script.
    pub(crate) script: &'e Script,
}
