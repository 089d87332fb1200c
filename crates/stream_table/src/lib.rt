//! The streams of an end that are open, by id (RSocket 1.0, "Stream Identifiers").
//!
//! A [`Table`] keeps a [`stream_model::Stream`] for each open stream, and beside them only the
//! highest id of each end: with it, an id that is not kept is known to be new or over. The promise
//! to the layer above: the state of every id follows from the streams that were started, the ids
//! that were skipped and the ways that were finished; never more streams are open than may be; and
//! a stream that is over leaves nothing in memory. Only [`Table::new`], [`Table::reserve`] and
//! [`Table::start`] take memory.
//!
//! It leaves out what is said on a stream: which message ends a way, and what credit an item uses.
#![tactic(auto)]

mod fault;
mod ids;
mod stream;
mod table;

pub use fault::TableFault;
pub use table::Table;
