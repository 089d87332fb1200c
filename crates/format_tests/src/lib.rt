//! Tests of plain values, of bytes that wait, of frames as bytes and as lines, of captures, and of the
//! metadata of requests. They stand above the crates that they test, since a crate with tests is proved
//! once more with them.
#![tactic(auto)]

#[cfg(test)]
mod captures;
#[cfg(test)]
mod chunks;
#[cfg(test)]
mod frames;
#[cfg(test)]
mod lines;
#[cfg(test)]
mod metadata;
#[cfg(test)]
mod queues;
#[cfg(test)]
mod values;
#[cfg(test)]
mod words;
