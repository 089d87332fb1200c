//! Tests of `rsocket_run` that no file of `runs` can say: reads and writes that fail or fall short,
//! inputs without an end, words that come from a system, a cut at every place, and frames of 16 MB.
//! They stand above the crate that they test, since a crate with tests is proved once more with them.
#![tactic(auto)]

#[cfg(test)]
mod cuts;
#[cfg(test)]
mod ended;
#[cfg(test)]
mod endless;
#[cfg(test)]
mod faults;
#[cfg(test)]
mod longest;
#[cfg(test)]
mod order;
#[cfg(test)]
mod words;
