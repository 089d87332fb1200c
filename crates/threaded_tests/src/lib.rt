//! Trials of `threaded`: scripts with one outcome, whatever the schedule, and that the threads run at
//! one time; and large runs of the cable. They stand above the crates that they test, since a crate with
//! tests is proved once more with them.
#![tactic(auto)]

#[cfg(test)]
mod ends;
#[cfg(test)]
mod loads;
#[cfg(test)]
mod meeting;
#[cfg(test)]
mod rows;
