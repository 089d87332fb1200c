//! Tests of the crates of rules between the frames and the session, and of the handlers. They stand above
//! the crates that they test, since a crate with tests is proved once more with them.
#![tactic(auto)]

#[cfg(test)]
mod credits;
#[cfg(test)]
mod fragments;
#[cfg(test)]
mod handling;
#[cfg(test)]
mod joining;
#[cfg(test)]
mod leases;
#[cfg(test)]
mod links;
#[cfg(test)]
mod parts;
#[cfg(test)]
mod positions;
#[cfg(test)]
mod replays;
#[cfg(test)]
mod resumptions;
#[cfg(test)]
mod routes;
#[cfg(test)]
mod setups;
#[cfg(test)]
mod sources;
#[cfg(test)]
mod tables;
#[cfg(test)]
mod tapes;
#[cfg(test)]
mod timers;
