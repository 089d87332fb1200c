//! Lists of steps at two ends whose answers were worked out by hand from the standard. That the
//! streams answer as the definitions say is proved in `interactions`; these lists show that the
//! definitions say what is meant. They stand above it, since a crate with tests is proved once more
//! with them.
#![tactic(auto)]

#[cfg(test)]
mod end;
#[cfg(test)]
mod four;
#[cfg(test)]
mod limits;
#[cfg(test)]
mod play;
#[cfg(test)]
mod readings;
#[cfg(test)]
mod step;
