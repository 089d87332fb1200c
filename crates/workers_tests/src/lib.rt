//! Trials of `workers` through its public functions, at a server to which frames come.
#![tactic(auto)]

#[cfg(test)]
mod counting;
#[cfg(test)]
mod crossing;
#[cfg(test)]
mod rows;
#[cfg(test)]
mod trial;
