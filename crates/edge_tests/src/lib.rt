//! Trials of the crates at the edge of a server: links over the loopback, the table of tokens, the
//! rings between threads, and links that are served at places, with workers beside and a last task over
//! the places.
//!
//! They are in a crate of their own, so that what they try is not proved again for them. That each
//! call of a link is counted as it answers, that a token stands for one slot, and that what is read
//! of a ring is a prefix of what was pushed is proved, and what each place is left as; the trials show that
//! bytes and items come, that the work is done side by side, and that a net is asked as often as there are
//! places, or once more than it has links.
#![tactic(auto)]

/// How many bytes two ends answer each other with.
pub const PIECE: usize = 32;

#[cfg(test)]
mod crews;
#[cfg(test)]
mod meeting;
#[cfg(test)]
mod rings;
#[cfg(test)]
mod tcp;
#[cfg(test)]
mod tokens;
