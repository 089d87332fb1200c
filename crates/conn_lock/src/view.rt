//! What a seat knows.

use std::collections::LinkedList;

/// What a seat knows of the lock. It stands in contracts and proofs alone: no value of it is made,
/// and a seat has no byte of it.
pub struct View<E> {
    /// The number of its caller, and the numbers of those that were joined into it.
    pub names: LinkedList<u64>,
    /// How many of the 2^62 parts of the lock it has.
    pub parts: u64,
    /// The ticket that it has drawn and not passed on: one or none.
    pub tickets: LinkedList<u64>,
    /// Whether the turn of that ticket has begun.
    pub turn: bool,
    /// The list as far as it has seen it.
    pub front: LinkedList<E>,
    /// The greatest count of numbers that it has found in the word.
    pub found: u64,
    /// The ticket that was served when it looked last, until it draws a ticket or misses one.
    pub note: Option<u64>,
    /// How often a try found that the ticket word was not the noted one.
    pub misses: u64,
    /// The shorter of two fronts that were joined, until it is known to be a prefix of the longer.
    pub shorter: LinkedList<E>,
    /// The names of the seat that had the shorter front.
    pub lesser: LinkedList<u64>,
}
