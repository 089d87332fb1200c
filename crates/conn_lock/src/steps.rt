//! The rule, and the kinds of step that a seat takes on the words of the lock.
//!
//! Each kind says what the seat that takes it learns. `specs/Rule.antt` has the definitions.

ghost use Rattle.std.specs.Prelude.{IsSome};
ghost use Rattle.conn_lock.specs.Rule.{Kept, first_view, slot_list};

use crate::stands::Stands;
use crate::view::View;
use atomic_table::{Join, Play, Split, TableRule};
use std::marker::PhantomData;
use std::snapshot::Snapshot;

/// The rule of a lock round a value of type S.
pub struct Rules<S> {
    marker: PhantomData<S>,
}

impl<S: Stands> TableRule<Option<S>, View<S::Entry>, Snapshot<S>> for Rules<S> {
    ghost holds = { λ _ state. Kept (slot_list S.list) IsSome S.number state };

    ghost first = { λ start. first_view (S.list start.value) };
}

/// Passes on to the next ticket. The value comes home to the slot, and the turn is over.
pub struct Pass;

impl<S: Stands> Play<Option<S>, View<S::Entry>> for Pass {
    ghost use Rattle.conn_lock.specs.Rule.{passed};

    ghost then = { passed (slot_list S.list) };
}

/// Looks at the ticket that is served, and notes it.
pub struct Note;

impl<S: Stands> Play<Option<S>, View<S::Entry>> for Note {
    ghost use Rattle.conn_lock.specs.Rule.{noted};

    ghost then = { noted };
}

/// Draws the noted ticket, by an exchange of the ticket word that is tried again. Where it succeeds the
/// ticket is served already, so the turn begins at once, and the value leaves the slot with it.
pub struct Win;

impl<S: Stands> Play<Option<S>, View<S::Entry>> for Win {
    ghost use Rattle.conn_lock.specs.Rule.{won};

    ghost then = { won (slot_list S.list) IsSome S.number };
}

/// The same, by an exchange that is tried once: where it fails the seat has missed.
pub struct Grab;

impl<S: Stands> Play<Option<S>, View<S::Entry>> for Grab {
    ghost use Rattle.conn_lock.specs.Rule.{grabbed};

    ghost then = { grabbed (slot_list S.list) IsSome S.number };
}

/// Looks how many numbers were drawn.
pub struct Count;

impl<S: Stands> Play<Option<S>, View<S::Entry>> for Count {
    ghost use Rattle.conn_lock.specs.Rule.{counted};

    ghost then = { counted };
}

/// Draws the next number, by an exchange of the word of numbers.
pub struct Name;

impl<S: Stands> Play<Option<S>, View<S::Entry>> for Name {
    ghost use Rattle.conn_lock.specs.Rule.{named};

    ghost then = { named S.number };
}

/// Shows a seat what follows from a join, by a look at any word.
pub struct Tell;

impl<S: Stands> Play<Option<S>, View<S::Entry>> for Tell {
    ghost use Rattle.conn_lock.specs.Rule.{told};

    ghost then = { told S.number };
}

/// Hands the number that was drawn last, and a share of the parts, to a new seat.
pub struct Share;

impl<E> Split<View<E>> for Share {
    ghost use Rattle.conn_lock.specs.Rule.{left, right};

    ghost left = { left };

    ghost right = { right };
}

/// Takes in the names and parts of another seat, and keeps the longer front.
pub struct Both;

impl<E> Join<View<E>> for Both {
    ghost use Rattle.conn_lock.specs.Rule.{both, spent};

    ghost both = { both };

    ghost spent = { spent };
}
