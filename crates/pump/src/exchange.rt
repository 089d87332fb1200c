//! Bytes between a pump and its link.

ghost use Rattle.std.specs.Prelude.{◌≡◌, ◌≤◌, ◌⊎◌, List, [], length, true};
ghost use Rattle.rs_wire.specs.declared.settings.Settings.{Settings};
ghost use Rattle.tape.specs.declared.entry.Entry.{Entry};
ghost use Rattle.outside.specs.Links.{NoneFell};
ghost use Rattle.link_model.specs.Carrying.{Keeps};
ghost use Rattle.pump.specs.Moves.{HasGave, HasTook, IsFew, all_of, took_by};
ghost use Rattle.pump.specs.Turns.{HasWaiting, has};

use crate::incoming::Took;
use crate::inner::Inner;
use crate::outgoing::Gave;
use outside::{Link, Taken};

fn took_by(taken: Taken) -> Took
    requires few { IsFew taken }
    ensures { result ≡ took_by taken }
{
    match taken {
        Taken::Took(count) => Took::Count(count as u32),
        Taken::Lull => Took::Lull,
        Taken::End => Took::End,
        Taken::Failed => Took::Failed,
    }
}

impl Inner {
    /// Gives the link what it takes of the bytes left, where there are any.
    pub(crate) fn give_some<L: Link>(&mut self, link: &mut L) -> Gave
        ensures kept { (g : Settings) (past : List Entry) →
            Keeps g past (L.shown link.old) (has self.old) →
            Keeps g past (L.shown link.new) (has self.new) }
        ensures gave { HasGave (L.shown link.old) (L.shown link.new) result }
        ensures nothing { result ≡ Gave.Nothing → self.old.outgoing ≡ [] }
        ensures taken { (L.shown link.new).taken ≡ (L.shown link.old).taken }
        ensures counted { NoneFell (L.shown link.old).counts (L.shown link.new).counts }
        ensures rest { self.new ≡ record self.old { outgoing = self.new.outgoing } }
    {
        self.outgoing.give(link)
    }

    /// Takes from the link, which has not failed, where nothing stands in front.
    pub(crate) fn take_some<L: Link>(&mut self, link: &mut L, gave: Gave) -> Took
        ensures kept { (g : Settings) (past : List Entry) →
            Keeps g past (L.shown link.old) (has self.old) →
            Keeps g past (L.shown link.new) (has self.new) }
        ensures took { HasTook (L.shown link.old) (L.shown link.new) result }
        ensures nothing { result ≡ Took.Nothing →
            (gave ≡ Gave.Failed) ⊎ HasWaiting (has self.old) }
        ensures waited { HasWaiting (has self.old) →
            (L.shown link.new).taken ≡ (L.shown link.old).taken }
        ensures still { result ≡ Took.Nothing → has self.new ≡ has self.old }
        ensures failed { gave ≡ Gave.Failed → result ≡ Took.Nothing }
        ensures given { (L.shown link.new).given ≡ (L.shown link.old).given }
        ensures stalls { (L.shown link.new).counts.stalls ≡ (L.shown link.old).counts.stalls }
        ensures counted { NoneFell (L.shown link.old).counts (L.shown link.new).counts }
        ensures rest { self.new ≡ record self.old { incoming = self.new.incoming } }
        ensures max_in { self.new.incoming.max_in ≡ self.old.incoming.max_in }
        ensures dropped { self.old.bad ≡ true →
            length (all_of self.new.incoming) ≤ length (all_of self.old.incoming) }
    {
        if gave == Gave::Failed {
            return Took::Nothing;
        }
        if self.bad {
            return took_by(self.incoming.skip(link));
        }
        if self.incoming.feed().is_err() {
            return Took::OutOfMemory;
        }
        if self.incoming.has_next() {
            return Took::Nothing;
        }
        match self.incoming.take(link) {
            Ok(taken) => took_by(taken),
            Err(_) => Took::OutOfMemory,
        }
    }
}
