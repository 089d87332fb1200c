//! Laws of the link of a connection. Entries stand newest first: `base` is what there was, and
//! `more` came after it.

ghost use Rattle.std.specs.Prelude.{◌≡◌, ◌++◌, ◌∷◌, ℕ, List, [], Bool, Option, Some, None};
ghost use Rattle.std.specs.Prelude.{false, true};
ghost use Rattle.std.specs.List.{AllByRecursion};
ghost use Rattle.rs_wire.specs.declared.fault.Cause.{Cause};
ghost use Rattle.rs_wire.specs.declared.settings.Settings.{Settings};
ghost use Rattle.outside.specs.Links.{IsNew, Shown};
ghost use Rattle.tape.specs.declared.answer.Answer.TheVariants as answer;
ghost use Rattle.tape.specs.declared.entry.Entry.{Entry};
ghost use Rattle.tape.specs.declared.event.Event.TheVariants as event;
ghost use Rattle.session_model.specs.Frames.{queued, was_opened};
ghost use Rattle.session_model.specs.Legal.{Legal};
ghost use Rattle.session_model.specs.Life.{closed, is_live, live};
ghost use Rattle.link_model.specs.Carrying.{Between, Carried, IsFresh, Keeps, is_of};
ghost use Rattle.link_model.specs.Leaving.{ComesInTime, Heard, IsAllGiven, IsBroken, IsReadOut};
ghost use Rattle.link_model.specs.Leaving.{Left, parted};
ghost use Rattle.link_laws.specs.Staying.{StaysOn};
ghost use Rattle.link_laws.specs.Unopened.{AreEarlier, Unopened};

/// A new link carries a client's opening: no byte of it was drawn or taken.
pub fn new_links_are_fresh()
    ensures { (g : Settings) (past : List Entry) (x : Entry) (link : Shown) (taken : Bool) (c : ℕ) →
        Legal g (x ∷ past) → x.event ≡ event.Open None taken → x.answer ≡ answer.Opened c →
        IsNew link → IsFresh g (x ∷ past) link c [] }
{}

/// A link that was carried or heard stays so where an entry is added that moves no byte of its
/// connection.
pub fn links_stay_good()
    ensures carried { (g : Settings) (past : List Entry) (x : Entry) (link : Shown) (c : ℕ) →
        is_of c x.event ≡ false → was_opened past c ≡ true →
        Carried g past link c → Carried g (x ∷ past) link c }
    ensures heard { (g : Settings) (past : List Entry) (x : Entry) (link : Shown) (c : ℕ) →
        is_of c x.event ≡ false → was_opened past c ≡ true →
        Heard g past link c → Heard g (x ∷ past) link c }
{}

/// A link has all that is due on its connection, which is live, where nothing is queued there and
/// nothing is left that was drawn.
pub fn all_due_was_given()
    ensures { (g : Settings) (past : List Entry) (link : Shown) (b : Between) →
        Keeps g past link b → b.left ≡ [] → is_live (live past) b.conn ≡ true →
        queued g past ≡ 0 → IsAllGiven g past link b.conn }
{}

/// A link may be left where nobody ended its connection and the session is closed, with nothing
/// left to give; or where the link failed or ended, and all that was taken has come as far as it
/// can.
pub fn links_are_left_at_their_end()
    ensures over { (g : Settings) (link : Shown) (b : Between) (more base : List Entry)
        (why : Cause) →
        Legal g (more ++ base) → StaysOn b.conn more → is_live (live base) b.conn ≡ true →
        closed g base ≡ None → closed g (more ++ base) ≡ Some why →
        Keeps g (more ++ base) link b → b.left ≡ [] → queued g (more ++ base) ≡ 0 →
        Left g (more ++ base) link b.conn }
    ensures broken { (g : Settings) (link : Shown) (b : Between) (more base : List Entry) →
        Legal g (more ++ base) → StaysOn b.conn more → parted base b.conn ≡ false →
        closed g base ≡ None → ComesInTime g base b.conn →
        Keeps g (more ++ base) link b → IsReadOut g (more ++ base) b.conn b.rest →
        IsBroken link → Left g (more ++ base) link b.conn }
{}

/// A link that may be left may be left later too, once entries came that move no byte of its
/// connection.
pub fn left_links_stay_left()
    ensures { (g : Settings) (link : Shown) (c : ℕ) (more past : List Entry) →
        Legal g (more ++ past) → was_opened past c ≡ true →
        AllByRecursion (λ (x : Entry). is_of c x.event ≡ false) more →
        Left g past link c → Left g (more ++ past) link c }
{}

/// A link on which no connection was opened, by the fronts of that moment, has the same reason by
/// the whole tapes.
pub fn unopened_links_stay_unopened()
    ensures { (g : Settings) (moments : Option (List ℕ)) (fronts tapes : List (List Entry))
        (link : Shown) →
        AreEarlier fronts tapes → Unopened g moments fronts link → Unopened g moments tapes link }
{}
