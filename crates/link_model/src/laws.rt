//! Laws of links that are carried. Entries stand newest first.

ghost use Rattle.std.specs.Prelude.{◌≡◌, ◌≤◌, ◌^◌, ◌∷◌, ℕ, List, [], false, length};
ghost use Rattle.rs_wire.specs.declared.settings.Settings.{Settings};
ghost use Rattle.outside.specs.Links.{Shown};
ghost use Rattle.tape.specs.declared.entry.Entry.{Entry};
ghost use Rattle.link_model.specs.Carrying.{Between, Carried, IsFresh, Keeps, is_of};
ghost use Rattle.link_model.specs.Leaving.{ComesInTime, Heard, IsBroken, IsReadOut, Left};

/// When a link is carried.
pub fn carried_links()
    // It is carried by what is kept between it and the connection ..
    ensures kept { (g : Settings) (past : List Entry) (link : Shown) (b : Between) →
        Keeps g past link b → Carried g past link b.conn }

    // .. which holds at first ..
    ensures fresh { (g : Settings) (past : List Entry) (link : Shown) (c most : ℕ) (rest : List ℕ) →
        IsFresh g past link c rest → Keeps g past link (record {
          conn = c;
          left = [];
          rest = rest;
          max_in = most;
          bad = false;
        }) }
{}

/// What is kept between a link and a connection goes on where an entry is added that moves no bytes
/// of that connection: a call, a cut, an opening, a tick, and what another connection has.
pub fn kept_links()
    ensures { (g : Settings) (past : List Entry) (x : Entry) (link : Shown) (b : Between) →
        is_of b.conn x.event ≡ false → Keeps g past link b → Keeps g (x ∷ past) link b }
{}

/// All that was taken has come where what is left is a part of a frame, where bytes came that are
/// no frame, or where the next frame finds no room in the queue.
pub fn heard_links()
    ensures { (g : Settings) (past : List Entry) (link : Shown) (b : Between) →
        Keeps g past link b → ComesInTime g past b.conn →
        IsReadOut g past b.conn b.rest → Heard g past link b.conn }
{}

/// A link that is heard and has failed or ended, or of a tape that is full, may be left.
pub fn left_links()
    ensures broken { (g : Settings) (past : List Entry) (link : Shown) (c : ℕ) →
        IsBroken link → Heard g past link c → Left g past link c }
    ensures full { (g : Settings) (past : List Entry) (link : Shown) (c : ℕ) →
        2 ^ 63 ≤ length past → Left g past link c }
{}
