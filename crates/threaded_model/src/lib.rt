//! The definition of a script that threads played, over the definitions of a session, and its laws.
//!
//! Two threads carry the bytes of the two ends through two rings, and two more make the calls of the
//! script. What such a run leaves is said by [`Threaded`](threaded_laws), sentence by sentence, with
//! nothing assumed of the schedule. The promise to the layer above: what the carriers hand back over
//! rings of which all was read is such a run, its two lists of entries are joined, and so what each end
//! has handled is a prefix of what the other made.
//!
//! Left out: the threads.
#![tactic(auto)]

ghost use Rattle.std.specs.Prelude.{◌≡◌, ℕ, List, ◌++◌, true, Option};
ghost use Rattle.rs_wire.specs.declared.words.Side.TheVariants.{Client, Server};
ghost use Rattle.rs_wire.specs.declared.settings.Settings.{Settings};
ghost use Rattle.tape.specs.declared.entry.Entry.{Entry};
ghost use Rattle.cable_script.specs.declared.line.Line.{Line};
ghost use Rattle.session_model.specs.Lists.{IsPrefix};
ghost use Rattle.session_model.specs.Frames.{handled, made};
ghost use Rattle.session_model.specs.Life.{carrying, closed, is_live, live};
ghost use Rattle.session_model.specs.Joined.{Crossed, IsOpening, Joined};
ghost use Rattle.session_laws.specs.Ends.{AreEnds};
ghost use Rattle.std.specs.List.{AllByRecursion};
ghost use Rattle.rs_frame.specs.declared.frame.Frame.{Frame};
ghost use Rattle.rs_frame.specs.Spelling.{IsSpellable};
ghost use Rattle.link_model.specs.Reading.{HasRead};
ghost use Rattle.rs_wire.specs.Settings.{IsChecked};
ghost use Rattle.rs_frame.specs.Framed.{framed_all};
ghost use Rattle.rs_chunk.specs.Stream.{IsTooLong, IsWhole};
ghost use Rattle.session_model.specs.Frames.{came, due, given, queued};
ghost use Rattle.session_model.specs.Legal.{Fair, Legal};
ghost use Rattle.ring.specs.declared.item.Item.{Item};
ghost use Rattle.threaded_model.specs.Handed.{ClientKeeps, Followed, IsSettled, ServerKeeps};
ghost use Rattle.threaded_model.specs.Threaded.{Threaded};

use session_laws::{drained_is_equal, handled_begins_made};

/// What holds of the ends of a script that threads played. It does nothing: its contract is the law.
pub fn threaded_laws()
    // What each end has handled is a prefix of what the other made.
    ensures up { (g h : Settings) (lines : List Line) (client server : List Entry) →
        Threaded g h lines client server → AreEnds g h client server →
        IsPrefix (handled server) (made g client) }
    ensures down { (g h : Settings) (lines : List Line) (client server : List Entry) →
        Threaded g h lines client server → AreEnds g h client server →
        IsPrefix (handled client) (made h server) }

    // Where the last connection is live at both ends and carries, and neither is closed, all that an
    // end made the other has handled.
    ensures all { (g h : Settings) (lines : List Line) (client server : List Entry) →
        (t : Threaded g h lines client server) → AreEnds g h client server → (d : ℕ) →
        IsOpening server d → is_live (live client) (t.pair d) ≡ true → is_live (live server) d ≡ true →
        carrying g client ≡ true → closed g client ≡ None → closed h server ≡ None →
        handled server ≡ made g client }
{
    handled_begins_made();
    drained_is_equal()
}

/// When all came: the sender, on whose live connection nothing is queued, gave all that is due, all of
/// it crossed, and what is left of it at the other end begins with no whole frame and no length that is
/// too long there.
pub fn settled_laws()
    ensures { (g h : Settings) (sends hears : List Entry) (c d : ℕ) (rest : List ℕ) →
        IsChecked g → Legal g sends → Fair g sends → Fair h hears →
        is_live (live sends) c ≡ true → queued g sends ≡ 0 →
        framed_all (came hears d) ++ rest ≡ given g sends c →
        (¬ (IsWhole rest h.max_in)) → (¬ (IsTooLong rest h.max_in)) →
        came hears d ≡ due g sends c }
{}

/// What was read of canonical bytes crossed: what came are their frames, whole and in order, and bytes
/// that are no frame were a length that is too long.
pub fn reading_laws()
    ensures { (most : ℕ) (frames came : List Frame) (bad : Option ℕ) (rest taken bytes : List ℕ) →
        AllByRecursion IsSpellable frames → HasRead came bad most rest taken →
        IsPrefix taken bytes → IsPrefix bytes (framed_all frames) →
        Crossed (framed_all came) bad most bytes }
{}

/// What the two carriers hand back is joined, where what was read from each ring begins what was pushed
/// into it.
pub fn handed_laws()
    ensures { (g h : Settings) (client server : List Entry) (conn place : ℕ → ℕ)
        (up read_up down read_down : List Item) → AreEnds g h client server →
        ClientKeeps g client conn up read_down → ServerKeeps h server place down read_up →
        IsPrefix read_up up → IsPrefix read_down down →
        Joined g h client server (λ d. conn (place d)) }
{}

/// What the carriers hand back is a script that threads played, where all was read, the lines were
/// followed, and all is done on the client's live connection.
pub fn ended_laws()
    ensures { (g h : Settings) (lines : List Line) (client server : List Entry)
        (conn place : ℕ → ℕ) (up read_up down read_down : List Item) →
        AreEnds g h client server → ClientKeeps g client conn up read_down →
        ServerKeeps h server place down read_up → read_up ≡ up → read_down ≡ down →
        Followed lines client server (λ d. conn (place d)) →
        IsSettled g h client server conn place read_up down read_down →
        Threaded g h lines client server }
{}
