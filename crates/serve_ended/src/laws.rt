//! The law of a server that has ended. Entries stand newest first.

ghost use Rattle.std.specs.Prelude.{◌≡◌, ℕ, List, Option, Some, length, slice_get};
ghost use Rattle.rs_wire.specs.declared.call.Call.{Call};
ghost use Rattle.rs_wire.specs.declared.settings.Settings.{Settings};
ghost use Rattle.outside.specs.Links.{Shown};
ghost use Rattle.conn_shared.specs.Members.{Knowledge};
ghost use Rattle.handlers.specs.Listed.{Listed};
ghost use Rattle.server.specs.Opening.{fronts};
ghost use Rattle.serve_laws.specs.Links.{AreServedLinks};
ghost use Rattle.serve_laws.specs.Tapes.{AreServersTapes};
ghost use Rattle.serve_ended.specs.Ended.{LinksEnded, SlotEnded, rows_of};

/// Where all links have ended at their places, and each slot took its callers in and ended, the
/// tapes are a server's, and the links are served.
pub fn an_ended_server_leaves_what_it_promises()
    ensures tapes { (g : Settings) (moments : Option (List ℕ)) (lease : Option Call)
        (routes : List Listed) (many : ℕ) (places : List (List Knowledge)) (links : List Shown)
        (lasts : List Knowledge) → LinksEnded g moments lease many places links →
        length lasts ≡ many →
        ((i : ℕ) (last : Knowledge) → slice_get lasts i ≡ Some last →
        SlotEnded g routes places i last) →
        AreServersTapes g moments lease routes (rows_of links places) (fronts lasts) }
    ensures links { (g : Settings) (moments : Option (List ℕ)) (lease : Option Call)
        (routes : List Listed) (many : ℕ) (places : List (List Knowledge)) (links : List Shown)
        (lasts : List Knowledge) → LinksEnded g moments lease many places links →
        length lasts ≡ many →
        ((i : ℕ) (last : Knowledge) → slice_get lasts i ≡ Some last →
        SlotEnded g routes places i last) →
        AreServedLinks g moments lease (fronts lasts) (rows_of links places) links }
{}
