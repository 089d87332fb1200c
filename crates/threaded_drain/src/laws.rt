//! Laws of a script whose end was reached.

ghost use Rattle.std.specs.Prelude.{◌≡◌, ℕ, List, ◌∷◌, Option, IfSome};
ghost use Rattle.rs_wire.specs.declared.settings.Settings.{Settings};
ghost use Rattle.rs_wire.specs.declared.words.Side.TheVariants.{Client, Server};
ghost use Rattle.tape.specs.declared.entry.Entry.{Entry};
ghost use Rattle.session_laws.specs.Ends.{AreEnds};
ghost use Rattle.link_model.specs.Carrying.{Between};
ghost use Rattle.cable_script.specs.declared.line.Line.{Line};
ghost use Rattle.cable_script.specs.declared.line.Line.TheVariants as line;
ghost use Rattle.ring.specs.declared.item.Item.{Item};
ghost use Rattle.threaded_model.specs.Handed.{IsSettled};
ghost use Rattle.threaded_model.specs.Threaded.{AreCalls, Threaded, calls_of};
ghost use Rattle.threaded_client.specs.Carrying.{IsSound as IsSoundNear};
ghost use Rattle.threaded_client.specs.Handing.{ClientHands};
ghost use Rattle.threaded_server.specs.declared.knows.Knows.{Knows};
ghost use Rattle.threaded_server.specs.Carrying.{IsSound, ServerHands};
ghost use Rattle.threaded_drain.specs.Resting.{IsAtRest};

/// What holds of all scripts whose carriers have handed back what they have. It does nothing: its
/// contract is the law.
pub fn drained_laws()
    // Where nothing is left to cross, and all that was pushed was read, all is done on the client's live
    // connection.
    ensures settled { (g h : Settings) (lines others : List Line) (client server : List Entry)
        (near_number far_number conn n : ℕ) (pump : Option Between) (knows : Knows)
        (up read_up down read_down : List Item) → AreEnds g h client server →
        (c : ClientHands g client near_number lines pump up read_down) →
        (s : ServerHands h server far_number others knows n down read_up) →
        IsSoundNear g conn pump → IsSound h knows → read_up ≡ up → read_down ≡ down →
        IsAtRest g h client server pump knows →
        IsSettled g h client server c.conn s.place read_up down read_down }

    // And where the calls of the script were made too, threads played it.
    ensures played { (g h : Settings) (lines : List Line) (client server : List Entry)
        (near_number far_number conn n : ℕ) (pump : Option Between) (knows : Knows)
        (up read_up down read_down : List Item) → AreEnds g h client server →
        ClientHands g client near_number (line.Open ∷ lines) pump up read_down →
        ServerHands h server far_number lines knows n down read_up →
        IsSoundNear g conn pump → IsSound h knows → read_up ≡ up → read_down ≡ down →
        IsAtRest g h client server pump knows →
        AreCalls (calls_of Client lines) client → AreCalls (calls_of Server lines) server →
        Threaded g h lines client server }
{}
