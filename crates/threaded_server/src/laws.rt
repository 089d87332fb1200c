//! Laws of the server's carrier.

ghost use Rattle.std.specs.Prelude.{◌≡◌, ◌<◌, ◌++◌, ◌∷◌, List, []};
ghost use Rattle.session_model.specs.Legal.{Legal};
ghost use Rattle.conn_lock.specs.Callers.{times};
ghost use Rattle.conn_shared.specs.Members.{Follows, Knowledge};
ghost use Rattle.cable_script.specs.declared.line.Line.{Line};
ghost use Rattle.ring.specs.declared.item.Item.{Item};
ghost use Rattle.ring.specs.declared.item.Item.TheVariants as item;
ghost use Rattle.ring.specs.declared.item.Mark.TheVariants as mark;
ghost use Rattle.ring.specs.Parts.{cuts};
ghost use Rattle.carriers.specs.Alone.{OthersAsk};
ghost use Rattle.threaded_server.specs.declared.knows.Knows.{Knows};
ghost use Rattle.threaded_server.specs.Carrying.{IsCarrying, ServerHands};

/// What holds of all carriers of a server. It does nothing: its contract is the law.
pub fn server_laws()
    // What is kept goes on where another caller was joined in, whose entries are on top ..
    ensures joined { (me now : Knowledge) (lines : List Line) (knows : Knows)
        (sent received : List Item) → now.of ≡ me.of → now.number ≡ me.number →
        0 < times me.number me.names → Follows me.names me.front now.front →
        IsCarrying me lines knows sent received → IsCarrying now lines knows sent received }

    // .. and once both ends have said that the script is over, it is what the carrier hands back.
    ensures hands { (me : Knowledge) (lines : List Line) (knows : Knows)
        (sent received down up : List Item) → OthersAsk me → Legal me.of.settings me.front →
        down ≡ sent ++ item.Mark mark.End ∷ [] → up ≡ received ++ item.Mark mark.End ∷ [] →
        IsCarrying me lines knows sent received →
        ServerHands me.of.settings me.front me.number lines knows (cuts sent) down up }
{}
