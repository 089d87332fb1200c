//! Laws of the client's carrier.

ghost use Rattle.std.specs.Prelude.{◌≡◌, ◌<◌, ◌++◌, ◌∷◌, List, [], Option};
ghost use Rattle.conn_lock.specs.Callers.{times};
ghost use Rattle.conn_shared.specs.Members.{Follows, Knowledge};
ghost use Rattle.link_model.specs.Carrying.{Between};
ghost use Rattle.cable_script.specs.declared.line.Line.{Line};
ghost use Rattle.ring.specs.declared.item.Item.{Item};
ghost use Rattle.ring.specs.declared.item.Item.TheVariants as item;
ghost use Rattle.ring.specs.declared.item.Mark.TheVariants as mark;
ghost use Rattle.carriers.specs.Alone.{OthersAsk};
ghost use Rattle.threaded_client.specs.Carrying.{IsCarrying};
ghost use Rattle.threaded_client.specs.Handing.{ClientHands};

/// What holds of all carriers of a client. It does nothing: its contract is the law.
pub fn client_laws()
    // What is kept goes on where another caller was joined in, whose entries are on top ..
    ensures joined { (me now : Knowledge) (lines : List Line) (pump : Option Between)
        (sent received : List Item) → now.of ≡ me.of → now.number ≡ me.number →
        0 < times me.number me.names → Follows me.names me.front now.front →
        IsCarrying me lines pump sent received → IsCarrying now lines pump sent received }

    // .. and once both ends have said that the script is over, it is what the carrier hands back.
    ensures hands { (me : Knowledge) (lines : List Line) (pump : Option Between)
        (sent received up down : List Item) → OthersAsk me →
        up ≡ sent ++ item.Mark mark.End ∷ [] → down ≡ received ++ item.Mark mark.End ∷ [] →
        IsCarrying me lines pump sent received →
        ClientHands me.of.settings me.front me.number lines pump up down }
{}
