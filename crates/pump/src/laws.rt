//! Laws of pumps.

ghost use Rattle.std.specs.Prelude.{◌≡◌, ℕ, List, Option, true};
ghost use Rattle.rs_wire.specs.declared.settings.Settings.{Settings};
ghost use Rattle.tape.specs.declared.entry.Entry.{Entry};
ghost use Rattle.outside.specs.Links.{Shown};
ghost use Rattle.conn_shared.specs.Members.{Knowledge};
ghost use Rattle.session_model.specs.Frames.{was_opened};
ghost use Rattle.link_model.specs.Carrying.{Between, Carried};
ghost use Rattle.link_model.specs.Leaving.{ComesInTime, Heard};
ghost use Rattle.pump.specs.Turns.{GoesOn, IsKept, IsPumped, IsReadOut, IsTurn, MovesAlone, Spares};

/// What holds of all pumps. It does nothing: its contract is the law.
pub fn pump_laws()
    // A pump that keeps what it should has a link that is carried.
    ensures carried { (me : Knowledge) (link : Shown) (b : Between) → MovesAlone me b.conn →
        IsKept me link b → Carried me.of.settings me.front link b.conn }

    // That goes on over calls of its caller that move no bytes of its connection.
    ensures other_calls { (was now : Knowledge) (link : Shown) (b : Between) →
        now ≡ record was { front = now.front; note = now.note } →
        GoesOn (Spares b.conn) was now.front → IsKept was link b → IsKept now link b }

    // Where a turn or a run says so, all that was taken has come as far as it can.
    ensures heard { (was now : Knowledge) (link : Shown) (b : Between) →
        now ≡ record was { front = now.front; note = now.note } →
        was_opened was.front b.conn ≡ true → b.max_in ≡ now.of.settings.max_in →
        MovesAlone now b.conn → IsKept now link b →
        IsReadOut now.of.settings was b now.front →
        ComesInTime now.of.settings now.front b.conn →
        Heard now.of.settings now.front link b.conn }

    // A turn adds nothing but ticks with moments of its clock, draws, and what came.
    ensures turns { (g : Settings) (moments : Option (List ℕ)) (me : Knowledge) (c : ℕ)
        (old left : List ℕ) (new : List Entry) →
        IsTurn g moments me c old left new → GoesOn (IsPumped moments c) me new }
{}
