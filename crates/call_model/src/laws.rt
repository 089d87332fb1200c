//! Laws of calls. Entries stand newest first.

ghost use Rattle.std.specs.Prelude.{◌≡◌, ◌<◌, ◌≤◌, ◌+◌, ◌++◌, ◌∷◌, [], ℕ, Option, length, List, None, Some, false, true};
ghost use Rattle.rs_wire.specs.declared.settings.Settings.{Settings};
ghost use Rattle.rs_wire.specs.declared.call.Call.TheVariants as call;
ghost use Rattle.tape.specs.declared.entry.Entry.{Entry};
ghost use Rattle.tape.specs.declared.event.Event.TheVariants as event;
ghost use Rattle.stream_model.specs.Turns.{Turn, is_fnf, taken};
ghost use Rattle.session_model.specs.Answers.{answer_to};
ghost use Rattle.session_model.specs.Lists.{IsPrefix};
ghost use Rattle.session_laws.specs.Streams.{IsLawful, IsStream};
ghost use Rattle.session_model.specs.Life.{begun, openings};
ghost use Rattle.std.specs.List.{AllByRecursion};
ghost use Rattle.outside.specs.Links.{Shown};
ghost use Rattle.session_model.specs.Legal.{Legal};
ghost use Rattle.call_model.specs.Order.{Asking, InOrder, comes, is_taken, moves_only, next_call};
ghost use Rattle.link_model.specs.Carrying.{Between, Keeps};
ghost use Rattle.link_model.specs.Leaving.{IsBroken, IsReadOut, Left};
ghost use Rattle.call_model.specs.Present.{HasJoined};
ghost use Rattle.call_model.specs.Standing.{IsUnended, Stands};
ghost use Rattle.call_model.specs.Leaving.{AreCarried, AreLeft, AreTimely};
ghost use Rattle.call_model.specs.Ran.{FindsDead};
ghost use Rattle.rs_wire.specs.declared.words.Side.TheVariants.{Client};
ghost use Rattle.tape.specs.declared.answer.Answer.TheVariants as answer;
ghost use Rattle.call_model.specs.Saying.{GetsNothing, delivered_on, got_on, started};

/// The order of a call goes on.
pub fn order_goes_on()
    ensures next { (w : Asking) (past : List Entry) (x : Entry) →
        begun past ≡ true → is_taken x.event x.answer ≡ false → next_call w (x ∷ past) ≡ None }
    ensures nothing { (w : Asking) (past : List Entry) (s : ℕ) →
        InOrder w past → started past ≡ None → got_on past s ≡ [] }
{}

/// What holds of links that were put back goes on.
pub fn links_stay_left()
    ensures left { (g : Settings) (more past : List Entry) (conn c : ℕ) (links : List Shown) →
        Legal g (more ++ past) →
        AllByRecursion (λ (x : Entry). moves_only conn x.event ≡ true) more → 0 < c →
        c + length links ≤ conn → conn ≤ openings past → AreLeft g past c links →
        AreLeft g (more ++ past) c links }
    ensures carried { (g : Settings) (more past : List Entry) (conn c : ℕ) (links : List Shown) →
        AllByRecursion (λ (x : Entry). moves_only conn x.event ≡ true) more → 0 < c →
        c + length links ≤ conn → conn ≤ openings past → AreCarried g past c links →
        AreCarried g (more ++ past) c links }
    ensures timely { (more past : List Entry) (conn c : ℕ) (links : List Shown) →
        c + length links ≤ conn → conn ≤ openings past → AreTimely past c links →
        AreTimely (more ++ past) c links }
{}

/// A peer that counts as dead is found by a tick that is late.
pub fn dead_peers_are_late()
    ensures { (g : Settings) (past : List Entry) (x : Entry) (now last : ℕ) → g.side ≡ Client →
        IsLawful g (x ∷ past) → x.event ≡ event.Tick now → x.answer ≡ answer.Dead last →
        FindsDead g past x last }
{}

/// A broken link may be left, once all that was taken has come as far as it can.
pub fn broken_links_may_be_left()
    ensures { (g : Settings) (past : List Entry) (link : Shown) (c : ℕ) (b : Between) →
        Legal g past → HasJoined g past c → b.conn ≡ c → Keeps g past link b →
        IsReadOut g past c b.rest → IsBroken link → Left g past link c }
{}

/// Where a call stands, it stands once something came.
pub fn calls_go_on()
    ensures { (g : Settings) (w : Asking) (moments : Option (List ℕ)) (more past : List Entry)
        (stream : Option ℕ) (fresh : ℕ) →
        AllByRecursion (λ (x : Entry). comes x.event ≡ true) more → Legal g (more ++ past) →
        next_call w past ≡ None → Stands w moments past stream fresh × IsUnended past →
        Stands w moments (more ++ past) stream fresh × IsUnended (more ++ past) }
{}

/// What was taken of a stream is what its words say; it is a prefix of what was delivered on it,
/// and all of it where a Take gets nothing, or where the call is a fire-and-forget, which delivers
/// nothing.
pub fn takes_are_delivered()
    ensures taken { (g : Settings) (past : List Entry) (s : ℕ) (t : Turn) →
        IsStream g past s t → got_on past s ≡ taken t.words }
    ensures first { (g : Settings) (past : List Entry) (s : ℕ) → IsLawful g past →
        IsPrefix (got_on past s) (delivered_on g past s) }
    ensures all { (g : Settings) (past : List Entry) (s : ℕ) → IsLawful g past →
        GetsNothing (answer_to g past (event.Asked (call.Take s))) →
        got_on past s ≡ delivered_on g past s }
    ensures fnf { (g : Settings) (w : Asking) (past : List Entry) (s : ℕ) → IsLawful g past →
        InOrder w past → is_fnf w.kind ≡ true → started past ≡ Some s →
        got_on past s ≡ delivered_on g past s }
{}
