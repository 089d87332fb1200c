//! Laws of leases and moments at one end (RSocket 1.0, "Lease Semantics" and "KEEPALIVE Frame"), whatever
//! its peer sends.

ghost use Rattle.std.specs.Prelude.{◌≡◌, ◌≤◌, ◌+◌, ◌++◌, ℕ, Bool, true, List, Option, Some};
ghost use Rattle.lease.specs.Lease.{IsUsable};
ghost use Rattle.lease.specs.declared.requester.Terms.{Terms};
ghost use Rattle.rs_wire.specs.declared.call.Call.TheVariants as call;
ghost use Rattle.rs_wire.specs.declared.message.Message.{Message};
ghost use Rattle.rs_wire.specs.declared.settings.Settings.{Settings};
ghost use Rattle.rs_wire.specs.declared.words.Kind.{Kind};
ghost use Rattle.session_model.specs.Answers.{answer_to};
ghost use Rattle.session_model.specs.Leases.{covered, lease, let_in_sum};
ghost use Rattle.session_model.specs.Legal.{Legal};
ghost use Rattle.session_model.specs.Life.{begun, leases_agreed};
ghost use Rattle.session_model.specs.Moments.{moment};
ghost use Rattle.session_model.specs.declared.numbers.TheConstants.{LAST_MOMENT};
ghost use Rattle.tape.specs.declared.answer.Answer.TheVariants as answer;
ghost use Rattle.tape.specs.declared.entry.Entry.{Entry};
ghost use Rattle.tape.specs.declared.event.Event.TheVariants as event;

/// The requests that an end made under one lease are at most its count. Where leases are agreed, a
/// request of a session that is begun is made only while a lease has requests left and is not over.
pub fn requests_stay_within_the_lease()
    ensures count { (g : Settings) (past : List Entry) (l : Terms) →
        Legal g past → lease g past ≡ Some l → l.used ≤ l.count }
    ensures usable { (g : Settings) (past : List Entry) (kind : Kind) (initial : Option ℕ)
        (message : Message) (complete : Bool) (id : ℕ) →
        Legal g past → leases_agreed g past ≡ true →
        answer_to g past (event.Asked (call.Request kind initial message complete))
        ≡ answer.Started id →
        IsUsable (lease g past) (moment past) }
{}

/// The requests of the peer's that passed the test of leases are at most as many as this end let its
/// peer make by all its LEASEs together.
pub fn covered_requests_stay_within_the_sum()
    ensures { (g : Settings) (past : List Entry) → covered g past ≤ let_in_sum past }
{}

/// The moment never falls, and is at most 2^62 ms.
pub fn the_moment_never_falls()
    ensures grows { (more past : List Entry) → moment past ≤ moment (more ++ past) }
    ensures within { (past : List Entry) → moment past ≤ LAST_MOMENT }
{}
