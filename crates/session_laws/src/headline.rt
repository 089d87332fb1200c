//! What holds at one end, in one record (RSocket 1.0, "Resuming Operation", "REQUEST_N Frame" and
//! "Lease Semantics").

ghost use Rattle.std.specs.Prelude.{List};
ghost use Rattle.rs_wire.specs.declared.settings.Settings.{Settings};
ghost use Rattle.tape.specs.declared.entry.Entry.{Entry};
ghost use Rattle.session_laws.specs.Headline.{HasHeadline};
ghost use Rattle.session_laws.specs.Streams.{IsLawful};

/// At every moment of a session, whatever its peer sends, no stream carries more items than were
/// granted, none delivers after its end, no lease lets more requests through than its count, and a
/// resumption was accepted exactly where both ends hold what it needs.
pub fn a_session_has_the_headline()
    ensures { (g : Settings) (past : List Entry) → IsLawful g past → HasHeadline g past }
{}
