//! Requests of the peer's that open no stream, and are answered by an ERROR.

ghost use Rattle.std.specs.Prelude.{◌≡◌, ◌≤◌, IfSome, length};
ghost use Rattle.std.specs.Option.{option_copied};
ghost use Rattle.interactions.specs.Seen.{known_to};
ghost use Rattle.rs_wire.specs.declared.settings.Settings.{Settings};
ghost use Rattle.session_model.specs.Streams.{turned_away_for};

use interactions::Streams;
use rs_frame::Request;
use rs_wire::Kind;

/// The word of why a request opens no stream and is answered by an ERROR: its lease does not cover
/// it, or as many streams are open as may be. A fire-and-forget is never answered.
pub fn turned_away_for(streams: &Streams, covered: bool, request: &Request) -> Option<&'static str>
    ensures word { (g : Settings) → g.max_streams ≡ streams.now.limits.max_streams →
        option_copied result ≡ turned_away_for g covered (known_to streams.now) request.now }
    ensures short { IfSome (option_copied result) (λ w. length w ≤ 7) }
{
    match request.kind {
        Kind::Fnf => None,
        _ if !covered => Some("lease"),
        _ if !streams.admits(request.kind, true) => Some("streams"),
        _ => None,
    }
}
