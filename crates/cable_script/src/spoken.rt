//! The words of the report.

ghost use Rattle.std.specs.Prelude.{◌≡◌};
ghost use Rattle.cable_script.specs.Spoken.{kind_word, next_word, side_word};

use rs_wire::{Kind, Side};

/// The word of an end.
pub fn side_word(side: Side) -> &'static str
    ensures { result.now ≡ side_word side }
{
    match side {
        Side::Client => "client",
        Side::Server => "server",
    }
}

/// The word of a call that makes a request of that kind.
pub fn kind_word(kind: Kind) -> &'static str
    ensures { result.now ≡ kind_word kind }
{
    match kind {
        Kind::Response => "response",
        Kind::Fnf => "fnf",
        Kind::Stream => "stream",
        Kind::Channel => "channel",
    }
}

/// The word of a call that sends a payload, after which this end sends nothing more or goes on.
pub fn next_word(complete: bool) -> &'static str
    ensures { result.now ≡ next_word complete }
{
    if complete { "last" } else { "next" }
}
