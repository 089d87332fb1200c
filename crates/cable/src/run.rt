//! The run of a script.

ghost use Rattle.std.specs.Prelude.{◌≡◌, ℕ, [], List, false};
ghost use Rattle.rs_wire.specs.Settings.{IsChecked};
ghost use Rattle.rs_wire.specs.declared.words.Side.TheVariants.{Client, Server};
ghost use Rattle.session_model.specs.Lists.{IsPrefix};
ghost use Rattle.session_model.specs.Frames.{handled, made};
ghost use Rattle.session_model.specs.Joined.{Joined};
ghost use Rattle.session_model.specs.Legal.{Fair, Legal};
ghost use Rattle.session_laws.specs.Headline.{HasHeadline};
ghost use Rattle.honest_laws.specs.Accusing.{AccusesNobody};
ghost use Rattle.cable.specs.Played.{Played, pair_of};

use crate::cable::Cable;
use crate::laws::played_laws;
use cable_script::Script;
use session_core::Session;
use session_laws::a_session_has_the_headline;
use std::alloc::Global;
use tape::Tape;

/// The two ends of a session after the run of a script.
#[derive(Drop)]
pub struct Ran<T: Tape> {
    /// The client.
    pub client: Session<T>,
    /// The server.
    pub server: Session<T>,
    /// Memory ran out, or a tape was full, and the run stopped there.
    pub want: bool,
}

/// Runs a script between a client and a server of which nothing happened yet. The client opens the
/// connection before the first line; every caller is number 0.
///
/// Where `want` is false, the script was played to its end.
pub fn scheduled<T: Tape>(
    alloc: Global,
    script: &Script,
    client: Session<T>,
    server: Session<T>,
) -> Ran<T>
    requires client_side { client.settings.side ≡ Client }
    requires server_side { server.settings.side ≡ Server }
    requires client_checked { IsChecked client.settings }
    requires server_checked { IsChecked server.settings }
    requires client_fresh { client.entries ≡ [] }
    requires server_fresh { server.entries ≡ [] }
    ensures played { result.want ≡ false →
        Played (record { client = client.settings; server = server.settings }) script.now.lines
        result.client.entries result.server.entries }

    // The bytes of the two ends crossed, and what each handled is a prefix of what the other made.
    ensures joined { result.want ≡ false → (pairs : List ℕ) × Joined client.settings
        server.settings result.client.entries result.server.entries (pair_of pairs) }
    ensures up { result.want ≡ false →
        IsPrefix (handled result.server.entries) (made client.settings result.client.entries) }
    ensures down { result.want ≡ false →
        IsPrefix (handled result.client.entries) (made server.settings result.server.entries) }

    // Neither accuses the other by a rule that depends on no limit of either end.
    ensures client_accuses_nobody { result.want ≡ false → AccusesNobody result.client.entries }
    ensures server_accuses_nobody { result.want ≡ false → AccusesNobody result.server.entries }

    // Where memory ran out too, both ends are as their answers say, and have the headline.
    ensures client_legal { Legal client.settings result.client.entries }
    ensures server_legal { Legal server.settings result.server.entries }
    ensures client_fair { Fair client.settings result.client.entries }
    ensures server_fair { Fair server.settings result.server.entries }
    ensures client_headline { HasHeadline client.settings result.client.entries }
    ensures server_headline { HasHeadline server.settings result.server.entries }
    ensures client { result.client ≡
        record client { entries = result.client.entries; spare = result.client.spare } }
    ensures server { result.server ≡
        record server { entries = result.server.entries; spare = result.server.spare } }
{
    let mut cable = Cable::new(client, server);
    let want = cable.play(alloc, script.lines()).is_err();
    let (client, server) = cable.into_ends();
    client.legal();
    server.legal();
    a_session_has_the_headline();
    played_laws();
    Ran {
        client,
        server,
        want,
    }
}
