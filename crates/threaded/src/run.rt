//! The run of a script by threads.

ghost use Rattle.std.specs.Prelude.{◌≡◌, [], List, false, IfErr, IfOk};
ghost use Rattle.rs_wire.specs.Settings.{IsChecked};
ghost use Rattle.rs_wire.specs.declared.settings.Settings.{Settings};
ghost use Rattle.rs_wire.specs.declared.words.Side.TheVariants.{Client, Server};
ghost use Rattle.tape.specs.declared.entry.Entry.{Entry};
ghost use Rattle.session_model.specs.Lists.{IsPrefix};
ghost use Rattle.session_model.specs.Frames.{handled, made};
ghost use Rattle.session_model.specs.Legal.{Fair, Legal};
ghost use Rattle.session_laws.specs.Ends.{AreEnds};
ghost use Rattle.session_laws.specs.Headline.{HasHeadline};
ghost use Rattle.honest_laws.specs.Accusing.{AccusesNobody};
ghost use Rattle.cable_script.specs.declared.line.Line.{Line};
ghost use Rattle.threaded.specs.Ran.{AreJoined, IsPlayed, IsSameEnd};
ghost use Rattle.threaded.specs.Threads.{AreShared};

use crate::ending::finish;
use crate::running::{Callers, run};
use crate::sharing::{End, share};
use cable::{Ran, played_laws, scheduled};
use cable_script::Script;
use conn::Connection;
use honest_laws::honest_ends_accuse_nobody;
use session_core::Session;
use session_laws::{a_session_has_the_headline, handled_begins_made};
use std::alloc::Global;
use std::sync::Wait;
use std::thread::Threads;
use tape::Tape;
use threaded_drain::unshare;

// Runs the lines as `scheduled` does, where no thread has acted.
fn play_alone<T: Tape + Drop>(
    alloc: Global,
    script: &Script,
    client: Connection<T>,
    server: Connection<T>,
    callers: Callers<T>,
) -> Ran<T>
    requires client { AreShared client callers.client_carries callers.client_asks }
    requires server { AreShared server callers.server_carries callers.server_asks }
    requires client_side { client.settings.side ≡ Client }
    requires server_side { server.settings.side ≡ Server }
    requires client_checked { IsChecked client.settings }
    requires server_checked { IsChecked server.settings }
    ensures client_settings { result.client.settings ≡ client.settings }
    ensures client_tells { result.client.tells ≡ client.tells }
    ensures server_settings { result.server.settings ≡ server.settings }
    ensures server_tells { result.server.tells ≡ server.tells }
    ensures played { result.want ≡ false → IsPlayed client.settings server.settings
        script.now.lines result.client.entries result.server.entries }
{
    let Callers {
        client_carries,
        client_asks,
        server_carries,
        server_asks,
    } = callers;
    let client = unshare(client, client_carries, client_asks);
    let server = unshare(server, server_carries, server_asks);
    scheduled(alloc, script, client, server)
}

// Runs the lines by four threads between two ends that are shared, or as `scheduled` does where a thread
// can't be started.
fn play<T: Tape + Drop + Send, R: Threads + Wait + Sync>(
    rt: &R,
    alloc: Global,
    script: &Script,
    client: End<T>,
    server: End<T>,
) -> Ran<T>
    requires client { AreShared client.connection client.carrier client.asker }
    requires server { AreShared server.connection server.carrier server.asker }
    requires client_side { client.connection.settings.side ≡ Client }
    requires server_side { server.connection.settings.side ≡ Server }
    requires client_checked { IsChecked client.connection.settings }
    requires server_checked { IsChecked server.connection.settings }
    ensures client_settings { result.client.settings ≡ client.connection.settings }
    ensures client_tells { result.client.tells ≡ client.connection.tells }
    ensures server_settings { result.server.settings ≡ server.connection.settings }
    ensures server_tells { result.server.tells ≡ server.connection.tells }
    ensures played { result.want ≡ false → IsPlayed client.connection.settings
        server.connection.settings script.now.lines result.client.entries result.server.entries }
{
    let End {
        connection: client,
        carrier: client_carries,
        asker: client_asks,
    } = client;
    let End {
        connection: server,
        carrier: server_carries,
        asker: server_asks,
    } = server;
    let callers = Callers {
        client_carries,
        client_asks,
        server_carries,
        server_asks,
    };
    match run(rt, alloc, script, &client, &server, callers) {
        Ok(returned) => finish(rt, alloc, client, server, returned),
        Err(callers) => play_alone(alloc, script, client, server, callers),
    }
}

// Shares the server's session too, and runs the lines by threads.
fn share_and_play<T: Tape + Drop + Send, R: Threads + Wait + Sync>(
    rt: &R,
    alloc: Global,
    script: &Script,
    client: End<T>,
    server: Session<T>,
) -> Ran<T>
    requires client { AreShared client.connection client.carrier client.asker }
    requires client_side { client.connection.settings.side ≡ Client }
    requires server_side { server.settings.side ≡ Server }
    requires client_checked { IsChecked client.connection.settings }
    requires server_checked { IsChecked server.settings }
    requires server_fresh { server.entries ≡ [] }
    ensures client_settings { result.client.settings ≡ client.connection.settings }
    ensures client_tells { result.client.tells ≡ client.connection.tells }
    ensures server_settings { result.server.settings ≡ server.settings }
    ensures server_tells { result.server.tells ≡ server.tells }
    ensures played { result.want ≡ false → IsPlayed client.connection.settings server.settings
        script.now.lines result.client.entries result.server.entries }
{
    match share(rt, alloc, server) {
        Ok(server) => play(rt, alloc, script, client, server),
        Err(server) => Ran {
            client: unshare(client.connection, client.carrier, client.asker),
            server,
            want: true,
        },
    }
}

// Shares both sessions, and runs the lines by threads. A script without lines is run by `scheduled`.
fn play_by_threads<T: Tape + Drop + Send, R: Threads + Wait + Sync>(
    rt: &R,
    alloc: Global,
    script: &Script,
    client: Session<T>,
    server: Session<T>,
) -> Ran<T>
    requires client_side { client.settings.side ≡ Client }
    requires server_side { server.settings.side ≡ Server }
    requires client_checked { IsChecked client.settings }
    requires server_checked { IsChecked server.settings }
    requires client_fresh { client.entries ≡ [] }
    requires server_fresh { server.entries ≡ [] }
    ensures client_settings { result.client.settings ≡ client.settings }
    ensures client_tells { result.client.tells ≡ client.tells }
    ensures server_settings { result.server.settings ≡ server.settings }
    ensures server_tells { result.server.tells ≡ server.tells }
    ensures played { result.want ≡ false → IsPlayed client.settings server.settings
        script.now.lines result.client.entries result.server.entries }
{
    if script.lines().is_empty() {
        return scheduled(alloc, script, client, server);
    }
    match share(rt, alloc, client) {
        Ok(client) => share_and_play(rt, alloc, script, client, server),
        Err(client) => Ran {
            client,
            server,
            want: true,
        },
    }
}

// What holds of the two ends between which a script was played, line by line or by threads. It does
// nothing: its contract is the law.
fn run_laws()
    ensures joined { (g h : Settings) (lines : List Line) (client server : List Entry) →
        IsPlayed g h lines client server → AreEnds g h client server →
        AreJoined g h client server }
    ensures up { (g h : Settings) (lines : List Line) (client server : List Entry) →
        IsPlayed g h lines client server → AreEnds g h client server →
        IsPrefix (handled server) (made g client) }
    ensures down { (g h : Settings) (lines : List Line) (client server : List Entry) →
        IsPlayed g h lines client server → AreEnds g h client server →
        IsPrefix (handled client) (made h server) }
    ensures client_accuses_nobody { (g h : Settings) (lines : List Line)
        (client server : List Entry) → IsPlayed g h lines client server →
        AreEnds g h client server → AccusesNobody client }
    ensures server_accuses_nobody { (g h : Settings) (lines : List Line)
        (client server : List Entry) → IsPlayed g h lines client server →
        AreEnds g h client server → AccusesNobody server }
{
    played_laws();
    handled_begins_made();
    honest_ends_accuse_nobody()
}

/// Runs a script between a client and a server of which nothing happened yet, by four threads: two
/// make the calls of either end, and two carry bytes. Lines `drop` and `late` do nothing.
///
/// Where `want` is false, the script was played to its end, and then all that was left crossed. Where a
/// thread can't be started none acts, and the script is run by [`scheduled`]; so is one without lines.
pub fn threaded<T: Tape + Drop + Send, R: Threads + Wait + Sync>(
    rt: &R,
    alloc: Global,
    script: &Script,
    client: Session<T>,
    server: Session<T>,
) -> Ran<T>
    requires client_side { client.settings.side ≡ Client }
    requires server_side { server.settings.side ≡ Server }
    requires client_checked { IsChecked client.settings }
    requires server_checked { IsChecked server.settings }
    requires client_fresh { client.entries ≡ [] }
    requires server_fresh { server.entries ≡ [] }
    ensures played { result.want ≡ false → IsPlayed client.settings server.settings
        script.now.lines result.client.entries result.server.entries }

    // The bytes of the two ends crossed, and what each handled is a prefix of what the other made.
    ensures joined { result.want ≡ false → AreJoined client.settings server.settings
        result.client.entries result.server.entries }
    ensures up { result.want ≡ false →
        IsPrefix (handled result.server.entries) (made client.settings result.client.entries) }
    ensures down { result.want ≡ false →
        IsPrefix (handled result.client.entries) (made server.settings result.server.entries) }

    // Neither accuses the other by a rule that depends on no limit of either end.
    ensures client_accuses_nobody { result.want ≡ false → AccusesNobody result.client.entries }
    ensures server_accuses_nobody { result.want ≡ false → AccusesNobody result.server.entries }

    // Where memory ran out too, both ends are as their answers say, and have the headline.
    ensures client_legal { Legal client.settings result.client.entries }
    ensures server_legal { Legal server.settings result.server.entries }
    ensures client_fair { Fair client.settings result.client.entries }
    ensures server_fair { Fair server.settings result.server.entries }
    ensures client_headline { HasHeadline client.settings result.client.entries }
    ensures server_headline { HasHeadline server.settings result.server.entries }
    ensures client { IsSameEnd client result.client }
    ensures server { IsSameEnd server result.server }
{
    let ran = play_by_threads(rt, alloc, script, client, server);
    ran.client.legal();
    ran.server.legal();
    a_session_has_the_headline();
    run_laws();
    ran
}
