//! A session that outlives its connection: two requests, a cut in the middle of the second one, and
//! a resumption, after which the server has both, each once.

ghost use Rattle.std.specs.Prelude.{◌≡◌, IfOk};
ghost use Rattle.rustshuttle.specs.Side.TheVariants.{Client};

use crate::ends::{End, ROOM, ask, connect, disconnect, receive, send};
use anyhow::Result;
use rustshuttle::{
    Blank, Blob, Checked, Endpoint, OutOfMemory, Settings, Side, check, fire_and_forget, take_job,
};
use std::alloc::Global;
use std::io::Print;

/// The token by which the session is resumed.
const TOKEN: &[u8] = b"tok1";

/// How many bytes cross before the first connection is gone: 77 of SETUP with its length, 12 of the
/// first request, and 5 of the second.
const CROSSED: usize = 94;

// The token of an end. It is the client's, in whose SETUP it stands; a server has none of its own.
fn token(alloc: Global, side: Side) -> Result<Blob, OutOfMemory> {
    match side {
        Side::Client => Blob::from_slice(alloc, TOKEN),
        Side::Server => Ok(Blob::from_vec(Vec::new(alloc))),
    }
}

// The settings of an end that resumes.
fn resuming(alloc: Global, side: Side) -> Result<Checked>
    ensures { IfOk result (λ s. s.side ≡ side) }
{
    let mut settings = Settings::usual(alloc, side)?;
    settings.resume = true;
    settings.token = token(alloc, side)?;
    let settings = check(settings).map_err(|(_, fault)| fault)?;
    Ok(settings)
}

// An end at which nothing happened yet, which agrees to resumption.
fn new_end(alloc: Global, side: Side) -> Result<End>
    ensures { IfOk result (λ e. e.session.settings.side ≡ side) }
{
    let end = Endpoint::new(alloc, resuming(alloc, side)?, Blank::new());
    Ok(end.map_err(|(_, error)| error)?)
}

// A caller at a client asks for something to which nothing is answered.
fn call(rt: &impl Print, alloc: Global, client: &mut End, content: &[u8]) -> Result<()>
    ensures { client.new.session.settings ≡ client.old.session.settings }
{
    let content = Blob::from_slice(alloc, content)?;
    ask(rt, "client", client, fire_and_forget(content))
}

// The client opens connection 1 and makes two requests. Not all of the second one crosses.
fn begin(rt: &impl Print, alloc: Global, client: &mut End) -> Result<Vec<u8>>
    requires { client.old.session.settings.side ≡ Client }
    ensures { client.new.session.settings ≡ client.old.session.settings }
{
    connect(rt, client)?;
    call(rt, alloc, client, b"one")?;
    call(rt, alloc, client, b"two")?;
    send(rt, alloc, "client", client, CROSSED)
}

// The client opens connection 2, and says by RESUME up to which position it handled what the server
// made, and from which on it holds what it made itself.
fn ask_to_resume(rt: &impl Print, alloc: Global, client: &mut End) -> Result<Vec<u8>>
    requires { client.old.session.settings.side ≡ Client }
{
    connect(rt, client)?;
    send(rt, alloc, "client", client, ROOM)
}

// The server accepts, and says by RESUME_OK up to which position it handled what the client made.
fn agree(rt: &impl Print, alloc: Global, server: &mut End, bytes: &[u8]) -> Result<Vec<u8>> {
    server.accept();
    receive(rt, alloc, "server", server, bytes)?;
    send(rt, alloc, "server", server, ROOM)
}

// The client sends again what the server did not handle: the second request alone.
fn go_on(rt: &impl Print, alloc: Global, client: &mut End, bytes: &[u8]) -> Result<Vec<u8>> {
    receive(rt, alloc, "client", client, bytes)?;
    send(rt, alloc, "client", client, ROOM)
}

// The server takes both requests, and there is no third.
fn take_all(rt: &impl Print, alloc: Global, server: &mut End, bytes: &[u8]) -> Result<()> {
    receive(rt, alloc, "server", server, bytes)?;
    for _ in 0..3 {
        ask(rt, "server", server, take_job())?;
    }
    Ok(())
}

// The whole session, between two ends at which nothing happened yet.
fn run_between(rt: &impl Print, alloc: Global, client: &mut End, server: &mut End) -> Result<()>
    requires { client.old.session.settings.side ≡ Client }
{
    let crossed = begin(rt, alloc, client)?;
    receive(rt, alloc, "server", server, &crossed)?;
    disconnect(rt, "client", client)?;
    disconnect(rt, "server", server)?;
    let resume = ask_to_resume(rt, alloc, client)?;
    let accepted = agree(rt, alloc, server, &resume)?;
    let again = go_on(rt, alloc, client, &accepted)?;
    take_all(rt, alloc, server, &again)
}

// The same, of a client and a new server.
fn run_with(rt: &impl Print, alloc: Global, client: &mut End) -> Result<()>
    requires { client.old.session.settings.side ≡ Client }
{
    let mut server = new_end(alloc, Side::Server)?;
    let ran = run_between(rt, alloc, client, &mut server);
    drop(server);
    ran
}

/// The whole example.
pub fn run(rt: &impl Print, alloc: Global) -> Result<()> {
    let mut client = new_end(alloc, Side::Client)?;
    let ran = run_with(rt, alloc, &mut client);
    drop(client);
    ran
}
