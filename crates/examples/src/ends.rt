//! What the examples do with an end, each answer printed.

ghost use Rattle.std.specs.Prelude.{◌≡◌, ◌<◌, ◌≤◌};
ghost use Rattle.rustshuttle.specs.Calls.{CanBeAsked};
ghost use Rattle.rustshuttle.specs.Side.TheVariants.{Client};

use anyhow::Result;
use rustshuttle::{Answer, Blank, Call, Endpoint};
use std::alloc::Global;
use std::io::Print;

/// How many bytes cross at once at most.
pub const ROOM: usize = 1_024;

/// An end, with a tape that only counts what happens.
pub type End = Endpoint<Blank>;

/// Prints what an end answers.
pub fn show(rt: &impl Print, name: &str, answer: &Answer) -> Result<()> {
    println!(rt; "{name}: {answer:?}")?;
    Ok(())
}

/// A client opens a connection.
pub fn connect(rt: &impl Print, client: &mut End) -> Result<()>
    requires { client.old.session.settings.side ≡ Client }
    ensures { client.new.session.settings ≡ client.old.session.settings }
{
    let answer = client.connect();
    show(rt, "client", &answer)
}

/// A caller at an end asks something.
pub fn ask(rt: &impl Print, name: &str, end: &mut End, call: Call) -> Result<()>
    requires { CanBeAsked call }
    ensures { end.new.session.settings ≡ end.old.session.settings }
{
    let answer = end.ask(call);
    show(rt, name, &answer)
}

/// The connection is gone at an end.
pub fn disconnect(rt: &impl Print, name: &str, end: &mut End) -> Result<()>
    ensures { end.new.session.settings ≡ end.old.session.settings }
{
    match end.disconnect() {
        Some(answer) => show(rt, name, &answer),
        None => Ok(()),
    }
}

/// The bytes that go out at an end: `most` of them, 1 to [`ROOM`].
pub fn send(
    rt: &impl Print,
    alloc: Global,
    name: &str,
    end: &mut End,
    most: usize,
) -> Result<Vec<u8>>
    requires some { 0 < most }
    requires few { most ≤ ROOM }
    ensures { end.new.session.settings ≡ end.old.session.settings }
{
    let mut buffer = vec![in alloc; 0; most]?;
    let count = end.draw(&mut buffer)?.len();
    println!(rt; "{name}: {count} bytes go out")?;
    buffer.truncate(count);
    Ok(buffer)
}

/// Bytes come at an end, and the whole frames in them are brought.
pub fn receive(
    rt: &impl Print,
    alloc: Global,
    name: &str,
    end: &mut End,
    bytes: &[u8],
) -> Result<()>
    ensures { end.new.session.settings ≡ end.old.session.settings }
{
    end.feed(bytes)?;
    let mut answers = Vec::new(alloc);
    end.bring_all(&mut answers)?;
    for answer in answers.iter() {
        show(rt, name, answer)?;
    }
    Ok(())
}
