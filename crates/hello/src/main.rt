//! Two ends of a session in one process: a client makes a request, and the server gets it.
#![tactic(auto)]

use anyhow::Result;
use rustshuttle::{Blob, client, fire_and_forget, server, take_job};

fn main(rt: HostRuntime) -> Result<()> {
    let alloc = rt.alloc();
    let mut client = client(alloc)?;
    let mut server = server(alloc)?;

    // The client connects and asks; its bytes wait to go out.
    println!(rt; "client: {:?}", client.connect())?;
    let hi = Blob::from_slice(alloc, b"hi")?;
    println!(rt; "client: {:?}", client.ask(fire_and_forget(hi)))?;

    // They cross, here in a buffer, and the frames in them come at the server.
    let mut buffer = [0; 1024];
    server.feed(client.draw(&mut buffer)?)?;
    let mut answers = Vec::new(alloc);
    server.bring_all(&mut answers)?;
    for answer in answers.iter() {
        println!(rt; "server: {answer:?}")?;
    }
    println!(rt; "server: {:?}", server.ask(take_job()))?;
    Ok(())
}
