//! The last line of a server.

ghost use Rattle.std.specs.Prelude.{◌≡◌, ◌++◌, OnOk};
ghost use Rattle.rsocket_serve.specs.Came.{IsTold, TellsServed};
ghost use Rattle.rsocket_serve.specs.Served.{served_line};

use outside::Sink;
use plain_text::{write_number, write_text};
use rs_wire::OutOfMemory;
use rsocket_output::{say, tell_out_of_memory};
use serve::{ServeFault, ServedList};
use std::alloc::Global;

/// The status of a server whose net failed.
const LINK_FAULT: u8 = 8;

// Appends the line that says how many connections were served.
fn put_served(line: &mut Vec<u8>, connections: u32) -> Result<(), OutOfMemory>
    ensures { OnOk result (line.new.items ≡ line.old.items ++ served_line connections) }
{
    write_text(line, "served ")?;
    write_number(line, connections.into())?;
    line.push(b'\n')?;
    Ok(())
}

// Says that so many connections were served. The status.
fn tell_served<O: Sink>(alloc: Global, output: &mut O, connections: u32) -> u8
    ensures { IsTold (served_line connections) 0 (O.shown output.old) (O.shown output.new) result }
{
    let mut line = Vec::new(alloc);
    match put_served(&mut line, connections) {
        Ok(()) => say(output, &line, 0),
        Err(OutOfMemory) => tell_out_of_memory(output),
    }
}

/// Writes the last line of a server of so many connections that served so. The status.
pub fn tell<O: Sink>(
    alloc: Global,
    output: &mut O,
    connections: u32,
    served: Result<ServedList, ServeFault>,
) -> u8
    ensures { TellsServed connections served (O.shown output.old) (O.shown output.new) result }
{
    match served {
        Ok(_list) => tell_served(alloc, output, connections),
        Err(ServeFault::Net) => say(output, b"rsocket: link fault\n", LINK_FAULT),
        Err(ServeFault::OutOfMemory) => tell_out_of_memory(output),
    }
}
