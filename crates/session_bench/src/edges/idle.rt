//! Links over which nothing goes.

use crate::edges::sockets::{TcpSide, client_over, two_sockets};
use anyhow::{Result, ensure};
use std::alloc::Global;
use std::net::{Net, TcpListener, TcpStream};
use std::sync::Wait;
use std::thread::{JoinHandle, Threads, sleep, spawn};
use std::time::{Clock, CpuClock, Duration, Instant};

/// How many milliseconds the links have to begin before the time that counts, and stand after it: what
/// it takes to make and to drop them is not theirs as idle ones.
const MARGIN: u64 = 300;

// Turns for so long. Whether the link stood.
fn turn_for<R: Wait + Clock>(rt: &R, client: &mut TcpSide, millis: u64) -> bool {
    let Ok(start) = Instant::now(rt) else {
        return false;
    };
    for _ in 0..u64::MAX {
        match start.elapsed(rt) {
            Ok(passed) if passed.as_millis() < u128::from(millis) => {}
            _ => break,
        }
        if client.turn(rt).is_err() {
            return false;
        }
    }
    true
}

// How many thousandths of a processor this process takes while so many milliseconds pass.
fn used_in<R: Clock + CpuClock>(rt: &R, millis: u64) -> Result<u128> {
    let start = Instant::now(rt)?;
    let before = rt.process_cpu_time()?;
    sleep(rt, Duration::from_millis(millis));
    let used = rt.process_cpu_time()?.saturating_sub(before).as_nanos();
    Ok(used / start.elapsed(rt)?.as_micros().max(1))
}

// A link over which nothing goes for so long. Whether it stood.
fn stand<R: Net + Wait + Clock>(rt: &R, alloc: Global, socket: TcpStream, millis: u64) -> bool {
    match client_over(rt, alloc, socket) {
        Ok(mut client) => {
            let stood = turn_for(rt, &mut client, millis);
            client.close();
            stood
        }
        Err(_) => false,
    }
}

/// Links that are idle: the threads of their clients, and the sockets of the other ends.
struct Idle {
    threads: Vec<JoinHandle<bool>>,
    fars: Vec<TcpStream>,
}

impl Idle {
    // Adds so many links, which are idle for so long, each with a thread of its own.
    fn add<R>(&mut self, rt: R, alloc: Global, links: u32, millis: u64) -> Result<()>
    where
        R: Net<Listener = TcpListener, Stream = TcpStream>
            + Threads
            + Wait
            + Clock
            + Send
            + Copy
            + Drop
            + 'static,
    {
        for _ in 0..links {
            let (near, far) = two_sockets(&rt)?;
            self.fars.push(far)?;
            let thread = spawn(&rt, move || stand(&rt, alloc, near, millis))?;
            self.threads.push(thread)?;
        }
        Ok(())
    }

    // Waits until none is idle any more. How many of them stood.
    fn join<R: Threads + Wait>(self, rt: &R) -> u32 {
        let Idle { threads, fars } = self;
        let mut stood = 0u32;
        for thread in threads {
            if thread.join(rt) {
                stood = stood.saturating_add(1);
            }
        }
        drop(fars);
        stood
    }
}

/// So many links are idle for so many milliseconds, each with a pump and a thread of its own. How many
/// thousandths of a processor that took.
pub fn wait<R>(rt: R, alloc: Global, links: u32, millis: u64) -> Result<u128>
where
    R: Net<Listener = TcpListener, Stream = TcpStream>
        + Threads
        + Wait
        + Clock
        + CpuClock
        + Send
        + Copy
        + Drop
        + 'static,
{
    let mut idle = Idle {
        threads: Vec::new(alloc),
        fars: Vec::new(alloc),
    };
    let added = idle.add(rt, alloc, links, millis.saturating_add(2 * MARGIN));
    sleep(&rt, Duration::from_millis(MARGIN));
    let used = used_in(&rt, millis);
    let stood = idle.join(&rt);
    added?;
    ensure!(stood == links, "{stood} of {links} links stood");
    used
}
