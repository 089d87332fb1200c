//! The program `rsocket`: [`rsocket_run::start`] over standard input and output, the net and the clock
//! of the host, and the routes that a server of it has.
#![tactic(auto)]

use host_net::{HostClock, HostNet};
use outside::{StdSink, StdSource};
use rsocket_output::tell_out_of_memory;
use rsocket_run::start;
use std::process::ExitCode;
use stored_handlers::stored_routes;

fn main(rt: HostRuntime) -> ExitCode {
    let mut input = StdSource::new(rt.stdin());
    let mut output = StdSink::new(rt.stdout());
    let mut net = HostNet::new(rt.alloc(), &rt);
    let clock = HostClock::new(&rt);
    let Ok(routes) = stored_routes(rt.alloc()) else {
        return ExitCode::from(tell_out_of_memory(&mut output));
    };
    ExitCode::from(start(
        &rt,
        &rt,
        rt.alloc(),
        &mut input,
        &mut output,
        &mut net,
        &clock,
        &routes,
    ))
}
