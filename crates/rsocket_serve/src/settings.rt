//! What the words make of a server's settings and of its plan.

ghost use Rattle.std.specs.Prelude.{◌≡◌, IfOk};
ghost use Rattle.rsocket_serve.specs.Served.{plan_for, settings_for};

use command_line::ServeTask;
use rs_wire::{Checked, OutOfMemory, Settings, Side, check};
use serve::ServePlan;
use std::alloc::Global;

/// The settings of the server's sessions. They are right, as the words are; out of memory where not.
pub fn settings(alloc: Global, task: &ServeTask) -> Result<Checked, OutOfMemory>
    ensures { IfOk result (λ s. s ≡ settings_for task.now) }
{
    let mut settings = Settings::usual(alloc, Side::Server)?;
    settings.lease = task.lease.is_some();
    settings.resume = task.resume;
    match check(settings) {
        Ok(settings) => Ok(settings),
        Err(_) => Err(OutOfMemory),
    }
}

/// How many links are served, and how.
pub fn plan(task: &ServeTask) -> ServePlan
    ensures { result ≡ plan_for task.now }
{
    ServePlan {
        connections: task.connections,
        workers: task.workers,
        ws: task.ws,
        grant: task.lease,
    }
}
