//! The jobs of a worker.

ghost use Rattle.std.specs.Prelude.{◌≡◌, [], length};

use crate::job::OpenJob;
use std::alloc::Global;
use std::marker::Model;

/// The jobs that a worker got and has not finished, in the order in which it got them. Contracts see
/// the list: each with its request, its route where it has one, how many replies were accepted, and
/// what is to be answered next.
#[derive(Debug, Drop)]
pub struct Work {
    /// The jobs.
    pub(crate) jobs: Vec<OpenJob>,
}

impl Model for Work {
    ghost use Rattle.std.specs.Prelude.{List};
    ghost use Rattle.workers.specs.declared.job.OpenJob.{OpenJob};

    ghost Value = { List OpenJob };

    ghost view = { λ w. w.jobs.items };
}

impl Work {
    /// No job.
    pub fn new(alloc: Global) -> Work
        ensures { result ≡ [] }
    {
        Work {
            jobs: Vec::new(alloc),
        }
    }

    /// How many jobs there are.
    pub fn len(&self) -> usize
        ensures { result ≡ length self.now }
    {
        self.jobs.len()
    }
}
