//! Work that a thread does.

use std::sync::Wait;

/// Work that a thread does once. S is what all threads share.
pub trait Task<S> {
    // The task may be done.
    ghost ready: { S → Self → Type 0 };

    // How a task is left that was done, by how it was before.
    ghost done: { S → Self → Self → Type 0 };

    /// Does the task.
    fn run<R: Wait>(&mut self, rt: &R, shared: &S)
        requires { ready shared.now self.old }
        ensures { done shared.now self.old self.new };
}
