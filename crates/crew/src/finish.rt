//! Work that is done when all links have ended.

ghost use Rattle.std.specs.Prelude.{List};

use std::sync::Wait;

/// What is done once, when all links have ended. P is a place, S what all threads share.
pub trait Finish<P, S> {
    // It may be done over these places.
    ghost ready: { S → Self → List P → Type 0 };

    // How it and the places are left, by how both were before.
    ghost done: { S → Self → List P → Self → List P → Type 0 };

    /// Does it. The places are as the links left them.
    fn finish<R: Wait>(&mut self, rt: &R, shared: &S, places: &mut [P])
        requires { ready shared.now self.old places.old }
        ensures { done shared.now self.old places.old self.new places.new };
}
