//! Where a link is served.

ghost use Rattle.std.specs.Prelude.{◌≡◌, ◌+◌, ℕ, true, false};

use std::sync::Wait;

/// A place at which one link of a net is served. N is the net, S what all threads share.
pub trait Place<N, S> {
    // No link is at the place yet.
    ghost vacant: { S → Self → Type 0 };

    // A link came to the place, by how the place was before.
    ghost arrived: { S → Self → Self → Type 0 };

    // How a place is left whose link was served, by how it was before the link came.
    ghost served: { S → Self → Self → Type 0 };

    // What one wait in vain did to the net, and to the place.
    ghost missed: { S → N → N → Self → Self → Type 0 };

    // How a net is left by so many waits, of which each gave a link.
    ghost accepted: { S → ℕ → N → N → Type 0 };

    ghost accepted_none: { (s : S) (n : N) → accepted s 0 n n };

    ghost accepted_more: { (s : S) (j k : ℕ) (a b c : N) → accepted s j a b → accepted s k b c
        → accepted s (j + k) a c };

    /// Waits for the next link of the net, once. False where none came: then this is the last wait,
    /// and the place keeps why.
    fn accept(&mut self, net: &mut N, shared: &S) -> bool
        requires { vacant shared.now self.old }
        ensures arrived { result ≡ true → arrived shared.now self.old self.new }
        ensures accepted { result ≡ true → accepted shared.now 1 net.old net.new }
        ensures missed { result ≡ false → missed shared.now net.old net.new self.old self.new };

    /// Serves the link that came, to its end.
    fn serve<R: Wait>(&mut self, rt: &R, shared: &S)
        requires { (p : Self) × arrived shared.now p self.old }
        ensures { (p : Self) → arrived shared.now p self.old → served shared.now p self.new };
}
