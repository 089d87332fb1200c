//! What is told of when handlers run.

/// What is told before and after each reply of a worker, outside the connection's lock. A program
/// counts or times its handlers by it, and a test holds one of them back.
pub trait Gate {
    /// The next reply on this stream is about to be made, by the handler where there is one.
    fn before(&self, stream: u32);

    /// The reply on this stream was accepted or refused, or none was to be made.
    fn after(&self, stream: u32);
}

/// A gate that does nothing.
#[derive(Clone, Copy, Debug)]
pub struct OpenGate;

impl Gate for OpenGate {
    fn before(&self, _stream: u32) {}

    fn after(&self, _stream: u32) {}
}
