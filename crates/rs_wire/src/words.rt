//! The words for the two ends, for the two ways of a stream, its kinds and the parts of its ends.

/// An end of a session. The client opened the connection (RSocket 1.0, "Terminology").
#[derive(Clone, Copy, Debug, PartialEq, Eq)]
pub enum Side {
    /// The end that opened the connection.
    Client,
    /// The end that accepted it.
    Server,
}

/// A direction of a stream: from the requester to the responder, or back.
#[derive(Clone, Copy, Debug, PartialEq, Eq)]
pub enum Way {
    /// From the requester to the responder.
    Request,
    /// From the responder to the requester.
    Reply,
}

/// The interaction that a stream carries (RSocket 1.0, "Request").
#[derive(Clone, Copy, Debug, PartialEq, Eq)]
pub enum Kind {
    /// One request, one response.
    Response,
    /// One request, and no answer: fire-and-forget.
    Fnf,
    /// One request, a stream of payloads back.
    Stream,
    /// Streams of payloads in both directions.
    Channel,
}

/// The part of an end in a stream (RSocket 1.0, "Terminology").
#[derive(Clone, Copy, Debug, PartialEq, Eq)]
pub enum Role {
    /// The end that made the request.
    Requester,
    /// The end that answers it.
    Responder,
}
