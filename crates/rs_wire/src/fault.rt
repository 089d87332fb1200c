//! Why something is refused, and why a session is closed.

ghost use Rattle.std.specs.Prelude.{◌≡◌};
ghost use Rattle.rs_wire.specs.Words.{gone_word, rule_word, setup_word};

use thiserror::Error;

/// Why a call is refused. Nothing changes but the tape, which has the call and this answer.
#[derive(Clone, Copy, Debug, PartialEq, Eq, Error)]
pub enum Refusal {
    /// The session is closed, for this cause.
    #[error("the session is closed: {0}")]
    Closed(Cause),
    /// The stream id is 0, or above every id that was used (RSocket 1.0, "Stream Identifiers").
    #[error("there is no stream of that id yet")]
    UnknownStream,
    /// The stream is over, or the way that the call names is, or there was no stream of that id and there
    /// will be none.
    #[error("the stream is over")]
    Ended,
    /// The stream has no such way: who asks a response sends nothing more, and nobody grants it items.
    #[error("the stream has no such way")]
    WrongKind,
    /// The message has this many bytes, more than the settings allow.
    #[error("the message has {0} bytes, more than the settings allow")]
    TooLarge(u64),
    /// All of the items that were granted, of which it carries the number, are sent (RSocket 1.0,
    /// "REQUEST_N Frame").
    #[error("all of the {0} items that were granted are sent")]
    NoCredit(u128),
    /// All requests of the peer's last LEASE, of which it carries the number, are made; 0 where none came on
    /// this connection (RSocket 1.0, "Lease Semantics").
    #[error("all {0} requests that the peer's lease allows are made")]
    NoLease(u32),
    /// The peer's last LEASE is over since this moment, in milliseconds (RSocket 1.0, "Lease
    /// Semantics").
    #[error("the peer's lease is over since {0} ms")]
    LeaseOver(u64),
    /// Every stream id of this end that the settings allow is used (RSocket 1.0, "Stream
    /// Identifiers").
    #[error("every stream id of this end is used")]
    IdsGone,
    /// As many streams as the settings allow, which is this number, are not over.
    #[error("{0} streams are open, as many as the settings allow")]
    TooManyStreams(u32),
    /// The session is not begun, so there is nothing to send on; or, of what is sent on a connection
    /// alone, there is none that carries it.
    #[error("the session has no connection yet")]
    NotConnected,
    /// This many bytes are queued already, and what the call makes would pass the limit.
    #[error("{0} bytes are queued already, and the call would pass the limit")]
    OutFull(u64),
    /// The position of the frames made would pass the top position of the settings.
    #[error("the frames made would pass the top position")]
    PositionSpent,
}

/// The rule of the protocol that what came breaks. The session is closed by it.
#[derive(Clone, Copy, Debug, PartialEq, Eq, Error)]
pub enum Rule {
    /// A frame of a type that this end does not know, which it carries, and that may not be ignored
    /// (RSocket 1.0, "Frame Header Format").
    #[error("a frame came of type {0}, which is unknown")]
    UnknownType(u8),
    /// A frame that may not come now.
    #[error("a frame came that may not come now")]
    NotNow,
    /// A request's stream id, which it carries, is not of the peer's parity or not above its
    /// highest (RSocket 1.0, "Stream Identifiers").
    #[error("a request came on stream {0}, which is not the peer's next")]
    StreamId(u32),
    /// An item came that was not granted. The number is how many were granted (RSocket 1.0, "REQUEST_N
    /// Frame").
    #[error("an item came after all of the {0} that were granted")]
    OverCredit(u128),
    /// A message has this many bytes, more than the settings allow.
    #[error("a message came of {0} bytes, more than the settings allow")]
    TooLarge(u64),
    /// A KEEPALIVE tells a position above this one, where the frames made end, in bytes (RSocket 1.0,
    /// "KEEPALIVE Frame").
    #[error("a KEEPALIVE tells a position above {0}, where the frames made end")]
    Ahead(u64),
    /// The position of the frames handled would pass the top position of the settings.
    #[error("the frames handled would pass the top position")]
    PositionSpent,
    /// The bytes spell no frame: the number of the least rule that they break, from 1 to 9, or 10
    /// for a frame longer than the settings allow.
    #[error("bytes came that are no frame, by rule {0}")]
    BadFrame(u8),
}

impl Rule {
    /// The word of the rule, which is the content of the ERROR that answers its breach.
    pub fn word(self) -> &'static str
        ensures { result.now ≡ rule_word self }
    {
        match self {
            Rule::UnknownType(_) => "unknown-type",
            Rule::NotNow => "not-now",
            Rule::StreamId(_) => "stream-id",
            Rule::OverCredit(_) => "over-credit",
            Rule::TooLarge(_) => "too-large",
            Rule::Ahead(_) => "ahead",
            Rule::PositionSpent => "position-spent",
            Rule::BadFrame(_) => "bad-frame",
        }
    }
}

/// What is wrong with the first frame of a connection (RSocket 1.0, "Setup").
#[derive(Clone, Copy, Debug, PartialEq, Eq, Error)]
pub enum SetupFault {
    /// The first frame is no SETUP.
    #[error("the first frame is no SETUP")]
    NotFirst,
    /// The major and the minor version of the protocol, where the major is not 1.
    #[error("the version is {0}.{1}, and not 1")]
    BadVersion(u16, u16),
    /// SETUP asks for resumption, and the settings have none.
    #[error("SETUP asks for resumption, and this end has none")]
    NoResume,
    /// SETUP asks for leases, and the settings have none.
    #[error("SETUP asks for leases, and this end has none")]
    NoLease,
    /// Another session has the token.
    #[error("another session has the token")]
    TokenTaken,
}

impl SetupFault {
    /// The word of the fault, which is the content of the ERROR that refuses the connection.
    pub fn word(self) -> &'static str
        ensures { result.now ≡ setup_word self }
    {
        match self {
            SetupFault::NotFirst => "not-first",
            SetupFault::BadVersion(_, _) => "bad-version",
            SetupFault::NoResume => "no-resume",
            SetupFault::NoLease => "no-lease",
            SetupFault::TokenTaken => "token-taken",
        }
    }
}

/// Why a session cannot be resumed (RSocket 1.0, "Resuming Operation").
#[derive(Clone, Copy, Debug, PartialEq, Eq, Error)]
pub enum Gone {
    /// The major version of RESUME, which is not 1.
    #[error("the major version is {0}, and not 1")]
    Version(u16),
    /// The token is that of no session.
    #[error("the token is that of no session")]
    Token,
    /// The server holds its frames only from this position, in bytes, on.
    #[error("the server holds its frames only from position {0} on")]
    ServerGone(u64),
    /// The peer names a position above this one, where the frames made end, in bytes.
    #[error("the peer tells a position above {0}, where the frames made end")]
    Ahead(u64),
    /// No frame ends at the position that the peer names.
    #[error("no frame ends at the position that the peer tells")]
    NotBoundary,
    /// The frames that the client holds, or that the server has handled, do not reach this
    /// position, in bytes: some between them are lost.
    #[error("the client's frames are lost at position {0}")]
    ClientGone(u64),
}

impl Gone {
    /// The word of the refusal, which is the content of the ERROR that refuses the resumption.
    pub fn word(self) -> &'static str
        ensures { result.now ≡ gone_word self }
    {
        match self {
            Gone::Version(_) => "version",
            Gone::Token => "token",
            Gone::ServerGone(_) => "server-gone",
            Gone::Ahead(_) => "ahead",
            Gone::NotBoundary => "not-boundary",
            Gone::ClientGone(_) => "client-gone",
        }
    }
}

/// Why a session is closed.
#[derive(Clone, Copy, Debug, PartialEq, Eq, Error)]
pub enum Cause {
    /// A caller closed it.
    #[error("a caller closed it")]
    Local,
    /// The peer closed it by an ERROR of this code (RSocket 1.0, "Error Codes").
    #[error("the peer closed it by error {0}")]
    Peer(u32),
    /// The peer broke a rule.
    #[error("the peer broke a rule: {0}")]
    Broken(Rule),
    /// The session could not be resumed: the position of RESUME_OK was refused.
    #[error("the session cannot be resumed: {0}")]
    Resume(Gone),
    /// The connection was cut, and resumption was not agreed.
    #[error("the connection was cut")]
    Cut,
    /// Nothing came from the peer for the lifetime of the connection, and resumption was not agreed
    /// (RSocket 1.0, "KEEPALIVE Frame").
    #[error("nothing came from the peer for too long")]
    Dead,
    /// The first frame was refused.
    #[error("the first frame was refused: {0}")]
    Setup(SetupFault),
}
