//! The words of a call.

ghost use Rattle.std.specs.Prelude.{◌≡◌, IfOk};
ghost use Rattle.cable_script.specs.Words.{IsWellSpelled, call_of};

use crate::words::payload::{Payload, bytes};
use rs_wire::{Amount, Call, Kind, OutOfMemory};
use std::alloc::Global;

/// The words of a call.
#[derive(Clone, Copy)]
pub(crate) enum Asked<'a> {
    Request {
        kind: Kind,
        initial: Option<Amount>,
        payload: Payload<'a>,
        complete: bool,
    },
    Next {
        stream: u32,
        payload: Payload<'a>,
        complete: bool,
    },
    Done {
        stream: u32,
    },
    Grant {
        stream: u32,
        n: Amount,
    },
    Cancel {
        stream: u32,
    },
    Fail {
        stream: u32,
        code: u32,
        content: &'a [u8],
    },
    Push {
        metadata: &'a [u8],
    },
    Lease {
        ttl: Amount,
        count: Amount,
    },
    Take {
        stream: u32,
    },
    TakeJob,
    Close,
}

impl Asked<'_> {
    /// The call of these words.
    pub(crate) fn call(&self, alloc: Global) -> Result<Call, OutOfMemory>
        requires { IsWellSpelled self.now }
        ensures { IfOk result (λ call. call ≡ call_of self.now) }
    {
        Ok(match self {
            Asked::Request {
                kind,
                initial,
                payload,
                complete,
            } => Call::Request {
                kind: *kind,
                initial: *initial,
                message: payload.message(alloc)?,
                complete: *complete,
            },
            Asked::Next {
                stream,
                payload,
                complete,
            } => Call::Next {
                stream: *stream,
                message: payload.message(alloc)?,
                complete: *complete,
            },
            Asked::Done { stream } => Call::Done { stream: *stream },
            Asked::Grant { stream, n } => Call::Grant {
                stream: *stream,
                n: *n,
            },
            Asked::Cancel { stream } => Call::Cancel { stream: *stream },
            Asked::Fail {
                stream,
                code,
                content,
            } => Call::Fail {
                stream: *stream,
                code: *code,
                content: bytes(alloc, content)?,
            },
            Asked::Push { metadata } => Call::Push {
                metadata: bytes(alloc, metadata)?,
            },
            Asked::Lease { ttl, count } => Call::Lease {
                ttl: *ttl,
                count: *count,
                metadata: None,
            },
            Asked::Take { stream } => Call::Take { stream: *stream },
            Asked::TakeJob => Call::TakeJob,
            Asked::Close => Call::Close,
        })
    }
}
