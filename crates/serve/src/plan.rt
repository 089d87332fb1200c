//! What a server is to do, and what it answers.

ghost use Rattle.std.specs.Prelude.{◌≡◌};

use rs_wire::Amount;
use server::Served;
use std::marker::Model;
use thiserror::Error;

/// What a server is to do.
#[derive(Clone, Copy, Debug, PartialEq, Eq)]
pub struct ServePlan {
    /// How many links it serves, each with a connection of its own, from 1 to 64.
    pub connections: u32,
    /// How many workers each connection has, from 1 to 16.
    pub workers: u32,
    /// Whether links are accepted over WebSocket, and else over TCP.
    pub ws: bool,
    /// How many requests each client is granted after an opening, where some are.
    pub grant: Option<Amount>,
}

/// Why a server did not serve all its links.
#[derive(Clone, Copy, Debug, PartialEq, Eq, Error)]
pub enum ServeFault {
    /// The net failed, which it counted. The links that were accepted before are served to their end.
    #[error("the net failed")]
    Net,
    /// There was not enough memory.
    #[error("out of memory")]
    OutOfMemory,
}

/// How each link was served, in the order in which they were accepted.
#[derive(Debug, Drop)]
pub struct ServedList {
    list: Vec<Served>,
}

impl Model for ServedList {
    ghost use Rattle.std.specs.Prelude.{List};
    ghost use Rattle.server.specs.declared.served.Served.{Served};

    ghost Value = { List Served };

    ghost view = { λ l. l.list.items };
}

impl ServedList {
    /// The list of these.
    pub fn from_vec(list: Vec<Served>) -> ServedList
        ensures { result ≡ list.items }
    {
        ServedList { list }
    }

    /// How each link was served.
    pub fn as_slice(&self) -> &[Served]
        ensures { result.now ≡ self.now }
    {
        self.list.as_slice()
    }

    /// The same as a `Vec`.
    pub fn into_vec(self) -> Vec<Served>
        ensures { result.items ≡ self }
    {
        self.list
    }
}
