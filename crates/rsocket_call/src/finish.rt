//! The end of a call: its link goes back to the net, and its tape to the shelf.

ghost use Rattle.std.specs.Prelude.{◌≡◌, ◌<◌, ◌+◌, ◌∷◌, [], IfSome};
ghost use Rattle.conn_lock.specs.Callers.{all_parts};
ghost use Rattle.client.specs.Alone.{IsOwn};
ghost use Rattle.client.specs.Clients.{PutsBack};
ghost use Rattle.rsocket_call.specs.Ended.{GotTape};

use client::Client;
use conn::{Caller, Connection};
use outside::Net;
use session_core::Session;
use tape::{Shelf, Tape};

// Puts the tape of a session back.
fn keep<H: Shelf>(session: Session<H::Tape>, shelf: &mut H)
    requires lent { 0 < H.lent shelf.old }
    ensures tape { GotTape session.settings session.tells session.entries
        (H.back shelf.old) (H.back shelf.new) }
    ensures lent { H.lent shelf.new + 1 ≡ H.lent shelf.old }
{
    session.legal();
    shelf.put_back(session.into_tape());
}

/// Puts the link of a client back, where it has one, and the tape of its session, whose only caller it
/// had.
pub fn finish<N: Net, H: Shelf>(client: Client<N, H::Tape>, net: &mut N, shelf: &mut H)
    requires of { client.caller.of ≡ client.of }
    requires first { (client.caller.number ≡ 0) × (client.caller.names ≡ 0 ∷ []) }
    requires parts { client.caller.parts ≡ all_parts }
    requires link { IfSome client.link (λ link. 0 < N.out net.old) }
    requires lent { 0 < H.lent shelf.old }
    ensures own { IsOwn client.caller }
    ensures tape { GotTape client.of.settings client.of.tells client.caller.front
        (H.back shelf.old) (H.back shelf.new) }
    ensures lent { H.lent shelf.new + 1 ≡ H.lent shelf.old }
    ensures back { PutsBack client.link (N.back net.old) (N.back net.new) }
    ensures faults { N.faults net.new ≡ N.faults net.old }
    ensures asked { N.asked net.new ≡ N.asked net.old }
{
    match client.finish(net) {
        Ok(session) => keep(session, shelf),
        Err(_client) => unreachable!(),
    }
}

/// Puts the tape of a session back on which no client began.
pub fn put_away<H: Shelf>(connection: Connection<H::Tape>, caller: Caller<H::Tape>, shelf: &mut H)
    requires of { caller.of ≡ connection }
    requires first { (caller.number ≡ 0) × (caller.names ≡ 0 ∷ []) }
    requires parts { caller.parts ≡ all_parts }
    requires lent { 0 < H.lent shelf.old }
    ensures own { IsOwn caller }
    ensures tape { GotTape caller.of.settings caller.of.tells caller.front
        (H.back shelf.old) (H.back shelf.new) }
    ensures lent { H.lent shelf.new + 1 ≡ H.lent shelf.old }
{
    match connection.close(caller) {
        Ok(session) => keep(session, shelf),
        Err((_connection, _caller)) => unreachable!(),
    }
}
