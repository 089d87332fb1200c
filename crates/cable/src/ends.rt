//! The two ends of a run, over tapes that a shelf lends.

ghost use Rattle.std.specs.Prelude.{◌≡◌, ◌+◌, [], IfErr, IfOk, OnErr, OnOk, is_some};
ghost use Rattle.rs_wire.specs.Settings.{IsChecked};
ghost use Rattle.session_core.specs.Seen.{told_by};
ghost use Rattle.cable_script.specs.Setting.{settings_by};
ghost use Rattle.cable.specs.Played.{Sides};
ghost use Rattle.cable.specs.Shelves.{GotTapes, IsEnd, sides_by};

use cable_script::Script;
use rs_wire::{Checked, OutOfMemory, Side};
use session_core::Session;
use std::alloc::Global;
use tape::{Shelf, Tape};

// A tape for the client, and one for the server. Where memory runs out, none is lent.
fn lend_both<H: Shelf>(shelf: &mut H) -> Result<(H::Tape, H::Tape), OutOfMemory>
    ensures empty { IfOk result (λ tapes.
        (H.Tape.count tapes.0 ≡ 0) × (H.Tape.count tapes.1 ≡ 0)) }
    ensures fresh { IfOk result (λ tapes.
        (H.Tape.told tapes.0 ≡ H.fresh) × (H.Tape.told tapes.1 ≡ H.fresh)) }
    ensures back { OnOk result (H.back shelf.new ≡ H.back shelf.old) }
    ensures lent { OnOk result (H.lent shelf.new ≡ H.lent shelf.old + 2) }
    ensures err { OnErr result (H.lent shelf.new ≡ H.lent shelf.old) }
    ensures got { (s : Sides) →
        OnErr result (GotTapes s H.fresh (H.back shelf.old) (H.back shelf.new)) }
{
    let client = shelf.lend(Side::Client)?;
    match shelf.lend(Side::Server) {
        Ok(server) => Ok((client, server)),
        Err(OutOfMemory) => {
            shelf.put_back(client);
            Err(OutOfMemory)
        }
    }
}

// Sessions of a client and of a server over these empty tapes. Where memory runs out, the tapes come
// back.
fn sessions<T: Tape>(
    alloc: Global,
    client: Checked,
    server: Checked,
    tapes: (T, T),
) -> Result<(Session<T>, Session<T>), (T, T)>
    requires client { IsChecked client }
    requires server { IsChecked server }
    requires empty { (T.count tapes.0 ≡ 0) × (T.count tapes.1 ≡ 0) }
    ensures client { IfOk result (λ ends. IsEnd client (T.told tapes.0) [] ends.0) }
    ensures server { IfOk result (λ ends. IsEnd server (T.told tapes.1) [] ends.1) }
    ensures back { IfErr result (λ e.
        (T.told e.0 ≡ told_by (is_some (T.told tapes.0)) []) ×
        (T.told e.1 ≡ told_by (is_some (T.told tapes.1)) [])) }
{
    let (client_tape, server_tape) = tapes;
    let client = match Session::new(alloc, client, client_tape) {
        Ok(client) => client,
        Err((client_tape, OutOfMemory)) => return Err((client_tape, server_tape)),
    };
    match Session::new(alloc, server, server_tape) {
        Ok(server) => Ok((client, server)),
        Err((server_tape, OutOfMemory)) => Err((client.into_tape(), server_tape)),
    }
}

/// The client and the server of a run of this script, of which nothing happened yet. Where memory
/// runs out, as many tapes are lent as before.
pub fn both_ends<H: Shelf>(
    alloc: Global,
    script: &Script,
    shelf: &mut H,
) -> Result<(Session<H::Tape>, Session<H::Tape>), OutOfMemory>
    ensures client { IfOk result (λ ends.
        IsEnd (settings_by Side.Client script.now.settings) H.fresh [] ends.0) }
    ensures server { IfOk result (λ ends.
        IsEnd (settings_by Side.Server script.now.settings) H.fresh [] ends.1) }
    ensures checked { IfOk result (λ ends.
        IsChecked ends.0.settings × IsChecked ends.1.settings) }
    ensures back { OnOk result (H.back shelf.new ≡ H.back shelf.old) }
    ensures lent { OnOk result (H.lent shelf.new ≡ H.lent shelf.old + 2) }
    ensures err { OnErr result (H.lent shelf.new ≡ H.lent shelf.old) }
    ensures got { OnErr result (GotTapes (sides_by script.now.settings) H.fresh
        (H.back shelf.old) (H.back shelf.new)) }
{
    let client = script.settings(alloc, Side::Client)?;
    let server = script.settings(alloc, Side::Server)?;
    let tapes = lend_both(shelf)?;
    match sessions(alloc, client, server, tapes) {
        Ok(ends) => Ok(ends),
        Err((client, server)) => {
            shelf.put_back(client);
            shelf.put_back(server);
            Err(OutOfMemory)
        }
    }
}
