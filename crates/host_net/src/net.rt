//! The net of the host.

ghost use Rattle.std.specs.Prelude.{◌≡◌, ◌≤◌, ℕ, Err, IfOk, is_ok, if◌then◌else◌};
ghost use Rattle.outside.specs.Causes.{one_more};
ghost use Rattle.outside.specs.Links.{IsNew};
ghost use Rattle.outside.specs.Nets.{faults_after};
ghost use Rattle.host_net.specs.Hosts.{shown_of_host};

use crate::connecting::{connect, drain, longer_pause, next_socket};
use crate::link::HostLink;
use outside::{Link, Net, NetFault};
use rs_wire::Blob;
use std::alloc::Global;
use std::io::{Error, ErrorKind};
use std::marker::Model;
use std::net::{TcpListener, TcpStream};
use std::random::RandomSource;
use std::str::from_utf8;
use std::time::{Clock, Duration};
use std::{net, thread};
use tcp_end::TcpEnd;
use ws_end::HandshakeFault;

/// The net of the host. An address is a host, as a name or a number, and a port: `127.0.0.1:7878`,
/// `[::1]:7878` or `localhost:7878`. What is no text of that form is a fault.
///
/// | call | waits at most |
/// |---|---|
/// | `dial` | after a dial that failed first 0.1 s, doubled each time, 3 s at most; then 20 s for the socket, and 5 s for a WebSocket handshake |
/// | `listen` | not at all |
/// | `accept` | for ever; then 5 s for a WebSocket handshake, which fails the call where it fails |
/// | `put_back` | 0.2 s, until the peer ends the link, too |
///
/// It listens at one address, the last one that it was asked to listen at. A port at which another
/// listens is a fault, and the net listens where it did before.
#[derive(Drop)]
pub struct HostNet<R> {
    rt: R,
    alloc: Global,
    listener: Option<TcpListener>,
    /// How long the next dial pauses first, in milliseconds: 0 after one that worked.
    pause: u64,
    /// How many links are out.
    out: u64,
    faults: u64,
}

impl<R> Model for HostNet<R> {
    ghost use Rattle.host_net.specs.Hosts.{HostState};

    ghost Value = { HostState };

    ghost view = { λ n. record { out = n.out; faults = n.faults } };
}

// What an error of the system is to a net.
fn fault_of(error: &Error) -> NetFault {
    if error.kind() == ErrorKind::OutOfMemory {
        NetFault::OutOfMemory
    } else {
        NetFault::Failed
    }
}

// What a fault of a handshake is to a net.
fn handshake_fault(fault: &HandshakeFault) -> NetFault {
    match fault {
        HandshakeFault::System(error) => fault_of(error),
        HandshakeFault::Refused | HandshakeFault::Slow => NetFault::Failed,
        HandshakeFault::OutOfMemory => NetFault::OutOfMemory,
    }
}

// An address as text.
fn text_of(address: &Blob) -> Result<&str, NetFault> {
    match from_utf8(address.as_slice()) {
        Ok(text) => Ok(text),
        Err(_) => Err(NetFault::Failed),
    }
}

impl<R> HostNet<R>
where
    R: net::Net<Listener = TcpListener, Stream = TcpStream> + RandomSource + Clock,
{
    /// A net that listens nowhere, with no link out.
    pub fn new(alloc: Global, rt: R) -> HostNet<R>
        ensures { result ≡ record { out = 0; faults = 0 } }
    {
        HostNet {
            rt,
            alloc,
            listener: None,
            pause: 0,
            out: 0,
            faults: 0,
        }
    }

    // Counts a fault.
    fn noted(&mut self, fault: NetFault) -> NetFault
        ensures same { result ≡ fault }
        ensures counted { self.new ≡ record self.old {
          faults = faults_after {X = ℕ} (Err fault) self.old.faults;
        } }
        ensures never_falls { self.old.faults ≤ self.new.faults }
    {
        if fault == NetFault::Failed {
            self.faults = self.faults.saturating_add(1);
        }
        fault
    }

    // A link over TCP.
    fn over_tcp(&self, stream: TcpStream) -> Result<HostLink, NetFault>
        ensures { IfOk result (λ link. IsNew (shown_of_host link)) }
    {
        match TcpEnd::new(&self.rt, self.alloc, stream) {
            Ok(end) => Ok(HostLink::Tcp(end)),
            Err(error) => Err(fault_of(&error)),
        }
    }

    // A link that is dialed, and is not counted yet.
    fn dialed(&self, address: &Blob, ws: bool) -> Result<HostLink, NetFault>
        ensures { IfOk result (λ link. IsNew (shown_of_host link)) }
    {
        let address = text_of(address)?;
        let stream = match connect(&self.rt, address) {
            Ok(stream) => stream,
            Err(error) => return Err(fault_of(&error)),
        };
        if !ws {
            return self.over_tcp(stream);
        }
        match ws_end::ask(&self.rt, self.alloc, stream, address) {
            Ok(end) => Ok(HostLink::Asked(end)),
            Err(fault) => Err(handshake_fault(&fault)),
        }
    }

    // Waits after a dial that failed.
    fn wait(&self) {
        if self.pause > 0 {
            thread::sleep(&self.rt, Duration::from_millis(self.pause));
        }
    }

    // Notes whether a dial worked, for the pause before the next one.
    fn note_dial(&mut self, worked: bool)
        ensures { self.new ≡ self.old }
    {
        self.pause = if worked { 0 } else { longer_pause(self.pause) };
    }

    // A link that is accepted, and is not counted yet.
    fn accepted(&self, ws: bool) -> Result<HostLink, NetFault>
        ensures { IfOk result (λ link. IsNew (shown_of_host link)) }
    {
        let Some(listener) = &self.listener else {
            return Err(NetFault::Failed);
        };
        let stream = match next_socket(listener) {
            Ok(stream) => stream,
            Err(error) => return Err(fault_of(&error)),
        };
        if !ws {
            return self.over_tcp(stream);
        }
        match ws_end::serve(&self.rt, self.alloc, stream) {
            Ok(end) => Ok(HostLink::Served(end)),
            Err(fault) => Err(handshake_fault(&fault)),
        }
    }

    // A listener at the address.
    fn listener_at(&self, address: &Blob) -> Result<TcpListener, NetFault> {
        match TcpListener::bind(&self.rt, text_of(address)?) {
            Ok(listener) => Ok(listener),
            Err(error) => Err(fault_of(&error)),
        }
    }

    // Counts a link that is handed out, or a fault.
    fn handed_out(&mut self, link: Result<HostLink, NetFault>) -> Result<HostLink, NetFault>
        ensures same { result ≡ link }
        ensures out { self.new.out ≡ (if is_ok link then one_more self.old.out else self.old.out) }
        ensures faults { self.new.faults ≡ faults_after link self.old.faults }
        ensures never_falls { self.old.faults ≤ self.new.faults }
    {
        match link {
            Ok(link) => {
                self.out = self.out.saturating_add(1);
                Ok(link)
            }
            Err(fault) => Err(self.noted(fault)),
        }
    }
}

impl<R> Net for HostNet<R>
where
    R: net::Net<Listener = TcpListener, Stream = TcpStream> + RandomSource + Clock,
{
    type Link = HostLink;

    ghost use Rattle.std.specs.Prelude.{None};

    ghost asked = { λ _. None };

    ghost back = { λ _. None };

    ghost out = { λ n. n.out };

    ghost faults = { λ n. n.faults };

    fn dial(&mut self, address: &Blob, ws: bool) -> Result<HostLink, NetFault> {
        self.wait();
        let link = self.dialed(address, ws);
        self.note_dial(link.is_ok());
        self.handed_out(link)
    }

    fn listen(&mut self, address: &Blob) -> Result<(), NetFault> {
        match self.listener_at(address) {
            Ok(listener) => {
                self.listener = Some(listener);
                Ok(())
            }
            Err(fault) => Err(self.noted(fault)),
        }
    }

    fn accept(&mut self, ws: bool) -> Result<HostLink, NetFault> {
        let link = self.accepted(ws);
        self.handed_out(link)
    }

    fn put_back(&mut self, link: HostLink) {
        let mut link = link;
        link.close();
        drain(&self.rt, &mut link);
        self.out -= 1;
    }
}
