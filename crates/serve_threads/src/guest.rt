//! Where one link is served.

ghost use Rattle.std.specs.Prelude.{◌≡◌, None};

use crate::shared::Shared;
use conn::Caller;
use crew::Place;
use handlers::Handler;
use outside::{Clock, Link, Net, NetFault};
use server::{Served, serve_connection};
use std::sync::Wait;
use tape::Tape;
use workers::Work;

/// A link, with what its thread needs, and how it was served.
#[derive(Drop)]
pub struct Guest<L, T: Tape> {
    /// The slot at which a link opens that names no session.
    pub slot: u32,
    /// A caller of each connection, in their order.
    pub row: Vec<Caller<T>>,
    /// The jobs that the link's own thread answers, where it does.
    pub work: Option<Work>,
    /// The link, once one was accepted.
    pub link: Option<L>,
    /// Why none was, where the wait was in vain.
    pub missed: Option<NetFault>,
    /// How the link was served, and the slot and the number of the opening that was accepted.
    pub answer: Option<(Served, Option<(u32, u64)>)>,
}

impl<'a, N: Net, T: Tape, K: Clock, F: Handler> Place<N, Shared<'a, T, K, F>> for Guest<N::Link, T>
where
    N::Link: Drop,
{
    ghost use Rattle.serve_threads.specs.Asking.{AreAccepted, more_accepted, none_accepted};
    ghost use Rattle.serve_threads.specs.Threads.{IsArrived, IsMissed, IsServed, IsVacant};

    ghost vacant = { λ shared p. IsVacant shared.settings.now shared.connections.now p };

    ghost arrived = { λ shared p q. IsArrived N.Link.shown shared.settings.now
        shared.connections.now p q };

    ghost served = { λ shared p q. IsServed N.Link.shown shared.settings.now
        (K.moments shared.clock.now) shared.grant shared.routes.now p q };

    ghost missed = { λ shared n m p q. IsMissed N.asked N.back N.out N.faults shared.ws n m p q };

    ghost accepted = { λ shared k n m. AreAccepted N.asked N.back N.out N.faults shared.ws k n m };

    ghost accepted_none = { λ shared n. none_accepted N.asked N.back N.out N.faults shared.ws n };

    ghost accepted_more = { λ shared j k a b c first rest.
        more_accepted N.asked N.back N.out N.faults shared.ws j k a b c first rest };

    fn accept(&mut self, net: &mut N, shared: &Shared<'a, T, K, F>) -> bool {
        match net.accept(shared.ws) {
            Ok(link) => {
                self.link = Some(link);
                true
            }
            Err(fault) => {
                self.missed = Some(fault);
                false
            }
        }
    }

    fn serve<R: Wait>(&mut self, rt: &R, shared: &Shared<'a, T, K, F>) {
        match &mut self.link {
            None => unreachable!(),
            Some(link) => {
                let answer = serve_connection(
                    rt,
                    shared.alloc,
                    link,
                    shared.clock,
                    self.slot,
                    shared.connections,
                    &mut self.row,
                    shared.table,
                    shared.settings,
                    shared.routes,
                    shared.grant,
                    &mut self.work,
                );
                // The link itself is put back once all are served: the peer needn't wait for that.
                link.close();
                self.answer = Some(answer);
            }
        }
    }
}
