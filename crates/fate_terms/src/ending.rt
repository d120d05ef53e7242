//! The fates of packets, with routers by their places.

ghost use Rattle.std.specs.Prelude.{◌≡◌};
ghost use Rattle.question_lang.specs.Breaking as breaking;
ghost use Rattle.fate_terms.specs.Endings as endings;

use mw_text::Addr;
use question_lang::{Kind, Start, Target};

/// What becomes of a packet: it is delivered at that router of a network, leaves the network there to that address, is
/// lost without a route or at Null0, or comes back to where it stood.
#[derive(Clone, Copy)]
pub enum Ending {
    Delivered(u32),
    Left(u32, Addr),
    BlackHole,
    Loop,
}

/// The start at a router, without an incoming interface.
pub(crate) fn at_router(router: u32) -> Start
    ensures { result ≡ breaking.at_router router }
{
    Start {
        router,
        iface: None,
    }
}

/// The kind of the question that a walk from the start breaks exactly where it ends so.
pub fn kind_of(start: u32, ending: &Ending) -> Kind
    ensures { result ≡ endings.kind_of start ending.now }
{
    let from = at_router(start);
    match *ending {
        Ending::Delivered(router) => Kind::Isolate(from, Target::Router(router)),
        Ending::Left(router, addr) => Kind::Isolate(from, Target::Peer { router, addr }),
        Ending::BlackHole => Kind::NoBlackHole(from),
        Ending::Loop => Kind::NoLoop(from),
    }
}
