//! The state of the machine, and its events.

use mw_text::List;
use route_record::{Announcement, BgpMsg, Environment, Failures, OspfRec, Tables};
use std::collections::LinkedList;

/// A message about one prefix length. None is a withdrawal.
#[derive(Drop)]
pub struct Mail<M> {
    pub len: u8,
    pub what: Option<M>,
}

/// A BGP session as one of its ends receives, or an OSPF adjacency: what was last received over it, by prefix length,
/// and what is still to be received, in the order in which it was sent. None is a withdrawal, or that nothing was
/// received.
#[derive(Drop)]
pub struct Channel<M> {
    pub received: List<Option<M>>,
    pub mail: LinkedList<Mail<M>>,
}

/// What all routers hold, the channels of all session ends and of all adjacencies, by their places, the links that have
/// failed, and what the external peers announce.
#[derive(Drop)]
pub struct State {
    pub tables: Tables,
    pub sessions: List<Channel<BgpMsg>>,
    pub adjacencies: List<Channel<OspfRec>>,
    pub failures: Failures,
    pub environment: Environment,
}

/// What may happen: the delivery of one message, the decision of one router for one prefix length, what an external
/// peer announces for one length (None withdraws), or that a link fails or works again. Ends, adjacencies, routers and
/// links are named by their places.
#[derive(Drop)]
pub enum Event {
    DeliverBgp {
        end: u32,
    },
    DeliverOspf {
        adjacency: u32,
    },
    Decide {
        router: u32,
        len: u8,
    },
    Announce {
        end: u32,
        len: u8,
        what: Option<Announcement>,
    },
    Cut {
        link: u32,
    },
    Mend {
        link: u32,
    },
}

/// Why an event is refused: no message is there, a number is out of range or an announcement is none that this peer may
/// make, the link has failed already or has not, or memory is short.
#[derive(Clone, Copy)]
pub enum EventRefused {
    NothingToDeliver,
    UnknownName,
    AlreadySo,
    Memory,
}
