//! The BGP block of a configuration file.

use crate::file::Use;
use crate::ospf::Redist;
use mw_text::{Addr, List, Prefix};

/// A `network` line.
#[derive(Drop)]
pub struct BgpNet {
    pub line: u32,
    pub prefix: Prefix,
    pub map: Option<Use>,
}

/// The BGP process of a router.
#[derive(Drop)]
pub struct Bgp {
    pub line: u32,
    pub asn: u32,
    pub router_id: Option<Addr>,
    pub always_compare: bool,
    pub compare_routerid: bool,
    pub networks: List<BgpNet>,
    pub redistribute: List<Redist>,
    pub neighbours: List<Neighbour>,
}

/// A neighbour, by the line of its `remote-as`.
#[derive(Drop)]
pub struct Neighbour {
    pub line: u32,
    pub addr: Addr,
    pub asn: u32,
    pub source: Option<Use>,
    pub next_hop_self: bool,
    pub client: bool,
    pub send_community: bool,
    pub weight: u32,
    pub shutdown: bool,
    pub prefix_in: Option<Use>,
    pub prefix_out: Option<Use>,
    pub filter_in: Option<Use>,
    pub filter_out: Option<Use>,
    pub map_in: Option<Use>,
    pub map_out: Option<Use>,
}
