//! A configuration file: its router's name, interfaces and static routes.

use crate::bgp::Bgp;
use crate::ospf::Ospf;
use crate::policies::Policies;
use mw_text::{Addr, List, Prefix};

/// One configuration file, which is one router.
#[derive(Drop)]
pub struct File {
    pub hostname: List<u8>,
    pub hostname_line: u32,
    pub interfaces: List<Iface>,
    pub statics: List<StaticRoute>,
    pub ospf: Option<Ospf>,
    pub bgp: Option<Bgp>,
    pub policies: Policies,
}

/// How many lines a file has at most.
pub const MOST_LINES: usize = 20_000;

/// How many interfaces a router has at most.
pub const MOST_INTERFACES: usize = 64;

/// How many neighbours a router has at most.
pub const MOST_NEIGHBOURS: usize = 64;

/// How many entries the lists and route maps of a file have at most, all together.
pub const MOST_POLICY_ENTRIES: usize = 512;

/// An interface. The bandwidth is in kilobits a second.
#[derive(Drop)]
pub struct Iface {
    pub line: u32,
    pub name: List<u8>,
    pub address: Option<IfAddr>,
    pub shutdown: bool,
    pub bandwidth: u32,
    pub cost: Option<u32>,
    pub list_in: Option<Use>,
    pub list_out: Option<Use>,
}

/// The address of an interface and the length of its mask.
#[derive(Clone, Copy)]
pub struct IfAddr {
    pub line: u32,
    pub addr: Addr,
    pub len: u8,
}

/// A name that a line uses; a number stands as its digits.
#[derive(Drop)]
pub struct Use {
    pub line: u32,
    pub name: List<u8>,
}

/// Where a static route leads.
#[derive(Drop)]
pub enum Via {
    /// Packets are discarded.
    Null0,
    /// To the neighbour at this address.
    Next(Addr),
    /// Out of this interface, to the neighbour at this address.
    Out(Use, Addr),
}

/// A static route with its administrative distance.
#[derive(Drop)]
pub struct StaticRoute {
    pub line: u32,
    pub prefix: Prefix,
    pub via: Via,
    pub distance: u8,
}
