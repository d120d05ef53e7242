//! The OSPF block of a configuration file.

use crate::file::Use;
use mw_text::{Addr, List};

/// A `network` line: the interfaces whose address matches run OSPF in this area.
#[derive(Clone, Copy)]
pub struct OspfNet {
    pub line: u32,
    pub addr: Addr,
    pub wild: u32,
    pub area: u32,
}

/// The OSPF process of a router. The reference bandwidth is in megabits a second.
#[derive(Drop)]
pub struct Ospf {
    pub line: u32,
    pub process: u32,
    pub networks: List<OspfNet>,
    pub passive_default: bool,
    pub passive: List<Use>,
    pub active: List<Use>,
    pub reference: u32,
    pub redistribute: List<Redist>,
    pub default: Option<DefaultOrigin>,
}

/// Where redistributed routes come from: a process or an autonomous system by its number.
#[derive(Clone, Copy)]
pub enum Source {
    Connected,
    Static,
    Bgp(u32),
    Ospf(u32),
}

/// A `redistribute` line of an OSPF or a BGP block.
#[derive(Drop)]
pub struct Redist {
    pub line: u32,
    pub source: Source,
    pub metric: Option<u32>,
    pub type1: bool,
    pub subnets: bool,
    pub internal: bool,
    pub ext1: bool,
    pub ext2: bool,
    pub map: Option<Use>,
}

/// A `default-information originate` line.
#[derive(Clone, Copy)]
pub struct DefaultOrigin {
    pub line: u32,
    pub always: bool,
    pub metric: u32,
    pub type1: bool,
}
