//! The lists and route maps of a configuration file.

use crate::file::Use;
use mw_text::{Addr, List, Prefix};

/// All lists and maps of a file, each kind in the order of its lines.
#[derive(Drop)]
pub struct Policies {
    pub prefix_lists: List<PrefixList>,
    pub communities: List<CommunityList>,
    pub as_paths: List<AsPathList>,
    pub access: List<AccessList>,
    pub maps: List<RouteMap>,
}

/// An entry of a prefix list: the lengths from `low` to `high` inside `prefix`.
#[derive(Clone, Copy)]
pub struct PrefixEntry {
    pub line: u32,
    pub seq: u32,
    pub permit: bool,
    pub prefix: Prefix,
    pub low: u8,
    pub high: u8,
}

#[derive(Drop)]
pub struct PrefixList {
    pub name: List<u8>,
    pub entries: List<PrefixEntry>,
}

/// An entry of a community list, which takes a route that carries all its values (RFC 1997).
#[derive(Drop)]
pub struct CommunityEntry {
    pub line: u32,
    pub permit: bool,
    pub values: List<u32>,
}

#[derive(Drop)]
pub struct CommunityList {
    pub name: List<u8>,
    pub entries: List<CommunityEntry>,
}

/// An AS-path pattern: empty, any, only this number, this number first, last, or anywhere.
#[derive(Clone, Copy)]
pub enum Pattern {
    Empty,
    Any,
    Only(u32),
    First(u32),
    Last(u32),
    Has(u32),
}

#[derive(Clone, Copy)]
pub struct AsPathEntry {
    pub line: u32,
    pub permit: bool,
    pub pattern: Pattern,
}

#[derive(Drop)]
pub struct AsPathList {
    pub name: List<u8>,
    pub entries: List<AsPathEntry>,
}

/// An address under a wildcard mask, whose 1 bits are ignored.
#[derive(Clone, Copy)]
pub struct Wild {
    pub addr: Addr,
    pub wild: u32,
}

/// A test of a port.
#[derive(Clone, Copy)]
pub enum Ports {
    Any,
    Range(u16, u16),
    Not(u16),
    Empty,
}

#[derive(Clone, Copy)]
pub struct AccessEntry {
    pub line: u32,
    pub permit: bool,
    pub proto: Option<u8>,
    pub src: Wild,
    pub sport: Ports,
    pub dst: Wild,
    pub dport: Ports,
}

/// An access list. It is named where an `ip access-list` line opened it.
#[derive(Drop)]
pub struct AccessList {
    pub name: List<u8>,
    pub extended: bool,
    pub named: bool,
    pub entries: List<AccessEntry>,
}

/// A match line of a route map, by the names of the lists that are its alternatives.
#[derive(Drop)]
pub enum Match {
    Access(List<Use>),
    Prefixes(List<Use>),
    Communities(List<Use>),
    Paths(List<Use>),
}

/// A set line of a route map. The flag of `Community` stands for `additive`, that of `Origin` for `igp`, and
/// that of `Type1` for `type-1`.
#[derive(Drop)]
pub enum SetAct {
    LocalPref(u32),
    Metric(u32),
    Weight(u32),
    NoCommunity,
    Community(List<u32>, bool),
    Origin(bool),
    Prepend(List<u32>),
    Type1(bool),
}

#[derive(Drop)]
pub struct MapEntry {
    pub line: u32,
    pub seq: u32,
    pub permit: bool,
    pub matches: List<Match>,
    pub sets: List<SetAct>,
}

#[derive(Drop)]
pub struct RouteMap {
    pub name: List<u8>,
    pub entries: List<MapEntry>,
}
