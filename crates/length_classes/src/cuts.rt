//! Cuts: the prefix lengths at which some line of the files may tell a prefix from a shorter one.

ghost use Rattle.std.specs.Prelude.{◌≡◌};
ghost use Rattle.std.specs.List.{list_any};
ghost use Rattle.sliced_routings.specs.Cuts as cuts;

use ios_ast::{
    BgpNet, File, MapEntry, Match, PrefixEntry, PrefixList, Redist, RouteMap, StaticRoute,
};
use net_model::{Addressed, Net, OspfInterface};

// Whether a prefix of length m makes a cut at l: at its length, or behind it.
fn bounds(l: u8, m: u8) -> bool
    ensures { result ≡ cuts.bounds l m }
{
    m == l || u16::from(m) + 1 == u16::from(l)
}

fn bounds_entry(l: u8, e: &PrefixEntry) -> bool
    ensures { result ≡ cuts.bounds_entry l e.now }
{
    e.prefix.len.max(e.low) == l || u16::from(e.high) + 1 == u16::from(l)
}

fn bounds_list(l: u8, list: &PrefixList) -> bool
    ensures { result ≡ cuts.bounds_list l list.now }
{
    list.entries.as_slice().iter().any(|e| bounds_entry(l, e))
}

fn bounds_class(l: u8) -> bool
    ensures { result ≡ cuts.bounds_class l }
{
    bounds(l, 8) || bounds(l, 16) || bounds(l, 24)
}

fn bounds_loopback(l: u8, x: &OspfInterface) -> bool
    ensures { result ≡ cuts.bounds_loopback l x.now }
{
    x.at.loopback && bounds(l, 32)
}

fn is_access(line: &Match) -> bool
    ensures { result ≡ cuts.is_access line.now }
{
    match line {
        Match::Access(_) => true,
        Match::Prefixes(_) => false,
        Match::Communities(_) => false,
        Match::Paths(_) => false,
    }
}

fn asks_access(e: &MapEntry) -> bool
    ensures { result ≡ cuts.asks_access e.now }
{
    e.matches.as_slice().iter().any(|line| is_access(line))
}

fn uses_access(map: &RouteMap) -> bool
    ensures { result ≡ cuts.uses_access map.now }
{
    map.entries.as_slice().iter().any(|e| asks_access(e))
}

fn has_static(l: u8, statics: &[StaticRoute]) -> bool
    ensures { result ≡ list_any (λ route. cuts.bounds l route.prefix.len) statics.now }
{
    statics.iter().any(|route| bounds(l, route.prefix.len))
}

fn has_network(l: u8, networks: &[BgpNet]) -> bool
    ensures { result ≡ list_any (λ line. cuts.bounds l line.prefix.len) networks.now }
{
    networks.iter().any(|line| bounds(l, line.prefix.len))
}

fn names_network(l: u8, file: &File) -> bool
    ensures { result ≡ list_any (λ line. cuts.bounds l line.prefix.len) (cuts.networks_of file.now) }
{
    match &file.bgp {
        None => false,
        Some(bgp) => has_network(l, bgp.networks.as_slice()),
    }
}

fn has_classful(lines: &[Redist]) -> bool
    ensures { result ≡ list_any cuts.is_classful_only lines.now }
{
    lines.iter().any(|line| !line.subnets)
}

// Whether redistribution into OSPF takes classful networks alone.
fn takes_classful(file: &File) -> bool
    ensures { result ≡ list_any cuts.is_classful_only (cuts.redistributed_into file.now) }
{
    match &file.ospf {
        None => false,
        Some(ospf) => has_classful(ospf.redistribute.as_slice()),
    }
}

fn has_list(l: u8, lists: &[PrefixList]) -> bool
    ensures { result ≡ list_any (cuts.bounds_list l) lists.now }
{
    lists.iter().any(|list| bounds_list(l, list))
}

fn has_access(maps: &[RouteMap]) -> bool
    ensures { result ≡ list_any cuts.uses_access maps.now }
{
    maps.iter().any(|map| uses_access(map))
}

#[tactic(auto, unfolding(sliced_routings::specs::Cuts::is_cut_by))]
fn is_cut_by(l: u8, file: &File) -> bool
    ensures { result ≡ cuts.is_cut_by l file.now }
{
    has_static(l, file.statics.as_slice())
        || names_network(l, file)
        || has_list(l, file.policies.prefix_lists.as_slice())
        || bounds_class(l) && takes_classful(file)
        || has_access(file.policies.maps.as_slice())
}

fn has_subnet(l: u8, addresses: &[Addressed]) -> bool
    ensures { result ≡ list_any (λ x. cuts.bounds l x.subnet.len) addresses.now }
{
    addresses.iter().any(|x| bounds(l, x.subnet.len))
}

fn has_loopback(l: u8, running: &[OspfInterface]) -> bool
    ensures { result ≡ list_any (cuts.bounds_loopback l) running.now }
{
    running.iter().any(|x| bounds_loopback(l, x))
}

fn has_file(l: u8, files: &[File]) -> bool
    ensures { result ≡ list_any (cuts.is_cut_by l) files.now }
{
    files.iter().any(|file| is_cut_by(l, file))
}

/// Whether a class of prefix lengths must begin at that length.
#[tactic(auto, unfolding(sliced_routings::specs::Cuts::is_cut))]
pub(crate) fn is_cut(net: &Net, l: u8) -> bool
    ensures { result ≡ cuts.is_cut net.now.files l }
{
    l == 1
        || has_subnet(l, net.addresses())
        || has_loopback(l, net.ospf_interfaces())
        || has_file(l, net.routers())
}
