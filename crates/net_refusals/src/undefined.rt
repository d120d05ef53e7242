//! Uses of what a file does not define.

ghost use Rattle.std.specs.Prelude.{◌≡◌, ◌&&◌, [], false, not, None, fold, option_and_then};
ghost use Rattle.std.specs.List.{list_any};
ghost use Rattle.std.specs.Option.{option_map_or};
ghost use Rattle.mw_text.specs.Text.{same_text};
ghost use Rattle.net_refusals.specs.Refusals as refusals;

use crate::lines::{earlier, line_if};
use ios_ast::{
    Bgp, File, Iface, MapEntry, Match, Neighbour, Ospf, Policies, Redist, RouteMap, Source,
    StaticRoute, Use, Via,
};
use mw_text::same_bytes;

/// What a line uses by its name.
#[derive(Clone, Copy, Debug, PartialEq, Eq)]
pub enum Kind {
    Interface,
    AccessList,
    PrefixList,
    CommunityList,
    PathList,
    Map,
}

fn has_interface(file: &File, name: &[u8]) -> bool
    ensures { result ≡ list_any (λ iface. same_text iface.name name.now) file.now.interfaces }
{
    file.interfaces
        .as_slice()
        .iter()
        .any(|iface| same_bytes(iface.name.as_slice(), name))
}

fn has_access_list(policies: &Policies, name: &[u8]) -> bool
    ensures { result ≡ list_any (λ l. same_text l.name name.now && refusals.has_entries l.entries) policies.now.access }
{
    policies.access.as_slice().iter().any(|l| same_bytes(l.name.as_slice(), name)
        && l.entries.items.len() > 0)
}

fn has_prefix_list(policies: &Policies, name: &[u8]) -> bool
    ensures { result ≡ list_any (λ l. same_text l.name name.now && refusals.has_entries l.entries) policies.now.prefix_lists }
{
    policies.prefix_lists.as_slice().iter().any(|l| same_bytes(l.name.as_slice(), name)
        && l.entries.items.len() > 0)
}

fn has_community_list(policies: &Policies, name: &[u8]) -> bool
    ensures { result ≡ list_any (λ l. same_text l.name name.now && refusals.has_entries l.entries) policies.now.communities }
{
    policies.communities.as_slice().iter().any(|l| same_bytes(l.name.as_slice(), name)
        && l.entries.items.len() > 0)
}

fn has_path_list(policies: &Policies, name: &[u8]) -> bool
    ensures { result ≡ list_any (λ l. same_text l.name name.now && refusals.has_entries l.entries) policies.now.as_paths }
{
    policies.as_paths.as_slice().iter().any(|l| same_bytes(l.name.as_slice(), name)
        && l.entries.items.len() > 0)
}

fn has_map(policies: &Policies, name: &[u8]) -> bool
    ensures { result ≡ list_any (λ l. same_text l.name name.now && refusals.has_entries l.entries) policies.now.maps }
{
    policies.maps.as_slice().iter().any(|l| same_bytes(l.name.as_slice(), name)
        && l.entries.items.len() > 0)
}

/// Whether the file defines what has that name. A list or a map without entries is not defined.
pub fn is_known(file: &File, kind: Kind, name: &[u8]) -> bool
    ensures { result ≡ refusals.is_known file.now kind name.now }
{
    match kind {
        Kind::Interface => has_interface(file, name),
        Kind::AccessList => has_access_list(&file.policies, name),
        Kind::PrefixList => has_prefix_list(&file.policies, name),
        Kind::CommunityList => has_community_list(&file.policies, name),
        Kind::PathList => has_path_list(&file.policies, name),
        Kind::Map => has_map(&file.policies, name),
    }
}

fn undefined_use(file: &File, kind: Kind, named: &Use) -> Option<u32>
    ensures { result ≡ refusals.undefined_use file.now kind named.now }
{
    line_if(!is_known(file, kind, named.name.as_slice()), named.line)
}

fn undefined_option(file: &File, kind: Kind, named: &Option<Use>) -> Option<u32>
    ensures { result ≡ refusals.undefined_option file.now kind named.now }
{
    match named {
        None => None,
        Some(named) => undefined_use(file, kind, named),
    }
}

fn undefined_uses(file: &File, kind: Kind, uses: &[Use]) -> Option<u32>
    ensures { result ≡ refusals.undefined_uses file.now kind uses.now }
{
    uses.iter().fold(
        None,
        |first, named| earlier(first, undefined_use(file, kind, named)),
    )
}

fn undefined_in_interface(file: &File, iface: &Iface) -> Option<u32>
    ensures { result ≡ refusals.undefined_in_interface file.now iface.now }
{
    earlier(
        undefined_option(file, Kind::AccessList, &iface.list_in),
        undefined_option(file, Kind::AccessList, &iface.list_out),
    )
}

fn undefined_in_interfaces(file: &File) -> Option<u32>
    ensures { result ≡ refusals.undefined_in_interfaces file.now }
{
    file.interfaces.as_slice().iter().fold(
        None,
        |first, iface| earlier(first, undefined_in_interface(file, iface)),
    )
}

fn undefined_in_static(file: &File, route: &StaticRoute) -> Option<u32>
    ensures { result ≡ refusals.undefined_in_static file.now route.now }
{
    match &route.via {
        Via::Null0 => None,
        Via::Next(_) => None,
        Via::Out(named, _) => undefined_use(file, Kind::Interface, named),
    }
}

fn undefined_in_statics(file: &File) -> Option<u32>
    ensures { result ≡ refusals.undefined_in_statics file.now }
{
    file.statics.as_slice().iter().fold(
        None,
        |first, route| earlier(first, undefined_in_static(file, route)),
    )
}

fn runs_process(file: &File, process: u32) -> bool
    ensures { result ≡ refusals.runs_process process file.now }
{
    match &file.ospf {
        None => false,
        Some(own) => own.process == process,
    }
}

fn runs_as(file: &File, asn: u32) -> bool
    ensures { result ≡ refusals.runs_as asn file.now }
{
    match &file.bgp {
        None => false,
        Some(own) => own.asn == asn,
    }
}

fn has_source(file: &File, source: Source) -> bool
    ensures { result ≡ refusals.has_source file.now source }
{
    match source {
        Source::Connected => true,
        Source::Static => true,
        Source::Bgp(asn) => runs_as(file, asn),
        Source::Ospf(process) => runs_process(file, process),
    }
}

fn undefined_in_redist(file: &File, redist: &Redist) -> Option<u32>
    ensures { result ≡ refusals.undefined_in_redist file.now redist.now }
{
    earlier(
        line_if(!has_source(file, redist.source), redist.line),
        undefined_option(file, Kind::Map, &redist.map),
    )
}

fn undefined_in_redists(file: &File, redists: &[Redist]) -> Option<u32>
    ensures { result ≡ refusals.undefined_in_redists file.now redists.now }
{
    redists.iter().fold(
        None,
        |first, redist| earlier(first, undefined_in_redist(file, redist)),
    )
}

fn undefined_in_process(file: &File, process: &Ospf) -> Option<u32>
    ensures { result ≡ refusals.undefined_in_process file.now process.now }
{
    let passive = undefined_uses(file, Kind::Interface, process.passive.as_slice());
    let active = undefined_uses(file, Kind::Interface, process.active.as_slice());
    let redists = undefined_in_redists(file, process.redistribute.as_slice());
    earlier(earlier(passive, active), redists)
}

fn undefined_in_ospf(file: &File) -> Option<u32>
    ensures { result ≡ refusals.undefined_in_ospf file.now }
{
    match &file.ospf {
        None => None,
        Some(process) => undefined_in_process(file, process),
    }
}

fn undefined_in_lists(file: &File, neighbour: &Neighbour) -> Option<u32>
    ensures { result ≡ refusals.undefined_in_lists file.now neighbour.now }
{
    let prefixes = earlier(
        undefined_option(file, Kind::PrefixList, &neighbour.prefix_in),
        undefined_option(file, Kind::PrefixList, &neighbour.prefix_out),
    );
    let paths = earlier(
        undefined_option(file, Kind::PathList, &neighbour.filter_in),
        undefined_option(file, Kind::PathList, &neighbour.filter_out),
    );
    earlier(prefixes, paths)
}

fn undefined_in_neighbour(file: &File, neighbour: &Neighbour) -> Option<u32>
    ensures { result ≡ refusals.undefined_in_neighbour file.now neighbour.now }
{
    let maps = earlier(
        undefined_option(file, Kind::Map, &neighbour.map_in),
        undefined_option(file, Kind::Map, &neighbour.map_out),
    );
    let source = undefined_option(file, Kind::Interface, &neighbour.source);
    earlier(earlier(source, undefined_in_lists(file, neighbour)), maps)
}

fn undefined_in_neighbours(file: &File, neighbours: &[Neighbour]) -> Option<u32>
    ensures { result ≡ refusals.undefined_in_neighbours file.now neighbours.now }
{
    neighbours.iter().fold(
        None,
        |first, n| earlier(first, undefined_in_neighbour(file, n)),
    )
}

fn undefined_in_networks(file: &File, bgp: &Bgp) -> Option<u32>
    ensures { result ≡ refusals.undefined_in_networks file.now bgp.now }
{
    bgp.networks.as_slice().iter().fold(
        None,
        |first, n| earlier(first, undefined_option(file, Kind::Map, &n.map)),
    )
}

fn undefined_in_as(file: &File, bgp: &Bgp) -> Option<u32>
    ensures { result ≡ refusals.undefined_in_as file.now bgp.now }
{
    let networks = undefined_in_networks(file, bgp);
    let redists = undefined_in_redists(file, bgp.redistribute.as_slice());
    let neighbours = undefined_in_neighbours(file, bgp.neighbours.as_slice());
    earlier(earlier(networks, redists), neighbours)
}

fn undefined_in_bgp(file: &File) -> Option<u32>
    ensures { result ≡ refusals.undefined_in_bgp file.now }
{
    match &file.bgp {
        None => None,
        Some(bgp) => undefined_in_as(file, bgp),
    }
}

fn undefined_in_match(file: &File, test: &Match) -> Option<u32>
    ensures { result ≡ refusals.undefined_in_match file.now test.now }
{
    match test {
        Match::Access(uses) => undefined_uses(file, Kind::AccessList, uses.as_slice()),
        Match::Prefixes(uses) => undefined_uses(file, Kind::PrefixList, uses.as_slice()),
        Match::Communities(uses) => undefined_uses(file, Kind::CommunityList, uses.as_slice()),
        Match::Paths(uses) => undefined_uses(file, Kind::PathList, uses.as_slice()),
    }
}

fn undefined_in_entry(file: &File, entry: &MapEntry) -> Option<u32>
    ensures { result ≡ refusals.undefined_in_entry file.now entry.now }
{
    entry.matches.as_slice().iter().fold(
        None,
        |first, test| earlier(first, undefined_in_match(file, test)),
    )
}

fn undefined_in_map(file: &File, map: &RouteMap) -> Option<u32>
    ensures { result ≡ refusals.undefined_in_map file.now map.now }
{
    map.entries.as_slice().iter().fold(
        None,
        |first, entry| earlier(first, undefined_in_entry(file, entry)),
    )
}

fn undefined_in_maps(file: &File) -> Option<u32>
    ensures { result ≡ refusals.undefined_in_maps file.now }
{
    file.policies.maps.as_slice().iter().fold(
        None,
        |first, map| earlier(first, undefined_in_map(file, map)),
    )
}

/// The first line that uses a list, a map, an interface, an OSPF process or an AS which its file does not define.
pub fn undefined_line(file: &File) -> Option<u32>
    ensures { result ≡ refusals.undefined_line file.now }
{
    let outside = earlier(undefined_in_interfaces(file), undefined_in_statics(file));
    let processes = earlier(undefined_in_ospf(file), undefined_in_bgp(file));
    earlier(earlier(outside, processes), undefined_in_maps(file))
}
