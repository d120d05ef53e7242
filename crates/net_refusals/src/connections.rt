//! Static next hops, external peers and areas that break a rule.

ghost use Rattle.std.specs.Prelude.{◌≡◌, ◌==◌, ◌&&◌, false, not, None, fold, option_and_then, option_map, slice_get};
ghost use Rattle.std.specs.List.{filter_map, list_any};
ghost use Rattle.net_refusals.specs.Refusals as refusals;

use crate::clashes::some_has;
use crate::lines::{earlier, line_if};
use ios_ast::{Bgp, File, Iface, Neighbour, Ospf, OspfNet, StaticRoute, Use};
use mw_text::Addr;
use net_interfaces::connected::{named_reaches, route_is_connected, some_reaches};

fn unconnected_route(interfaces: &[Iface], route: &StaticRoute) -> Option<u32>
    ensures { result ≡ refusals.unconnected_route interfaces.now route.now }
{
    line_if(!route_is_connected(interfaces, route), route.line)
}

/// The first static route whose next hop is on no subnet of the router, or not on that of the interface that is named.
pub fn unconnected_line(file: &File) -> Option<u32>
    ensures { result ≡ refusals.unconnected_line file.now }
{
    let interfaces = file.interfaces.as_slice();
    file.statics.as_slice().iter().fold(
        None,
        |first, route| earlier(first, unconnected_route(interfaces, route)),
    )
}

fn reached_over(interfaces: &[Iface], source: &Option<Use>, a: Addr) -> bool
    ensures { result ≡ refusals.reached_over interfaces.now source.now a }
{
    match source {
        None => some_reaches(interfaces, a),
        Some(named) => named_reaches(interfaces, named.name.as_slice(), a),
    }
}

fn is_outside(files: &[File], file: &File, neighbour: &Neighbour) -> bool
    ensures { result ≡ refusals.is_outside files.now file.now neighbour.now }
{
    !some_has(files, neighbour.addr)
        && reached_over(
            file.interfaces.as_slice(),
            &neighbour.source,
            neighbour.addr,
        )
}

fn internal_peer(files: &[File], file: &File, asn: u32, neighbour: &Neighbour) -> Option<u32>
    ensures { result ≡ refusals.internal_peer files.now file.now asn neighbour.now }
{
    line_if(
        neighbour.asn == asn && is_outside(files, file, neighbour),
        neighbour.line,
    )
}

fn internal_peer_of(files: &[File], file: &File, bgp: &Bgp) -> Option<u32>
    ensures { result ≡ refusals.internal_peer_of files.now file.now bgp.now }
{
    bgp.neighbours.as_slice().iter().fold(
        None,
        |first, n| earlier(first, internal_peer(files, file, bgp.asn, n)),
    )
}

/// The first `remote-as` line of an external peer that has the router's own AS number.
pub fn internal_peer_line(files: &[File], file: &File) -> Option<u32>
    ensures { result ≡ refusals.internal_peer_line files.now file.now }
{
    match &file.bgp {
        None => None,
        Some(bgp) => internal_peer_of(files, file, bgp),
    }
}

fn area_of_process(process: &Ospf) -> Option<u32>
    ensures { result ≡ option_map (λ line. line.area) (slice_get process.now.networks 0) }
{
    match process.networks.items.get(0) {
        None => None,
        Some(line) => Some(line.area),
    }
}

fn area_of(file: &File) -> Option<u32>
    ensures { result ≡ refusals.area_of file.now }
{
    match &file.ospf {
        None => None,
        Some(process) => area_of_process(process),
    }
}

fn first_area(files: &[File]) -> Option<u32>
    ensures { result ≡ refusals.first_area files.now }
{
    for file in files {
        if let Some(area) = area_of(file) {
            return Some(area);
        }
    }
    None
}

fn second_area(area: u32, line: &OspfNet) -> Option<u32>
    ensures { result ≡ refusals.second_area area line.now }
{
    line_if(line.area != area, line.line)
}

fn second_area_of(area: u32, process: &Ospf) -> Option<u32>
    ensures { result ≡ refusals.second_area_of area process.now }
{
    process.networks.as_slice().iter().fold(
        None,
        |first, line| earlier(first, second_area(area, line)),
    )
}

fn second_area_in(area: u32, file: &File) -> Option<u32>
    ensures { result ≡ option_and_then (refusals.second_area_of area) file.now.ospf }
{
    match &file.ospf {
        None => None,
        Some(process) => second_area_of(area, process),
    }
}

/// The first `network` line whose area is not that of the first such line of the files.
pub fn second_area_line(files: &[File], file: &File) -> Option<u32>
    ensures { result ≡ refusals.second_area_line files.now file.now }
{
    match first_area(files) {
        None => None,
        Some(area) => second_area_in(area, file),
    }
}
