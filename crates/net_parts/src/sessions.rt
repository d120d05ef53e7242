//! Ends of BGP sessions (RFC 4271, section 8; Cisco IOS, `neighbor remote-as` and `neighbor update-source`).

ghost use Rattle.std.specs.Prelude.{◌≡◌, [], ◌++◌, ◌==◌, ◌≤◌, IfOk, IfSome, OnOk, filter, map, position, slice_get, true, false, length, ◌<◌};
ghost use Rattle.std.specs.List.{find, list_all, list_any};
ghost use Rattle.std.specs.Option.{option_map_or};
ghost use Rattle.mw_text.specs.Text.{same_text};
ghost use Rattle.net_interfaces.specs.Interfaces.{addressed};
ghost use Rattle.net_interfaces.specs.Limits.{keeps_limits};
ghost use Rattle.net_parts.specs.Sessions as sessions;

use ios_ast::{Bgp, File, MOST_NEIGHBOURS, Neighbour};
use mw_text::{Addr, List, contains, same_bytes};
use net_interfaces::{Addressed, IfaceId, MOST_FILES};
use std::alloc::{AllocError, Global};

/// What lies at the far side of a session: an external peer, or the end of another router, by its position.
#[derive(Clone, Copy)]
pub enum Far {
    Outside,
    Inside(u32),
}

/// An end of a BGP session: a router and the place of the neighbour line, what lies at the far side, whether the session
/// is internal, the interface from which the router speaks, and whether the neighbour's address is on its subnet.
#[derive(Clone, Copy)]
pub struct SessionEnd {
    pub router: u32,
    pub neighbour: u32,
    pub far: Far,
    pub internal: bool,
    pub own: IfaceId,
    pub shared: bool,
}

/// A neighbour line, by its router and its place there: the router's AS number, the neighbour's address and AS number,
/// whether it is shut down, and the interface from which the router speaks to it.
#[derive(Clone, Copy)]
pub struct Peering {
    pub router: u32,
    pub at: u32,
    pub asn: u32,
    pub neighbour: Addr,
    pub remote: u32,
    pub shutdown: bool,
    pub source: Addressed,
}

fn has_name(file: &File, x: &Addressed, name: &[u8]) -> bool
    ensures { result ≡ sessions.has_name file.now x.now name.now }
{
    match file.interfaces.items.get(x.id.at as usize) {
        None => false,
        Some(iface) => same_bytes(iface.name.as_slice(), name),
    }
}

fn speaks_from(file: &File, neighbour: &Neighbour, x: &Addressed) -> bool
    ensures { result ≡ sessions.speaks_from file.now neighbour.now x.now }
{
    match &neighbour.source {
        None => contains(&x.subnet, neighbour.addr),
        Some(named) => has_name(file, x, named.name.as_slice()),
    }
}

fn source_of(file: &File, neighbour: &Neighbour, own: &[Addressed]) -> Option<Addressed>
    ensures { result ≡ find (sessions.speaks_from file.now neighbour.now) own.now }
{
    own.iter()
        .copied()
        .find(|x| speaks_from(file, neighbour, x))
}

fn peering_from(router: u32, asn: u32, at: u32, neighbour: &Neighbour, source: Addressed) -> Peering
    ensures { result ≡ sessions.peering router asn at neighbour.now source }
{
    Peering {
        router,
        at,
        asn,
        neighbour: neighbour.addr,
        remote: neighbour.asn,
        shutdown: neighbour.shutdown,
        source,
    }
}

// Puts the neighbour lines of one router that have an interface to speak from at the end.
fn add_peerings(
    out: &mut List<Peering>,
    own: &[Addressed],
    router: u32,
    file: &File,
    bgp: &Bgp,
) -> Result<(), AllocError>
    requires few { length bgp.now.neighbours ≤ MOST_NEIGHBOURS }
    ensures { OnOk result (out.new ≡ out.old ++ sessions.peerings_from own.now router file.now bgp.now.asn 0 bgp.now.neighbours) }
{
    for (at, neighbour) in bgp.neighbours.as_slice().iter().enumerate() {
        if let Some(source) = source_of(file, neighbour, own) {
            out.items.push(peering_from(router, bgp.asn, at as u32, neighbour, source))?;
        }
    }
    Ok(())
}

fn interfaces_of(
    alloc: Global,
    addresses: &[Addressed],
    router: u32,
) -> Result<Vec<Addressed>, AllocError>
    ensures { IfOk result (λ own. own.items ≡ filter (λ x. x.id.router == router) addresses.now) }
{
    addresses
        .iter()
        .copied()
        .filter(|x| x.id.router == router)
        .collect(alloc)
}

fn add_router(
    alloc: Global,
    out: &mut List<Peering>,
    addresses: &[Addressed],
    router: u32,
    file: &File,
) -> Result<(), AllocError>
    requires limits { keeps_limits file.now ≡ true }
    ensures { OnOk result (out.new ≡ out.old ++ sessions.peerings_of addresses.now router file.now) }
{
    match &file.bgp {
        None => Ok(()),
        Some(bgp) => {
            let own = interfaces_of(alloc, addresses, router)?;
            add_peerings(out, own.as_slice(), router, file, bgp)
        }
    }
}

/// All neighbour lines that have an interface to speak from, by router and then by line.
#[tactic(auto, unfolding(crate::specs::Sessions::peerings))]
pub fn peerings(
    alloc: Global,
    files: &[File],
    addresses: &[Addressed],
) -> Result<List<Peering>, AllocError>
    requires addresses { addresses.now ≡ addressed files.now }
    requires few { length files.now ≤ MOST_FILES }
    requires limits { list_all keeps_limits files.now ≡ true }
    ensures { IfOk result (λ all. all ≡ sessions.peerings files.now) }
{
    let mut all = List::new(alloc);
    for (router, file) in files.iter().enumerate() {
        add_router(alloc, &mut all, addresses, router as u32, file)?;
    }
    Ok(all)
}

fn has_address(addresses: &[Addressed], a: Addr) -> bool
    ensures { result ≡ list_any (λ x. x.addr.0 == a.0) addresses.now }
{
    addresses.iter().any(|x| x.addr == a)
}

/// Whether the neighbour is an external peer: its address is no interface's, and lies on the subnet of the interface from
/// which the router speaks.
pub fn is_external_peer(addresses: &[Addressed], a: &Peering) -> bool
    ensures { result ≡ sessions.is_external_peer addresses.now a.now }
{
    !has_address(addresses, a.neighbour) && contains(&a.source.subnet, a.neighbour)
}

fn names_other(a: &Peering, b: &Peering) -> bool
    ensures { result ≡ sessions.names_other a.now b.now }
{
    a.neighbour == b.source.addr && a.remote == b.asn
}

/// Whether two neighbour lines make a session: each names the other, and over an external session both addresses are on
/// one subnet.
pub fn meet(a: &Peering, b: &Peering) -> bool
    ensures { result ≡ sessions.meet a.now b.now }
{
    a.router != b.router
        && names_other(a, b)
        && names_other(b, a)
        && (a.asn == b.asn || a.source.subnet == b.source.subnet)
}

fn some_meets(others: &[Peering], a: &Peering) -> bool
    ensures { result ≡ list_any (sessions.meet a.now) others.now }
{
    others.iter().any(|b| meet(a, b))
}

fn has_session(addresses: &[Addressed], others: &[Peering], a: &Peering) -> bool
    ensures { result ≡ sessions.has_session addresses.now others.now a.now }
{
    is_external_peer(addresses, a) || some_meets(others, a)
}

/// The neighbour lines that are not shut down.
pub fn speaking(
    alloc: Global,
    files: &[File],
    peers: &[Peering],
) -> Result<Vec<Peering>, AllocError>
    requires peers { peers.now ≡ sessions.peerings files.now }
    ensures { IfOk result (λ all. all.items ≡ sessions.speaking files.now) }
{
    let _routers = files.len();
    peers.iter().copied().filter(|a| !a.shutdown).collect(alloc)
}

/// The neighbour lines that have a session.
#[tactic(auto, unfolding(crate::specs::Sessions::sessions))]
pub fn sessions(
    alloc: Global,
    files: &[File],
    addresses: &[Addressed],
    speaking: &[Peering],
) -> Result<Vec<Peering>, AllocError>
    requires addresses { addresses.now ≡ addressed files.now }
    requires speaking { speaking.now ≡ sessions.speaking files.now }
    ensures { IfOk result (λ all. all.items ≡ sessions.sessions files.now) }
{
    let _routers = files.len();
    speaking
        .iter()
        .copied()
        .filter(|a| has_session(addresses, speaking, a))
        .collect(alloc)
}

fn place_of(others: &[Peering], a: &Peering) -> Option<usize>
    ensures place { result ≡ position (sessions.meet a.now) others.now }
    ensures within { IfSome result (λ at. at < length others.now) }
{
    others.iter().position(|b| meet(a, b))
}

fn far_of(addresses: &[Addressed], others: &[Peering], a: &Peering) -> Far
    requires few { length others.now ≤ 0xffff_ffff }
    ensures { result ≡ sessions.far_of addresses.now others.now a.now }
{
    if is_external_peer(addresses, a) {
        return Far::Outside;
    }
    match place_of(others, a) {
        None => Far::Inside(0),
        Some(at) => Far::Inside(at as u32),
    }
}

fn end_of(addresses: &[Addressed], others: &[Peering], a: &Peering) -> SessionEnd
    requires few { length others.now ≤ 0xffff_ffff }
    ensures { result ≡ sessions.end_of addresses.now others.now a.now }
{
    SessionEnd {
        router: a.router,
        neighbour: a.at,
        far: far_of(addresses, others, a),
        internal: a.asn == a.remote,
        own: a.source.id,
        shared: contains(&a.source.subnet, a.neighbour),
    }
}

fn all_ends(
    alloc: Global,
    addresses: &[Addressed],
    standing: &[Peering],
) -> Result<List<SessionEnd>, AllocError>
    requires few { length standing.now ≤ 0xffff_ffff }
    ensures { IfOk result (λ ends. ends ≡ map (sessions.end_of addresses.now standing.now) standing.now) }
{
    let mut ends = List::new(alloc);
    for a in standing {
        ends.items.push(end_of(addresses, standing, a))?;
    }
    Ok(ends)
}

/// The ends of all sessions, by router and then by neighbour line.
#[tactic(auto, using(crate::proofs::Peers::few_sessions), unfolding(crate::specs::Sessions::ends_of))]
pub fn ends_of(
    alloc: Global,
    files: &[File],
    addresses: &[Addressed],
) -> Result<List<SessionEnd>, AllocError>
    requires addresses { addresses.now ≡ addressed files.now }
    requires few { length files.now ≤ MOST_FILES }
    requires limits { list_all keeps_limits files.now ≡ true }
    ensures { IfOk result (λ all. all ≡ sessions.ends_of files.now) }
{
    let peers = peerings(alloc, files, addresses)?;
    let speaking = speaking(alloc, files, peers.as_slice())?;
    let standing = sessions(alloc, files, addresses, speaking.as_slice())?;
    all_ends(alloc, addresses, standing.as_slice())
}
