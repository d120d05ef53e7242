//! The network of a list of files.

ghost use Rattle.std.specs.Prelude.{All, AllPairs, ◌≡◌, ◌≢◌, ◌≤◌, ◌<◌, IfOk, IfErr, IfSome, IsTrue, None, OnErr, OnOk, Some, position, true, length, map, slice_range};
ghost use Rattle.std.specs.List.{list_all};
ghost use Rattle.std.specs.List.Sorted.{IsNonDecreasingBy};
ghost use Rattle.mw_text.specs.Address.{same_prefix};
ghost use Rattle.mw_text.specs.Text.{same_text};
ghost use Rattle.net_parts.specs.Exports as exports;
ghost use Rattle.net_parts.specs.Exports.{router_id};
ghost use Rattle.net_interfaces.specs.Interfaces as interfaces;
ghost use Rattle.net_model.specs.Kept.{IsJoined, IsKept, RunsOspf, ids_from};
ghost use Rattle.net_interfaces.specs.Limits.{keeps_limits};
ghost use Rattle.net_refusals.specs.Network.{IsNetwork};
ghost use Rattle.net_parts.specs.Ospf as ospf;
ghost use Rattle.net_refusals.specs.Refusals.{first_refusal};
ghost use Rattle.net_parts.specs.Routing as routing;
ghost use Rattle.net_parts.specs.Sessions as sessions;
ghost use Rattle.net_parts.specs.Tracked as values;
ghost use Rattle.net_parts.specs.World as world;

use ios_ast::File;
use mw_text::{Addr, List, Prefix, same_bytes};
use net_interfaces::MOST_FILES;
use net_interfaces::interfaces::{Addressed, IfaceId, addressed_of};
use net_parts::adjacencies::{Adjacency, adjacencies};
use net_parts::ends::{learnt_over, places_at};
use net_parts::links::{Link, link_place, links_of};
use net_parts::ospf::{OspfInterface, advertised, ospf_cost, ospf_interfaces};
use net_parts::router_ids::router_id;
use net_parts::sessions::{SessionEnd, ends_of, peerings};
use net_parts::states::{is_direct_over, is_reached_over, is_up, is_up_at, owner, subnet_of};
use net_parts::tracking::{tracked_of, united_tracked};
use net_refusals::{NetCause, NetRefused, refuse};
use route_record::{Failures, Learnt, Tracked};
use std::alloc::{AllocError, Global};
use std::marker::Model;
use std::ops::Range;

/// A network. Contracts see the list of its files, from which all else follows, and the values that it tracks: all that the
/// files name, and maybe more.
#[derive(Drop)]
pub struct Net {
    routers: List<File>,
    parts: Parts,
}

// The interfaces of a network, and what joins its routers.
#[derive(Drop)]
struct Joined {
    addresses: List<Addressed>,
    links: List<Link>,
    ends: List<SessionEnd>,
}

// What runs OSPF.
#[derive(Drop)]
struct OspfParts {
    running: List<OspfInterface>,
    adjacencies: List<Adjacency>,
    advertised: List<Prefix>,
}

// What a network keeps beside its files.
#[derive(Drop)]
struct Parts {
    joined: Joined,
    ospf: OspfParts,
    tracked: Tracked,
    ids: List<Addr>,
}

impl Model for Net {
    ghost use Rattle.net_model.specs.Kept.{IsKept, Network};

    ghost Value = { Network };

    ghost view = { λ net. record { files = net.routers; tracked = net.parts.tracked } };

    ghost invariant = { λ net. IsKept net.routers net.parts };
}

fn place_of(files: &[File], name: &[u8]) -> Option<usize>
    ensures place { result ≡ position (λ file. same_text file.hostname name.now) files.now }
    ensures within { IfSome result (λ at. at < length files.now) }
{
    files
        .iter()
        .position(|file| same_bytes(file.hostname.as_slice(), name))
}

fn all_links(
    alloc: Global,
    files: &[File],
    addresses: &[Addressed],
) -> Result<List<Link>, AllocError>
    requires addresses { addresses.now ≡ interfaces.addressed files.now }
    requires few { length files.now ≤ MOST_FILES }
    requires limits { list_all keeps_limits files.now ≡ true }
    ensures { IfOk result (λ links. links ≡ world.links_of files.now) }
{
    let peers = peerings(alloc, files, addresses)?;
    links_of(alloc, files, addresses, peers.as_slice())
}

fn all_ids(alloc: Global, files: &[File], addresses: &[Addressed]) -> Result<List<Addr>, AllocError>
    requires addresses { addresses.now ≡ interfaces.addressed files.now }
    requires few { length files.now ≤ MOST_FILES }
    ensures { IfOk result (λ ids. ids ≡ ids_from files.now 0 files.now) }
{
    let mut ids = List::new(alloc);
    for (router, _) in files.iter().enumerate() {
        ids.items
            .push(router_id(alloc, files, addresses, router as u32)?)?;
    }
    Ok(ids)
}

#[tactic(auto, using(crate::proofs::Ids::id_at, crate::proofs::Ids::as_many))]
fn id_at(files: &[File], ids: &[Addr], router: u32) -> Addr
    requires ids { ids.now ≡ ids_from files.now 0 files.now }
    requires within { router < length files.now }
    ensures { result ≡ router_id files.now router }
{
    let _routers = files.len();
    ids[router as usize]
}

fn joined_of(alloc: Global, files: &[File]) -> Result<Joined, AllocError>
    requires limits { list_all keeps_limits files.now ≡ true }
    requires few { length files.now ≤ MOST_FILES }
    ensures { IfOk result (IsJoined files.now) }
{
    let addresses = addressed_of(alloc, files)?;
    let links = all_links(alloc, files, addresses.as_slice())?;
    let ends = ends_of(alloc, files, addresses.as_slice())?;
    Ok(Joined {
        addresses,
        links,
        ends,
    })
}

fn ospf_of(alloc: Global, files: &[File], addresses: &[Addressed]) -> Result<OspfParts, AllocError>
    requires addresses { addresses.now ≡ interfaces.addressed files.now }
    ensures { IfOk result (RunsOspf files.now) }
{
    let running = ospf_interfaces(alloc, files, addresses)?;
    let adjacencies = adjacencies(alloc, files, running.as_slice())?;
    let advertised = advertised(alloc, files, running.as_slice())?;
    Ok(OspfParts {
        running,
        adjacencies,
        advertised,
    })
}

// What a network of these files keeps.
fn parts_of(alloc: Global, files: &[File]) -> Result<Parts, AllocError>
    requires network { IsNetwork files.now }
    requires few { length files.now ≤ MOST_FILES }
    ensures kept { IfOk result (IsKept files.now) }
    ensures tracked { IfOk result (λ parts. parts.tracked ≡ values.tracked_of files.now) }
{
    let joined = joined_of(alloc, files)?;
    let addresses = joined.addresses.as_slice();
    let ospf = ospf_of(alloc, files, addresses)?;
    let ids = all_ids(alloc, files, addresses)?;
    let tracked = tracked_of(alloc, files, addresses)?;
    Ok(Parts {
        joined,
        ospf,
        tracked,
        ids,
    })
}

impl Net {
    /// The network of these files, each of one router; or why they form none, by the first rule that they break, with its
    /// file and line. Each file keeps the limits of a file and the range of OSPF costs, as every file that was read does.
    #[tactic(auto, using(net_refusals::proofs::Few::few_files, net_parts::proofs::TrackedUp::few_clusters))]
    pub fn build(alloc: Global, files: List<File>) -> Result<Net, NetRefused>
        requires limits { list_all keeps_limits files ≡ true }
        ensures ok { IfOk result (λ net. (net ≡ record { files = files; tracked = values.tracked_of files })
            × (first_refusal files ≡ None)) }
        ensures few_clusters { IfOk result (λ net. length net.tracked.clusters ≤ length files) }
        ensures refused { IfErr result (λ why. why.cause ≢ NetCause.Memory → first_refusal files ≡ Some why) }
    {
        if let Some(why) = refuse(alloc, files.as_slice())? {
            return Err(why);
        }
        let parts = parts_of(alloc, files.as_slice())?;
        Ok(Net {
            routers: files,
            parts,
        })
    }

    /// The routers, in the order of the files.
    pub fn routers(&self) -> &[File]
        ensures all { result.now ≡ self.now.files }
        ensures few { length self.now.files ≤ MOST_FILES }
        ensures limits { list_all keeps_limits self.now.files ≡ true }
        ensures unrefused { first_refusal self.now.files ≡ None }
    {
        self.routers.as_slice()
    }

    /// The interfaces that have an address, in the order of the files.
    pub fn addresses(&self) -> &[Addressed]
        ensures { result.now ≡ interfaces.addressed self.now.files }
    {
        self.parts.joined.addresses.as_slice()
    }

    /// The links, ascending by their prefixes: a link is named by its place here.
    #[tactic(auto, using(net_parts::proofs::Ascending::links_ascend, net_parts::proofs::FewLinks::few_links))]
    pub fn links(&self) -> &[Link]
        ensures value { result.now ≡ world.links_of self.now.files }
        ensures ascending { AllPairs world.IsBefore (world.links_of self.now.files) }
        ensures few { length (world.links_of self.now.files) ≤ 0xffff_ffff }
    {
        self.parts.joined.links.as_slice()
    }

    /// The place of the link of that subnet. None exactly where the subnet is no link.
    pub fn link_at(&self, p: &Prefix) -> Option<u32>
        ensures place { result ≡ position (λ link. same_prefix link.prefix p.now) (world.links_of self.now.files) }
        ensures within { IfSome result (λ at. at < length (world.links_of self.now.files)) }
    {
        match link_place(self.links(), p) {
            None => None,
            Some(at) => Some(at as u32),
        }
    }

    /// The ends of all BGP sessions, by router and then by neighbour line.
    #[tactic(auto, using(net_parts::proofs::EndPlaces::ends_placed, net_parts::proofs::EndPlaces::ends_up))]
    pub fn ends(&self) -> &[SessionEnd]
        ensures value { result.now ≡ sessions.ends_of self.now.files }
        ensures placed { All (sessions.IsPlaced self.now.files) (sessions.ends_of self.now.files) }
        ensures in_order { IsNonDecreasingBy (λ end. end.router) (sessions.ends_of self.now.files) }
    {
        self.parts.joined.ends.as_slice()
    }

    /// Where the ends of one router stand among all: one after another, none where it has no session.
    pub fn ends_of(&self, router: u32) -> Range<usize>
        ensures ordered { result.start ≤ result.end }
        ensures within { result.end ≤ length (sessions.ends_of self.now.files) }
        ensures own { slice_range (sessions.ends_of self.now.files) result.start result.end ≡ sessions.ends_at self.now.files router }
    {
        places_at(self.ends(), router)
    }

    /// The end over which a router learnt a route. None for a local route, and where no session of the router has that
    /// neighbour.
    pub fn learnt_over(&self, router: u32, from: Learnt) -> Option<SessionEnd>
        ensures { result ≡ exports.learnt_over self.now.files router from }
    {
        learnt_over(self.routers(), self.ends(), router, from)
    }

    /// The interfaces that run OSPF, shut down or not, in the order of the files.
    #[tactic(auto, using(net_parts::proofs::Costs::interface_costs))]
    pub fn ospf_interfaces(&self) -> &[OspfInterface]
        ensures value { result.now ≡ ospf.ospf_interfaces self.now.files }
        ensures costs { All (λ x. (0 < x.cost) × (x.cost ≤ 65535)) (ospf.ospf_interfaces self.now.files) }
    {
        self.parts.ospf.running.as_slice()
    }

    /// All OSPF adjacencies while no link fails, by `from` and then by `to`.
    #[tactic(auto, using(net_parts::proofs::Costs::adjacency_costs))]
    pub fn adjacencies(&self) -> &[Adjacency]
        ensures value { result.now ≡ ospf.adjacencies self.now.files }
        ensures costs { All (λ a. (0 < a.cost) × (a.cost ≤ 65535)) (ospf.adjacencies self.now.files) }
    {
        self.parts.ospf.adjacencies.as_slice()
    }

    /// Every prefix that some interface advertises by OSPF, ascending, each once.
    #[tactic(auto, using(net_parts::proofs::Ascending::advertised_ascend))]
    pub fn advertised(&self) -> &[Prefix]
        ensures value { result.now ≡ ospf.advertised self.now.files }
        ensures ascending { AllPairs (λ p q. IsTrue (world.comes_before p q)) (ospf.advertised self.now.files) }
    {
        self.parts.ospf.advertised.as_slice()
    }

    /// The communities, AS numbers and cluster identifiers that the network tracks: all that its files name, and what was
    /// added since. Each list ascends, has each value once, and has at most 128 members.
    pub fn tracked(&self) -> &Tracked
        ensures value { result.now ≡ self.now.tracked }
        ensures tracks { values.TracksNet self.now.files self.now.tracked }
    {
        &self.parts.tracked
    }

    /// Tracks these values too. Where there is no memory for it, the network stays as it was.
    pub fn track_more(&mut self, alloc: Global, more: &Tracked) -> Result<(), AllocError>
        requires room { values.IsRoomFor self.old.tracked more.now }
        ensures tracked { OnOk result (self.new ≡ record self.old { tracked = values.united_tracked self.old.tracked more.now }) }
        ensures unchanged { OnErr result (self.new ≡ self.old) }
    {
        let tracked = united_tracked(alloc, &self.parts.tracked, more)?;
        self.parts.tracked = tracked;
        Ok(())
    }

    /// The BGP identifier of a router (RFC 4271, section 4.2).
    pub fn bgp_id(&self, router: u32) -> Addr
        requires within { router < length self.now.files }
        ensures { result ≡ router_id self.now.files router }
    {
        id_at(self.routers(), self.parts.ids.as_slice(), router)
    }

    /// The interface that has the address, shut down or not. None exactly where there is none.
    pub fn owner(&self, a: Addr) -> Option<IfaceId>
        ensures { result ≡ interfaces.owner self.now.files a }
    {
        owner(self.routers(), self.addresses(), a)
    }

    /// The subnet of an interface, shut down or not, that contains the address. None exactly where there is none.
    pub fn subnet_of(&self, a: Addr) -> Option<Prefix>
        ensures { result ≡ interfaces.subnet_of self.now.files a }
    {
        subnet_of(self.routers(), self.addresses(), a)
    }

    /// Whether the interface has an address, is not shut down, and its subnet is no failed link.
    pub fn is_up(&self, failures: &Failures, i: IfaceId) -> bool
        ensures { result ≡ ospf.is_up_at self.now.files failures.now i }
    {
        is_up_at(self.routers(), self.addresses(), self.links(), failures, i)
    }

    /// Whether the interface is not shut down and its subnet is no failed link.
    pub fn is_up_with(&self, failures: &Failures, x: &Addressed) -> bool
        ensures { result ≡ world.is_up self.now.files failures.now x.now }
    {
        is_up(self.routers(), self.links(), failures, x)
    }

    /// Whether an interface of the router that is up has the address on its subnet.
    pub fn is_reached(&self, failures: &Failures, router: u32, a: Addr) -> bool
        ensures { result ≡ routing.is_reached (routing.up_interfaces self.now.files failures.now router) a }
    {
        is_reached_over(
            self.routers(),
            self.addresses(),
            self.links(),
            failures,
            router,
            a,
        )
    }

    /// Whether an interface of the router that is up has that subnet.
    pub fn is_direct(&self, failures: &Failures, router: u32, p: &Prefix) -> bool
        ensures { result ≡ routing.is_direct (routing.up_interfaces self.now.files failures.now router) p.now }
    {
        is_direct_over(
            self.routers(),
            self.addresses(),
            self.links(),
            failures,
            router,
            p,
        )
    }

    /// The OSPF output cost of an interface. None exactly where it does not run OSPF.
    pub fn ospf_cost(&self, i: IfaceId) -> Option<u32>
        ensures { result ≡ ospf.ospf_cost self.now.files i }
    {
        ospf_cost(self.routers(), self.ospf_interfaces(), i)
    }

    /// The router of that name. None exactly where there is none.
    pub fn router_named(&self, name: &[u8]) -> Option<u32>
        ensures place { result ≡ position (λ file. same_text file.hostname name.now) self.now.files }
        ensures within { IfSome result (λ at. at < length self.now.files) }
    {
        match place_of(self.routers.as_slice(), name) {
            None => None,
            Some(at) => Some(at as u32),
        }
    }
}
