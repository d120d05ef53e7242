//! The addresses to which packets can leave a network at a router.

ghost use Rattle.std.specs.Prelude.{◌≡◌, ◌++◌, IfOk, OnOk, filter, map};
ghost use Rattle.std.specs.List.{filter_map, flat_map, list_any};
ghost use Rattle.net_interfaces.specs.Connected.{next_hop};
ghost use Rattle.leaving_addresses.specs.Leaving as leaving;

use ios_ast::{Bgp, File, StaticRoute, Via};
use mw_text::{Addr, List, Prefix, contains};
use net_model::{Addressed, Net};
use net_parts::ends::file_of;
use std::alloc::{AllocError, Global};

// ---- next hops

fn next_hop_of(route: &StaticRoute) -> Option<Addr>
    ensures { result ≡ next_hop route.now.via }
{
    match &route.via {
        Via::Null0 => None,
        Via::Next(a) => Some(*a),
        Via::Out(_, a) => Some(*a),
    }
}

// Puts the next hops of static routes at the end.
fn add_statics(out: &mut List<Addr>, file: &File) -> Result<(), AllocError>
    ensures { OnOk result (out.new ≡ out.old ++ leaving.static_next_hops file.now) }
{
    for route in file.statics.as_slice() {
        if let Some(a) = next_hop_of(route) {
            out.items.push(a)?;
        }
    }
    Ok(())
}

fn add_neighbours(out: &mut List<Addr>, process: &Bgp) -> Result<(), AllocError>
    ensures { OnOk result (out.new ≡ out.old ++ map (λ neighbour. neighbour.addr) process.now.neighbours) }
{
    for neighbour in process.neighbours.as_slice() {
        out.items.push(neighbour.addr)?;
    }
    Ok(())
}

fn add_file(out: &mut List<Addr>, file: &File) -> Result<(), AllocError>
    ensures { OnOk result (out.new ≡ out.old ++ leaving.neighbour_addresses file.now) }
{
    match &file.bgp {
        None => Ok(()),
        Some(process) => add_neighbours(out, process),
    }
}

fn add_files(out: &mut List<Addr>, files: &[File]) -> Result<(), AllocError>
    ensures { OnOk result (out.new ≡ out.old ++ flat_map leaving.neighbour_addresses files.now) }
{
    for file in files {
        add_file(out, file)?;
    }
    Ok(())
}

// The next hops that BGP routes can have: the address of a neighbour, or none, which is 0.
#[tactic(auto, using(crate::proofs::NextHops::hops_are))]
fn bgp_next_hops(alloc: Global, files: &[File]) -> Result<List<Addr>, AllocError>
    ensures { IfOk result (λ all. all ≡ leaving.bgp_next_hops files.now) }
{
    let mut all = List::new(alloc);
    all.items.push(Addr(0))?;
    add_files(&mut all, files)?;
    Ok(all)
}

fn next_hops_at(alloc: Global, files: &[File], router: u32) -> Result<List<Addr>, AllocError>
    ensures { IfOk result (λ all. all ≡ leaving.next_hops_at files.now router) }
{
    let mut all = bgp_next_hops(alloc, files)?;
    if let Some(file) = file_of(files, router) {
        add_statics(&mut all, file)?;
    }
    Ok(all)
}

// ---- out of the network

fn is_owner_on(x: &Addressed, subnet: &Prefix, a: Addr) -> bool
    ensures { result ≡ leaving.is_owner_on subnet.now a x.now }
{
    !x.shutdown && x.addr == a && x.subnet == *subnet
}

fn is_owned_on(all: &[Addressed], subnet: &Prefix, a: Addr) -> bool
    ensures { result ≡ list_any (leaving.is_owner_on subnet.now a) all.now }
{
    all.iter().any(|x| is_owner_on(x, subnet, a))
}

fn leads_out(all: &[Addressed], router: u32, a: Addr, x: &Addressed) -> bool
    ensures { result ≡ leaving.leads_out all.now router a x.now }
{
    x.id.router == router
        && !x.shutdown
        && contains(&x.subnet, a)
        && !is_owned_on(all, &x.subnet, a)
}

fn can_leave(all: &[Addressed], router: u32, a: Addr) -> bool
    ensures { result ≡ leaving.can_leave all.now router a }
{
    all.iter().any(|x| leads_out(all, router, a, x))
}

fn those_out(
    alloc: Global,
    all: &[Addressed],
    router: u32,
    hops: &[Addr],
) -> Result<Vec<Addr>, AllocError>
    ensures { IfOk result (λ out. out.items ≡ filter (leaving.can_leave all.now router) hops.now) }
{
    hops.iter()
        .copied()
        .filter(|a| can_leave(all, router, *a))
        .collect(alloc)
}

/// The addresses to which packets can leave the network at the router, in any stable routing: the next hops of its static
/// routes and of BGP routes that lie on a subnet of an interface of the router, where no interface has them. An interface
/// that is shut down counts for none. One address may stand there more than once.
///
/// # Errors
/// Memory was refused.
pub fn leaving_addresses(alloc: Global, net: &Net, router: u32) -> Result<List<Addr>, AllocError>
    ensures { IfOk result (λ all. all ≡ leaving.leaving net.now.files router) }
{
    let hops = next_hops_at(alloc, net.routers(), router)?;
    let items = those_out(alloc, net.addresses(), router, hops.as_slice())?;
    Ok(List { items })
}
