//! Identifiers of routers (RFC 4271, section 4.2; Cisco IOS, `bgp router-id`).

ghost use Rattle.std.specs.Prelude.{◌≡◌, [], ◌==◌, ◌&&◌, IfOk, filter, fold, map, not, option_and_then, slice_get};
ghost use Rattle.std.specs.List.{list_any};
ghost use Rattle.net_interfaces.specs.Interfaces.{addressed};
ghost use Rattle.net_parts.specs.Exports as exports;

use ios_ast::File;
use mw_text::Addr;
use net_interfaces::Addressed;
use std::alloc::{AllocError, Global};

fn configured_in(file: &File) -> Option<Addr>
    ensures { result ≡ option_and_then (λ bgp. bgp.router_id) file.now.bgp }
{
    match &file.bgp {
        None => None,
        Some(bgp) => bgp.router_id,
    }
}

fn configured_id(files: &[File], router: u32) -> Option<Addr>
    ensures { result ≡ exports.configured_id files.now router }
{
    match files.get(router as usize) {
        None => None,
        Some(file) => configured_in(file),
    }
}

fn is_open_on(x: &Addressed, router: u32) -> bool
    ensures { result ≡ ((x.now.id.router == router) && not x.now.shutdown) }
{
    x.id.router == router && !x.shutdown
}

fn highest(interfaces: &[Addressed]) -> Addr
    ensures { result ≡ exports.highest (map (λ x. x.addr) interfaces.now) }
{
    let mut best = Addr(0);
    for x in interfaces {
        best = Addr(best.0.max(x.addr.0));
    }
    best
}

fn has_loopback(interfaces: &[Addressed]) -> bool
    ensures { result ≡ list_any (λ x. x.loopback) interfaces.now }
{
    interfaces.iter().any(|x| x.loopback)
}

fn id_by_addresses(alloc: Global, own: &[Addressed]) -> Result<Addr, AllocError>
    ensures { IfOk result (λ id. id ≡ exports.id_by_addresses own.now) }
{
    if !has_loopback(own) {
        return Ok(highest(own));
    }
    let loopbacks: Vec<Addressed> = own.iter().copied().filter(|x| x.loopback).collect(alloc)?;
    Ok(highest(loopbacks.as_slice()))
}

fn id_by_own(alloc: Global, addresses: &[Addressed], router: u32) -> Result<Addr, AllocError>
    ensures { IfOk result (λ id. id ≡ exports.id_by_addresses (filter (λ x. (x.id.router == router) && not x.shutdown) addresses.now)) }
{
    let own: Vec<Addressed> = addresses
        .iter()
        .copied()
        .filter(|x| is_open_on(x, router))
        .collect(alloc)?;
    id_by_addresses(alloc, own.as_slice())
}

/// The identifier of a router: as it is configured; else its highest loopback address; else its highest address; else
/// 0.0.0.0; of interfaces that are not shut down.
#[tactic(auto, unfolding(crate::specs::Exports::router_id))]
pub fn router_id(
    alloc: Global,
    files: &[File],
    addresses: &[Addressed],
    router: u32,
) -> Result<Addr, AllocError>
    requires addresses { addresses.now ≡ addressed files.now }
    ensures { IfOk result (λ id. id ≡ exports.router_id files.now router) }
{
    match configured_id(files, router) {
        Some(id) => Ok(id),
        None => id_by_own(alloc, addresses, router),
    }
}
