//! The tables of a network of connected and static routes, no link of which has failed.

ghost use Rattle.std.specs.Prelude.{◌≡◌, IfOk, true};
ghost use Rattle.route_record.specs.declared.Environment.{Environment};
ghost use Rattle.route_record.specs.declared.Tables.{Tables as TablesOf};
ghost use Rattle.net_parts.specs.Protocols.{runs_no_protocol};
ghost use Rattle.net_parts.specs.World.{no_failures};
ghost use Rattle.net_parts.specs.Routing.{candidates, closer, least_distance};
ghost use Rattle.net_parts.specs.Stable.{Stable};
ghost use Rattle.proto_rib.specs.Unfailed.{slot_over};

use ios_ast::{File, StaticRoute};
use mw_text::{Addr, List, Prefix, prefix_of};
use net_model::{Addressed, Net};
use net_parts::routing::{is_direct, open_interfaces, route_counts};
use route_record::{LENGTHS, RibEntry, RibSource, Slot, Tables, read_tables};
use std::alloc::{AllocError, Global};

/// Of two entries the later one only where its distance is less.
pub fn closer_of(best: Option<RibEntry>, entry: RibEntry) -> Option<RibEntry>
    ensures { result ≡ closer best entry }
{
    match best {
        None => Some(entry),
        Some(held) => {
            if entry.distance < held.distance {
                Some(entry)
            } else {
                Some(held)
            }
        }
    }
}

// The entry for the prefix: the candidate of least distance.
fn entry_of(up: &[Addressed], statics: &[StaticRoute], p: &Prefix) -> Option<RibEntry>
    ensures { result ≡ least_distance (candidates up.now statics.now p.now) }
{
    let mut best = None;
    if is_direct(up, p) {
        best = Some(RibEntry {
            source: RibSource::Connected,
            distance: 0,
        });
    }
    for route in statics {
        if route.prefix == *p && route_counts(up, route) {
            let entry = RibEntry {
                source: RibSource::Static,
                distance: route.distance,
            };
            best = closer_of(best, entry);
        }
    }
    best
}

// The slot of a router for the prefix.
fn slot_of(
    alloc: Global,
    addresses: &[Addressed],
    router: u32,
    file: &File,
    p: &Prefix,
) -> Result<Slot, AllocError>
    ensures { IfOk result (λ slot. slot ≡ slot_over addresses.now router file.now p.now) }
{
    let up = open_interfaces(alloc, addresses, router)?;
    let rib = entry_of(up.as_slice(), file.statics.as_slice(), p);
    Ok(Slot {
        ospf: None,
        bgp: None,
        rib,
    })
}

/// The one stable routing for the destination `d` of a network in which no router runs OSPF or BGP, while no link has
/// failed.
pub fn tables_of(alloc: Global, net: &Net, d: Addr) -> Result<Tables, AllocError>
    requires plain { runs_no_protocol net.now.files ≡ true }
    ensures stable { IfOk result (λ tables. (environment : Environment) → Stable net.now.files d no_failures environment tables) }
    ensures only { IfOk result (λ tables. (environment : Environment) (other : TablesOf) →
        Stable net.now.files d no_failures environment other → other ≡ tables) }
{
    let mut slots = List::new(alloc);
    let routers = net.routers();
    for place in 0..LENGTHS * routers.len() {
        let router = place / LENGTHS;
        let p = prefix_of(d, (place % LENGTHS) as u8);
        let slot = slot_of(alloc, net.addresses(), router as u32, &routers[router], &p)?;
        slots.items.push(slot)?;
    }
    let tables = Tables { slots };
    read_tables(&tables);
    Ok(tables)
}
