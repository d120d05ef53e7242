//! Whether tables are a stable routing.

ghost use Rattle.std.specs.Prelude.{◌≡◌, ◌≢◌, ◌≤◌, ◌<◌, ◌*◌, IfErr, IfOk, MatchOption, length, map};
ghost use Rattle.net_parts.specs.Sessions.{ends_of};
ghost use Rattle.net_parts.specs.Stable.{Stable};
ghost use Rattle.stable_replay.specs.Differences as differences;
ghost use Rattle.route_candidates.specs.Underlays.{IsUnderlay};
ghost use Rattle.stable_replay.specs.declared.differs.Differs.{Differs as Difference};

use crate::differs::{Differs, ReplayNo};
use crate::routing::Routing;
use crate::slots::test_slot;
use mw_text::{Addr, prefix_of};
use net_model::Net;
use route_candidates::underlay_of;
use route_record::{Environment, Failures, LENGTHS, Tables, read_tables};
use std::alloc::{AllocError, Global};

// Tests the slot at a place of the tables.
fn test_place(
    alloc: Global,
    routing: &Routing<'_>,
    d: Addr,
    place: usize,
) -> Result<Option<Differs>, AllocError>
    requires underlay { IsUnderlay routing.now.net.now.files routing.now.failures.now routing.now.underlay.now }
    requires size { length routing.now.tables.now.slots ≡ LENGTHS * length routing.now.net.now.files }
    requires within { place < LENGTHS * length routing.now.net.now.files }
    ensures { IfOk result (λ found. MatchOption found
        (differences.IsStableAt routing.now.net.now.files d routing.now.failures.now routing.now.env.now
        routing.now.tables.now place)
        (differences.IsDifferenceAt routing.now.net.now.files d routing.now.failures.now routing.now.env.now
        routing.now.tables.now place)) }
{
    let routers = routing.net.routers();
    let router = place / LENGTHS;
    let p = prefix_of(d, (place % LENGTHS) as u8);
    let slots = routing.tables.slots.as_slice();
    test_slot(
        alloc,
        routing,
        router as u32,
        &routers[router],
        &p,
        &slots[place],
    )
}

// The first place of the tables that differs.
fn first_over(alloc: Global, routing: &Routing<'_>, d: Addr) -> Result<Option<Differs>, AllocError>
    requires underlay { IsUnderlay routing.now.net.now.files routing.now.failures.now routing.now.underlay.now }
    requires size { length routing.now.tables.now.slots ≡ LENGTHS * length routing.now.net.now.files }
    ensures { IfOk result (λ found. MatchOption found
        (Stable routing.now.net.now.files d routing.now.failures.now routing.now.env.now routing.now.tables.now)
        (differences.IsFirstDifference routing.now.net.now.files d routing.now.failures.now routing.now.env.now
        routing.now.tables.now)) }
{
    read_tables(routing.tables);
    for place in 0..LENGTHS * routing.net.routers().len() {
        if let Some(found) = test_place(alloc, routing, d, place)? {
            return Ok(Some(found));
        }
    }
    Ok(None)
}

// The first place that differs.
fn first_difference(
    alloc: Global,
    net: &Net,
    d: Addr,
    failures: &Failures,
    env: &Environment,
    tables: &Tables,
) -> Result<Option<Differs>, AllocError>
    requires size { length tables.now.slots ≡ LENGTHS * length net.now.files }
    ensures { IfOk result (λ found. MatchOption found
        (Stable net.now.files d failures.now env.now tables.now)
        (differences.IsFirstDifference net.now.files d failures.now env.now tables.now)) }
{
    let underlay = underlay_of(alloc, net, failures)?;
    let routing = Routing {
        net,
        failures,
        env,
        tables,
        underlay: &underlay,
    };
    first_over(alloc, &routing, d)
}

/// Whether the tables are a stable routing of the network for the destination `d`, while these links have failed and the
/// external peers announce this: Ok exactly where they are. Else the first difference, by router, then by prefix length,
/// then by part in the order of OSPF, BGP and table entry; or want of memory. The tables have a slot for each router and
/// each of the 33 prefix lengths.
pub fn check(
    alloc: Global,
    net: &Net,
    d: Addr,
    failures: &Failures,
    env: &Environment,
    tables: &Tables,
) -> Result<(), ReplayNo>
    requires size { length tables.now.slots ≡ LENGTHS * length net.now.files }
    ensures ok { IfOk result (λ _. Stable net.now.files d failures.now env.now tables.now) }
    ensures differs { IfErr result (λ why. why ≢ ReplayNo.Memory → (differs : Difference)
        × (why ≡ ReplayNo.Differs differs)
        × differences.IsFirstDifference net.now.files d failures.now env.now tables.now differs) }
    ensures unstable { IfErr result (λ why. why ≢ ReplayNo.Memory → Stable net.now.files d failures.now env.now tables.now → ⊥) }
{
    match first_difference(alloc, net, d, failures, env, tables) {
        Err(_) => Err(ReplayNo::Memory),
        Ok(None) => Ok(()),
        Ok(Some(differs)) => Err(ReplayNo::Differs(differs)),
    }
}
