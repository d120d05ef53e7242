//! The OSPF routes that a router originates itself (RFC 2328, section 12.4).

ghost use Rattle.std.specs.Prelude.{◌≡◌, IfOk, Some, slice_get};
ghost use Rattle.std.specs.List.{list_any};
ghost use Rattle.net_parts.specs.OspfRoutes as routes;
ghost use Rattle.route_candidates.specs.Origins as origins;

use ios_ast::File;
use mw_text::{List, Prefix};
use net_model::Net;
use proto_ospf::{originates, prefer};
use proto_rib::redistribute;
use route_record::{Failures, OspfKind, OspfRec, Slot};
use std::alloc::{AllocError, Global};

// What the interfaces of the router originate.
fn internal_origins(
    alloc: Global,
    net: &Net,
    failures: &Failures,
    router: u32,
    p: &Prefix,
) -> Result<List<OspfRec>, AllocError>
    ensures { IfOk result (λ made. made ≡ origins.internal_origins net.now.files failures.now router p.now) }
{
    let mut made = List::new(alloc);
    for x in net.ospf_interfaces() {
        if originates(net, failures, router, p, x) {
            made.items.push(OspfRec {
                kind: OspfKind::Internal,
                metric: 0,
                cost: x.cost,
            })?;
        }
    }
    Ok(made)
}

/// The own origins of a router for the prefix while it holds this slot: of its interfaces, and what it takes from its
/// own table.
pub fn origins(
    alloc: Global,
    net: &Net,
    failures: &Failures,
    router: u32,
    p: &Prefix,
    slot: &Slot,
) -> Result<List<OspfRec>, AllocError>
    ensures { IfOk result (λ made. made ≡ origins.origins_at net.now.files failures.now router p.now slot.now) }
{
    let mut made = internal_origins(alloc, net, failures, router, p)?;
    let taken = redistribute(alloc, net, router, p, slot)?;
    made.items.extend_from_slice(taken.as_slice())?;
    Ok(made)
}

// Whether some origin is as good as the held record.
fn some_as_good(origins: &[OspfRec], held: &OspfRec) -> bool
    ensures { result ≡ list_any (λ o. routes.is_as_good o held.now) origins.now }
{
    origins.iter().any(|o| prefer(o, held))
}

/// Whether an own origin of the router, while it holds this slot, is as good as the record, so that its table has no
/// OSPF entry. False where it runs no OSPF.
#[tactic(auto, using(crate::proofs::OspfParts::origins_of))]
pub fn is_own(
    alloc: Global,
    net: &Net,
    failures: &Failures,
    router: u32,
    file: &File,
    p: &Prefix,
    slot: &Slot,
    held: &OspfRec,
) -> Result<bool, AllocError>
    requires file { slice_get net.now.files router ≡ Some file.now }
    ensures { IfOk result (λ own. own
        ≡ routes.is_own net.now.files failures.now router file.now p.now slot.now held.now) }
{
    if file.ospf.is_none() {
        return Ok(false);
    }
    let own = origins(alloc, net, failures, router, p, slot)?;
    Ok(some_as_good(own.as_slice(), held))
}
