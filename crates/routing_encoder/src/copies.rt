//! Copies of BGP routes, of the same nodes.

ghost use Rattle.std.specs.Prelude.{◌≡◌, IfOk};
ghost use Rattle.route_record.specs.declared.tracked.Tracked.{Tracked};
ghost use Rattle.term_store.specs.Terms.{Reading};
ghost use Rattle.sym_policy.specs.Held.{bgp_end, bgp_of};
ghost use Rattle.sym_policy.specs.SameNodes.{IsSeen};
ghost use Rattle.sym_policy.specs.MapRecs.{HasTracked};

use std::alloc::{AllocError, Global};
use sym_policy::{SymBgp, SymMapRec, SymRoute, joined, path_of, preferences_of, rest_of};
use term_arith::copy;

// A copy of what route maps see of a route.
fn copy_seen(alloc: Global, rec: &SymBgp) -> Result<SymRoute, AllocError>
    ensures { IfOk result (λ r. IsSeen (record { bgp = rec.now; type1 = rec.now.valid }) r) }
{
    let communities = copy(alloc, &rec.communities)?;
    let path = path_of(alloc, rec)?;
    let preferences = preferences_of(alloc, rec)?;
    Ok(SymRoute {
        preferences,
        path,
        communities,
        type1: rec.valid,
    })
}

/// A copy of a route.
#[tactic(auto, using(bgp_equations::proofs::LocalSteps::copy_read, bgp_equations::proofs::LocalSteps::copy_end, bgp_equations::proofs::LocalSteps::copy_marks))]
pub fn copy_bgp(alloc: Global, rec: &SymBgp) -> Result<SymBgp, AllocError>
    ensures within { IfOk result (λ r. bgp_end r ≡ bgp_end rec.now) }
    ensures rows { IfOk result (λ r. (tracked : Tracked) → HasTracked tracked rec.now → HasTracked tracked r) }
    ensures value { IfOk result (λ r. (w : Reading) → bgp_of w r ≡ bgp_of w rec.now) }
{
    let rest = rest_of(alloc, rec)?;
    let route = copy_seen(alloc, rec)?;
    let made = joined(rec.valid, route, rest);
    let SymMapRec { bgp, .. } = made;
    Ok(bgp)
}
