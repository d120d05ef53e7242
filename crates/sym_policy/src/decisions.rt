//! What the entries of a route map make of a route, as terms.

ghost use Rattle.std.specs.Prelude.{◌≡◌, ℕ, ◌+◌, ◌<◌, ◌≤◌, Bool, IfOk, length};
ghost use Rattle.term_store.specs.Terms.{Reading, size, at};
ghost use Rattle.term_store.specs.Reading.{Reads, Builds, Gives};
ghost use Rattle.term_arith.specs.Bits.{bits, ids_end};
ghost use Rattle.sym_policy.specs.Order.{entries_of};
ghost use Rattle.sym_policy.specs.Records.{prefix_of};
ghost use Rattle.sym_policy.specs.Routes.{route_at, route_end, made_at, made_end, HasRows};
ghost use Rattle.route_shapes.specs.Shapes.{shape_after, shape_decided};

use crate::entries::{sym_made, sym_none};
use crate::lines::{Grounds, sym_takes};
use crate::parts::{SymMade, SymRoute};
use crate::routes::choose_made;
use ios_ast::MapEntry;
use std::alloc::{AllocError, Global};
use term_store::Terms;

/// What an entry makes of a route that it takes, and else what the entries behind it made.
fn sym_entry(
    alloc: Global,
    terms: &mut Terms,
    grounds: &Grounds<'_>,
    external: bool,
    route: &SymRoute,
    entry: &MapEntry,
    behind: &SymMade,
) -> Result<SymMade, AllocError>
    requires long { grounds.now.len ≤ 32 }
    requires wide { length grounds.now.dst.now.nodes.items ≡ 32 }
    requires dst { ids_end grounds.now.dst.now.nodes.items ≤ size terms.old }
    requires rows { HasRows grounds.now.tracked.now route.now }
    requires nodes { route_end route.now ≤ size terms.old }
    requires behind_rows { HasRows grounds.now.tracked.now behind.now.route }
    requires behind_nodes { made_end behind.now ≤ size terms.old }
    ensures builds { Builds terms.old terms.new }
    ensures within { IfOk result (λ r. made_end r ≤ size terms.new) }
    ensures rows { IfOk result (λ r. HasRows grounds.now.tracked.now r.route) }
    ensures value { Gives terms.new result (λ w r. made_at w r
        ≡ shape_after grounds.now.policies.now grounds.now.tracked.now (prefix_of w grounds.now.dst.now grounds.now.len)
        external (route_at w route.now) entry.now (made_at w behind.now)) }
{
    let takes = sym_takes(
        alloc,
        terms,
        grounds.policies,
        grounds.tracked,
        grounds.dst,
        grounds.len,
        route,
        entry,
    )?;
    let made = sym_made(alloc, terms, grounds.tracked, external, route, entry)?;
    choose_made(alloc, terms, takes, &made, behind)
}

/// What the entries make of a route: the first that takes it decides, and the end drops it.
pub(crate) fn sym_decided(
    alloc: Global,
    terms: &mut Terms,
    grounds: &Grounds<'_>,
    external: bool,
    route: &SymRoute,
    entries: &[&MapEntry],
) -> Result<SymMade, AllocError>
    requires long { grounds.now.len ≤ 32 }
    requires wide { length grounds.now.dst.now.nodes.items ≡ 32 }
    requires dst { ids_end grounds.now.dst.now.nodes.items ≤ size terms.old }
    requires rows { HasRows grounds.now.tracked.now route.now }
    requires nodes { route_end route.now ≤ size terms.old }
    ensures builds { Builds terms.old terms.new }
    ensures within { IfOk result (λ r. made_end r ≤ size terms.new) }
    ensures rows { IfOk result (λ r. HasRows grounds.now.tracked.now r.route) }
    ensures value { Gives terms.new result (λ w r. made_at w r
        ≡ shape_decided grounds.now.policies.now grounds.now.tracked.now
        (prefix_of w grounds.now.dst.now grounds.now.len) external (route_at w route.now) (entries_of entries.now)) }
{
    let mut rest = sym_none(alloc, terms, route)?;
    for i in (0..entries.len()).rev() {
        let entry = entries[i];
        rest = sym_entry(alloc, terms, grounds, external, route, entry, &rest)?;
    }
    Ok(rest)
}
