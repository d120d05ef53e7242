//! What an entry of a route map makes of a route, as terms.

ghost use Rattle.std.specs.Prelude.{◌≡◌, ℕ, ◌+◌, ◌<◌, ◌≤◌, Bool, None, IfOk, length};
ghost use Rattle.term_store.specs.Terms.{Reading, size, at};
ghost use Rattle.term_store.specs.Reading.{Reads, Builds, Gives};
ghost use Rattle.term_arith.specs.Bits.{bits, number, ids_end};
ghost use Rattle.sym_policy.specs.Routes.{path_at, path_end, route_at, route_end, preferences_at, preferences_end, made_at, made_end, HasRows, SameRows};
ghost use Rattle.route_shapes.specs.Shapes.{set_shapes, shape_made};

use crate::copies::copy_route;
use crate::parts::{SymMade, SymRoute};
use crate::sets::set_line;
use ios_ast::{MapEntry, SetAct};
use route_record::Tracked;
use std::alloc::{AllocError, Global};
use term_arith::gates::constant_node;
use term_store::Terms;

/// The route after all lines, in their order.
#[tactic(auto, using(crate::proofs::SameNodes::copied_steps))]
fn set_lines(
    alloc: Global,
    terms: &mut Terms,
    tracked: &Tracked,
    external: bool,
    route: &SymRoute,
    lines: &[SetAct],
) -> Result<SymRoute, AllocError>
    requires rows { HasRows tracked.now route.now }
    requires nodes { route_end route.now ≤ size terms.old }
    ensures builds { Builds terms.old terms.new }
    ensures within { IfOk result (λ r. route_end r ≤ size terms.new) }
    ensures rows { IfOk result (λ r. HasRows tracked.now r) }
    ensures value { Gives terms.new result (λ w r. route_at w r ≡ set_shapes tracked.now external (route_at w route.now) lines.now) }
{
    let mut made = copy_route(alloc, route)?;
    for line in lines {
        made = set_line(alloc, terms, tracked, external, made, line)?;
    }
    Ok(made)
}

/// What an entry that decides makes of a route: one that denies makes none.
pub(crate) fn sym_made(
    alloc: Global,
    terms: &mut Terms,
    tracked: &Tracked,
    external: bool,
    route: &SymRoute,
    entry: &MapEntry,
) -> Result<SymMade, AllocError>
    requires rows { HasRows tracked.now route.now }
    requires nodes { route_end route.now ≤ size terms.old }
    ensures builds { Builds terms.old terms.new }
    ensures within { IfOk result (λ r. made_end r ≤ size terms.new) }
    ensures rows { IfOk result (λ r. HasRows tracked.now r.route) }
    ensures value { Gives terms.new result (λ w r. made_at w r ≡ shape_made tracked.now external (route_at w route.now) entry.now) }
{
    if entry.permit {
        let valid = constant_node(terms, true)?;
        let lines = entry.sets.as_slice();
        let route = set_lines(alloc, terms, tracked, external, route, lines)?;
        Ok(SymMade { valid, route })
    } else {
        sym_none(alloc, terms, route)
    }
}

/// No route; its fields are those of another.
#[tactic(auto, using(crate::proofs::SameNodes::copied_steps))]
pub(crate) fn sym_none(
    alloc: Global,
    terms: &mut Terms,
    route: &SymRoute,
) -> Result<SymMade, AllocError>
    requires { route_end route.now ≤ size terms.old }
    ensures builds { Builds terms.old terms.new }
    ensures within { IfOk result (λ r. made_end r ≤ size terms.new) }
    ensures rows { IfOk result (λ r. SameRows r.route route.now) }
    ensures value { Gives terms.new result (λ w r. made_at w r ≡ None) }
{
    let valid = constant_node(terms, false)?;
    let route = copy_route(alloc, route)?;
    Ok(SymMade { valid, route })
}
