//! What route maps see of a route, as terms, and choices between such routes.

ghost use Rattle.std.specs.Prelude.{◌≡◌, ℕ, ◌+◌, ◌<◌, ◌≤◌, Bool, if◌then◌else◌, IfOk, length};
ghost use Rattle.term_store.specs.Terms.{Reading, size, at};
ghost use Rattle.term_store.specs.Reading.{Reads, Builds, Gives};
ghost use Rattle.term_arith.specs.Bits.{bits, number, ids_end};
ghost use Rattle.sym_policy.specs.Routes.{path_at, path_end, preferences_at, preferences_end, route_at, route_end, made_at, made_end, SameRows};

use crate::parts::{SymMade, SymPath, SymPreferences, SymRoute};
use std::alloc::{AllocError, Global};
use term_arith::choose;
use term_arith::gates::select;
use term_store::{NodeId, Terms};

/// The first path where `c` is true, else the second.
fn choose_path(
    alloc: Global,
    terms: &mut Terms,
    c: NodeId,
    a: &SymPath,
    b: &SymPath,
) -> Result<SymPath, AllocError>
    requires rows { length a.now.numbers.nodes.items ≡ length b.now.numbers.nodes.items }
    requires test { c.0 < size terms.old }
    requires first { path_end a.now ≤ size terms.old }
    requires second { path_end b.now ≤ size terms.old }
    ensures builds { Builds terms.old terms.new }
    ensures within { IfOk result (λ r. path_end r ≤ size terms.new) }
    ensures rows { IfOk result (λ r. length r.numbers.nodes.items ≡ length a.now.numbers.nodes.items) }
    ensures value { Gives terms.new result (λ w r. path_at w r ≡ (if at w c then path_at w a.now else path_at w b.now)) }
{
    let len = choose(alloc, terms, c, &a.len, &b.len)?;
    let first = choose(alloc, terms, c, &a.first, &b.first)?;
    let last = choose(alloc, terms, c, &a.last, &b.last)?;
    let numbers = choose(alloc, terms, c, &a.numbers, &b.numbers)?;
    Ok(SymPath {
        len,
        first,
        last,
        numbers,
    })
}

/// The first numbers where `c` is true, else the second.
fn choose_preferences(
    alloc: Global,
    terms: &mut Terms,
    c: NodeId,
    a: &SymPreferences,
    b: &SymPreferences,
) -> Result<SymPreferences, AllocError>
    requires test { c.0 < size terms.old }
    requires first { preferences_end a.now ≤ size terms.old }
    requires second { preferences_end b.now ≤ size terms.old }
    ensures builds { Builds terms.old terms.new }
    ensures within { IfOk result (λ r. preferences_end r ≤ size terms.new) }
    ensures value { Gives terms.new result (λ w r. preferences_at w r ≡ (if at w c then preferences_at w a.now else preferences_at w b.now)) }
{
    let weight = choose(alloc, terms, c, &a.weight, &b.weight)?;
    let local_pref = choose(alloc, terms, c, &a.local_pref, &b.local_pref)?;
    let med = choose(alloc, terms, c, &a.med, &b.med)?;
    let origin = choose(alloc, terms, c, &a.origin, &b.origin)?;
    Ok(SymPreferences {
        weight,
        local_pref,
        med,
        origin,
    })
}

/// The first route where `c` is true, else the second.
fn choose_route(
    alloc: Global,
    terms: &mut Terms,
    c: NodeId,
    a: &SymRoute,
    b: &SymRoute,
) -> Result<SymRoute, AllocError>
    requires rows { SameRows a.now b.now }
    requires test { c.0 < size terms.old }
    requires first { route_end a.now ≤ size terms.old }
    requires second { route_end b.now ≤ size terms.old }
    ensures builds { Builds terms.old terms.new }
    ensures within { IfOk result (λ r. route_end r ≤ size terms.new) }
    ensures rows { IfOk result (λ r. SameRows r a.now) }
    ensures value { Gives terms.new result (λ w r. route_at w r ≡ (if at w c then route_at w a.now else route_at w b.now)) }
{
    let preferences = choose_preferences(alloc, terms, c, &a.preferences, &b.preferences)?;
    let path = choose_path(alloc, terms, c, &a.path, &b.path)?;
    let communities = choose(alloc, terms, c, &a.communities, &b.communities)?;
    let type1 = select(terms, c, a.type1, b.type1)?;
    Ok(SymRoute {
        preferences,
        path,
        communities,
        type1,
    })
}

/// What the first one makes where `c` is true, else what the second one does.
pub(crate) fn choose_made(
    alloc: Global,
    terms: &mut Terms,
    c: NodeId,
    a: &SymMade,
    b: &SymMade,
) -> Result<SymMade, AllocError>
    requires rows { SameRows a.now.route b.now.route }
    requires test { c.0 < size terms.old }
    requires first { made_end a.now ≤ size terms.old }
    requires second { made_end b.now ≤ size terms.old }
    ensures builds { Builds terms.old terms.new }
    ensures within { IfOk result (λ r. made_end r ≤ size terms.new) }
    ensures rows { IfOk result (λ r. SameRows r.route a.now.route) }
    ensures value { Gives terms.new result (λ w r. made_at w r ≡ (if at w c then made_at w a.now else made_at w b.now)) }
{
    let valid = select(terms, c, a.valid, b.valid)?;
    let route = choose_route(alloc, terms, c, &a.route, &b.route)?;
    Ok(SymMade { valid, route })
}
