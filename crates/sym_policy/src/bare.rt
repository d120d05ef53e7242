//! Routes that carry nothing, as terms: empty paths, no communities, no originator, no peer, no clusters.

ghost use Rattle.std.specs.Prelude.{◌≡◌, ℕ, ◌+◌, ◌<◌, ◌≤◌, Bool, false, [], IfOk, length, map, max, replicate};
ghost use Rattle.term_store.specs.Terms.{Reading, size, at};
ghost use Rattle.term_store.specs.Reading.{Reads, Builds, Gives};
ghost use Rattle.term_arith.specs.Bits.{bits, number, ids_end};
ghost use Rattle.ios_ast.specs.Deciding.{carries};
ghost use Rattle.route_record.specs.Shape.{has_address};
ghost use Rattle.route_shapes.specs.Shapes.{path_shape};
ghost use Rattle.sym_policy.specs.Routes.{path_at, path_end, rest_end, IsBare};

use crate::parts::{SymPath, SymRest};
use route_record::Tracked;
use std::alloc::{AllocError, Global};
use term_arith::{Bits, constant, zeros};
use term_store::Terms;

/// The empty path.
#[tactic(auto, using(crate::proofs::BareRows::empty_path))]
pub fn no_path(alloc: Global, terms: &mut Terms, tracked: &Tracked) -> Result<SymPath, AllocError>
    ensures builds { Builds terms.old terms.new }
    ensures within { IfOk result (λ r. path_end r ≤ size terms.new) }
    ensures rows { IfOk result (λ r. length r.numbers.nodes.items ≡ length tracked.now.numbers) }
    ensures value { Gives terms.new result (λ w r. path_at w r ≡ path_shape tracked.now.numbers []) }
{
    let len = constant(alloc, terms, 0, 32)?;
    let first = constant(alloc, terms, 0, 32)?;
    let last = constant(alloc, terms, 0, 32)?;
    let numbers = zeros(alloc, terms, tracked.numbers.as_slice().len())?;
    Ok(SymPath {
        len,
        first,
        last,
        numbers,
    })
}

/// A next hop, and neither originator, peer nor clusters.
#[tactic(auto, using(crate::proofs::BareRows::no_clusters))]
pub fn bare_rest(
    alloc: Global,
    terms: &mut Terms,
    tracked: &Tracked,
    next_hop: Bits,
) -> Result<SymRest, AllocError>
    requires wide { length next_hop.nodes.items ≡ 32 }
    requires nodes { ids_end next_hop.nodes.items ≤ size terms.old }
    ensures builds { Builds terms.old terms.new }
    ensures within { IfOk result (λ r. rest_end r ≤ size terms.new) }
    ensures rows { IfOk result (λ r. length r.clusters.nodes.items ≡ length tracked.now.clusters) }
    ensures value { Gives terms.new result (λ w r. IsBare w tracked.now (number w next_hop.nodes.items) r) }
{
    let originator = constant(alloc, terms, 0, 33)?;
    let from = constant(alloc, terms, 0, 33)?;
    let cluster_len = constant(alloc, terms, 0, 32)?;
    let clusters = zeros(alloc, terms, tracked.clusters.as_slice().len())?;
    Ok(SymRest {
        next_hop,
        originator,
        from,
        cluster_len,
        clusters,
    })
}
