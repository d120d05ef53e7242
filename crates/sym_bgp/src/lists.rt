//! What the lists of a neighbour and the marks of a route answer, as terms.

ghost use Rattle.std.specs.Prelude.{◌≡◌, ℕ, ◌+◌, ◌<◌, ◌≤◌, Bool, true, IfOk, length, map, max};
ghost use Rattle.term_store.specs.Terms.{Reading, size, at};
ghost use Rattle.term_store.specs.Reading.{Reads, Builds, Gives};
ghost use Rattle.term_arith.specs.Bits.{bits, ids_end};
ghost use Rattle.net_parts.specs.Exports as exports;
ghost use Rattle.net_parts.specs.Tracked.{numbers_of};
ghost use Rattle.route_shapes.specs.Shapes.{marked, shape_passes_paths};
ghost use Rattle.sym_policy.specs.Records.{prefix_of};
ghost use Rattle.sym_policy.specs.Routes.{path_at, path_end};

use ios_ast::{Policies, Use};
use mw_text::{Addr, List};
use route_record::Tracked;
use std::alloc::{AllocError, Global};
use sym_policy::{SymPath, sym_marked, sym_paths_named, sym_prefixes_named};
use term_arith::Bits;
use term_arith::gates::constant_node;
use term_store::{NodeId, Terms};

/// Whether the prefix list that is applied, if one is, permits the prefix of that length of an address.
pub(crate) fn sym_passes_prefixes(
    alloc: Global,
    terms: &mut Terms,
    policies: &Policies,
    used: &Option<Use>,
    dst: &Bits,
    len: u8,
) -> Result<NodeId, AllocError>
    requires long { len ≤ 32 }
    requires wide { length dst.now.nodes.items ≡ 32 }
    requires dst { ids_end dst.now.nodes.items ≤ size terms.old }
    ensures builds { Builds terms.old terms.new }
    ensures within { IfOk result (λ r. r.0 < size terms.new) }
    ensures value { Gives terms.new result (λ w r. at w r
        ≡ exports.passes_prefixes policies.now used.now (prefix_of w dst.now len)) }
{
    match used {
        None => constant_node(terms, true),
        Some(named) => sym_prefixes_named(alloc, terms, policies, dst, len, named),
    }
}

/// Whether the AS-path list that is applied, if one is, permits the path.
pub(crate) fn sym_passes_paths(
    terms: &mut Terms,
    tracked: &Tracked,
    policies: &Policies,
    used: &Option<Use>,
    path: &SymPath,
) -> Result<NodeId, AllocError>
    requires { path_end path.now ≤ size terms.old }
    ensures builds { Builds terms.old terms.new }
    ensures within { IfOk result (λ r. r.0 < size terms.new) }
    ensures value { Gives terms.new result (λ w r. at w r
        ≡ shape_passes_paths tracked.now policies.now used.now (path_at w path.now)) }
{
    match used {
        None => constant_node(terms, true),
        Some(named) => sym_paths_named(terms, policies, tracked.numbers.as_slice(), path, named),
    }
}

/// The numbers of some identifiers.
pub(crate) fn numbers_of(alloc: Global, ids: &[Addr]) -> Result<Vec<u32>, AllocError>
    ensures { IfOk result (λ all. all.items ≡ numbers_of ids.now) }
{
    ids.iter().map(|id| id.0).collect(alloc)
}

/// Whether a cluster is marked. One that is not tracked is not.
pub(crate) fn sym_has_cluster(
    alloc: Global,
    terms: &mut Terms,
    tracked: &Tracked,
    marks: &[NodeId],
    id: Addr,
) -> Result<NodeId, AllocError>
    requires { ids_end marks.now ≤ size terms.old }
    ensures builds { Builds terms.old terms.new }
    ensures within { IfOk result (λ r. r.0 < size terms.new) }
    ensures value { Gives terms.new result (λ w r. at w r
        ≡ marked (numbers_of tracked.now.clusters) (bits w marks.now) id.0) }
{
    let numbers = numbers_of(alloc, tracked.clusters.as_slice())?;
    sym_marked(terms, numbers.as_slice(), marks, id.0)
}
