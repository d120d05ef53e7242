//! The end of a session over which a BGP route was learnt, as terms.

ghost use Rattle.std.specs.Prelude.{◌≡◌, ◌==◌, ℕ, ◌+◌, ◌^◌, ◌<◌, ◌≤◌, Bool, false, if◌then◌else◌, Some, None, IfOk};
ghost use Rattle.std.specs.Prelude.{length};
ghost use Rattle.std.specs.List.{find};
ghost use Rattle.std.specs.Option.{option_map_or};
ghost use Rattle.sym_policy.specs.Held.{bgp_end};
ghost use Rattle.sym_rib.specs.Slots.{rib_of, rib_end, IsNumbered};
ghost use Rattle.bgp_shapes.specs.Crossings.{end_numbered, is_from};
ghost use Rattle.sym_rib.specs.Sources.{is_of_kind, learnt_entry};
ghost use Rattle.term_store.specs.Terms.{Reading, size, at};
ghost use Rattle.term_store.specs.Reading.{Reads, Builds, Gives};
ghost use Rattle.term_arith.specs.Bits.{number, ids_end};

use crate::ribs::{choose_rib, entry_where};
use crate::slots::SymRib;
use net_model::{Net, SessionEnd};
use net_parts::ends::neighbour_of;
use route_record::RibSource;
use std::alloc::{AllocError, Global};
use sym_policy::SymBgp;
use term_arith::gates::{both, constant_node, select};
use term_arith::{Bits, equal_number};
use term_store::{NodeId, Terms};

/// The number of an address in the field that tells where a route was learnt.
fn number_of(addr: u32) -> u64
    ensures { result ≡ 2 ^ 32 + addr }
{
    0x1_0000_0000 + u64::from(addr)
}

/// Whether a route was learnt over an end.
fn sym_is_from(
    terms: &mut Terms,
    net: &Net,
    router: u32,
    from: &Bits,
    end: &SessionEnd,
) -> Result<NodeId, AllocError>
    requires { ids_end from.now.nodes.items ≤ size terms.old }
    ensures builds { Builds terms.old terms.new }
    ensures within { IfOk result (λ r. r.0 < size terms.new) }
    ensures value { Gives terms.new result (λ w r. at w r
        ≡ is_from net.now.files router (number w from.now.nodes.items) end.now) }
{
    if end.router != router {
        return constant_node(terms, false);
    }
    match neighbour_of(net.routers(), end) {
        None => constant_node(terms, false),
        Some(neighbour) => {
            let number = number_of(neighbour.addr.0);
            equal_number(terms, from.nodes.as_slice(), number)
        }
    }
}

/// Whether an end is of the kind that is asked for.
fn has_kind(end: &SessionEnd, internal: bool) -> bool
    ensures { result ≡ is_of_kind internal end.now }
{
    if internal {
        end.internal
    } else {
        !end.internal
    }
}

/// Whether a route was learnt over an end of the kind that is asked for.
#[tactic(auto, using(crate::proofs::LearntOver::found_steps))]
fn sym_learnt(
    terms: &mut Terms,
    net: &Net,
    router: u32,
    from: &Bits,
    internal: bool,
) -> Result<NodeId, AllocError>
    requires { ids_end from.now.nodes.items ≤ size terms.old }
    ensures builds { Builds terms.old terms.new }
    ensures within { IfOk result (λ r. r.0 < size terms.new) }
    ensures value { Gives terms.new result (λ w r. at w r
        ≡ option_map_or (is_of_kind internal) (end_numbered net.now.files router (number w from.now.nodes.items)) false) }
{
    let ends = net.ends();
    let mut rest = constant_node(terms, false)?;
    for i in (0..ends.len()).rev() {
        let here = sym_is_from(terms, net, router, from, &ends[i])?;
        let answer = constant_node(terms, has_kind(&ends[i], internal))?;
        rest = select(terms, here, answer, rest)?;
    }
    Ok(rest)
}

/// The entry of a BGP route: with distance 20 where it was learnt over an external session, 200 over an internal one.
#[tactic(auto, using(crate::proofs::LearntOver::learnt_chosen))]
pub(crate) fn bgp_rib(
    alloc: Global,
    terms: &mut Terms,
    net: &Net,
    router: u32,
    bgp: &SymBgp,
) -> Result<SymRib, AllocError>
    requires { bgp_end bgp.now ≤ size terms.old }
    ensures builds { Builds terms.old terms.new }
    ensures within { IfOk result (λ r. rib_end r ≤ size terms.new) }
    ensures numbered { Gives terms.new result (λ w r. IsNumbered w r) }
    ensures value { Gives terms.new result (λ w r. rib_of w r
        ≡ (if at w bgp.now.valid then learnt_entry net.now.files router (number w bgp.now.from.nodes.items) else None)) }
{
    let internal = sym_learnt(terms, net, router, &bgp.from, true)?;
    let external = sym_learnt(terms, net, router, &bgp.from, false)?;
    let inside = both(terms, bgp.valid, internal)?;
    let outside = both(terms, bgp.valid, external)?;
    let far = entry_where(alloc, terms, inside, RibSource::Ibgp, 200)?;
    let near = entry_where(alloc, terms, outside, RibSource::Ebgp, 20)?;
    choose_rib(alloc, terms, inside, &far, &near)
}
