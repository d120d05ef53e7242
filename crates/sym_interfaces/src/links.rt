//! Which interfaces are up while some links have failed.

ghost use Rattle.std.specs.Prelude.{◌≡◌, ◌<◌, ◌≤◌, ◌==◌, ◌&&◌, ◌||◌, false, IfOk, slice_index_or};
ghost use Rattle.std.specs.Option.{option_map_or};
ghost use Rattle.term_store.specs.Terms.{size, at};
ghost use Rattle.term_store.specs.Reading.{Builds, Gives};
ghost use Rattle.term_arith.specs.Bits.{bits, ids_end};
ghost use Rattle.net_parts.specs.World as world;
ghost use Rattle.net_parts.specs.Ospf as ospf;
ghost use Rattle.sym_policy.specs.Held.{failures_of};

use mw_text::Prefix;
use net_model::{Addressed, IfaceId, Net};
use std::alloc::{AllocError, Global};
use sym_policy::SymNet;
use term_arith::gates::{constant_node, either, negate};
use term_store::{NodeId, Terms};

/// The node at a place. Where there is none, false.
#[tactic(auto, using(crate::proofs::FailedLinks::down_steps))]
fn node_at(terms: &mut Terms, down: &[NodeId], place: Option<u32>) -> Result<NodeId, AllocError>
    requires nodes { ids_end down.now ≤ size terms.old }
    ensures builds { Builds terms.old terms.new }
    ensures within { IfOk result (λ r. r.0 < size terms.new) }
    ensures value { Gives terms.new result (λ w r. at w r
        ≡ option_map_or (λ k. slice_index_or (bits w down.now) k false) place false) }
{
    match place {
        Some(k) if (k as usize) < down.len() => Ok(down[k as usize]),
        _ => constant_node(terms, false),
    }
}

/// Whether the subnet is a link that has failed.
#[tactic(auto, using(crate::proofs::FailedLinks::failed_at))]
fn sym_failed(terms: &mut Terms, net: &Net, sym: &SymNet, p: &Prefix) -> Result<NodeId, AllocError>
    requires nodes { ids_end sym.now.down ≤ size terms.old }
    ensures builds { Builds terms.old terms.new }
    ensures within { IfOk result (λ r. r.0 < size terms.new) }
    ensures value { Gives terms.new result (λ w r. at w r ≡ world.is_failed net.now.files (failures_of w sym.now) p.now) }
{
    let _links = net.links();
    node_at(terms, sym.down.as_slice(), net.link_at(p))
}

/// Whether the interface is up while the links of `sym` have failed: it is not shut down and its subnet is no failed
/// link. A link without a node has not failed.
pub fn sym_up(
    _alloc: Global,
    terms: &mut Terms,
    net: &Net,
    sym: &SymNet,
    x: &Addressed,
) -> Result<NodeId, AllocError>
    requires nodes { ids_end sym.now.down ≤ size terms.old }
    ensures builds { Builds terms.old terms.new }
    ensures within { IfOk result (λ r. r.0 < size terms.new) }
    ensures value { Gives terms.new result (λ w r. at w r ≡ world.is_up net.now.files (failures_of w sym.now) x.now) }
{
    if x.shutdown {
        return constant_node(terms, false);
    }
    let failed = sym_failed(terms, net, sym, &x.subnet)?;
    negate(terms, failed)
}

/// True where the node is, or where the interface is the one at that place and is up.
fn sym_or_up(
    alloc: Global,
    terms: &mut Terms,
    net: &Net,
    sym: &SymNet,
    i: IfaceId,
    x: &Addressed,
    any: NodeId,
) -> Result<NodeId, AllocError>
    requires nodes { ids_end sym.now.down ≤ size terms.old }
    requires any { any.0 < size terms.old }
    ensures builds { Builds terms.old terms.new }
    ensures within { IfOk result (λ r. r.0 < size terms.new) }
    ensures value { Gives terms.new result (λ w r. at w r
        ≡ (at w any || (((x.now.id.router == i.router) && (x.now.id.at == i.at))
        && world.is_up net.now.files (failures_of w sym.now) x.now))) }
{
    if x.id.router == i.router && x.id.at == i.at {
        let up = sym_up(alloc, terms, net, sym, x)?;
        either(terms, any, up)
    } else {
        Ok(any)
    }
}

/// Whether the interface at that place has an address and is up.
pub fn sym_up_at(
    alloc: Global,
    terms: &mut Terms,
    net: &Net,
    sym: &SymNet,
    i: IfaceId,
) -> Result<NodeId, AllocError>
    requires nodes { ids_end sym.now.down ≤ size terms.old }
    ensures builds { Builds terms.old terms.new }
    ensures within { IfOk result (λ r. r.0 < size terms.new) }
    ensures value { Gives terms.new result (λ w r. at w r ≡ ospf.is_up_at net.now.files (failures_of w sym.now) i) }
{
    let mut any = constant_node(terms, false)?;
    for x in net.addresses() {
        any = sym_or_up(alloc, terms, net, sym, i, x, any)?;
    }
    Ok(any)
}
