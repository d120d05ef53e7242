//! Interfaces of a router that are up, as terms: their subnets, and what these reach.

ghost use Rattle.std.specs.Prelude.{◌≡◌, ◌==◌, ◌&&◌, ◌||◌, ℕ, ◌+◌, ◌<◌, ◌≤◌, Bool, false, IfOk, length};
ghost use Rattle.mw_text.specs.Address.{covers, same_prefix};
ghost use Rattle.net_parts.specs.Routing as routing;
ghost use Rattle.net_parts.specs.World as world;
ghost use Rattle.sym_policy.specs.Held.{failures_of};
ghost use Rattle.sym_policy.specs.Records.{prefix_of};
ghost use Rattle.term_store.specs.Terms.{Reading, size, at};
ghost use Rattle.term_store.specs.Reading.{Reads, Builds, Gives};
ghost use Rattle.term_arith.specs.Bits.{number, ids_end};

use crate::prefixes::sym_same_prefix;
use mw_text::{Addr, contains};
use net_model::{Addressed, Net};
use std::alloc::{AllocError, Global};
use sym_interfaces::sym_up;
use sym_policy::SymNet;
use term_arith::Bits;
use term_arith::gates::{both, constant_node, either};
use term_store::{NodeId, Terms};

/// Whether an interface is one of the router, is up, and has the subnet that is asked for.
fn sym_direct_over(
    alloc: Global,
    terms: &mut Terms,
    net: &Net,
    sym: &SymNet,
    router: u32,
    dst: &Bits,
    len: u8,
    x: &Addressed,
) -> Result<NodeId, AllocError>
    requires long { len ≤ 32 }
    requires wide { length dst.now.nodes.items ≡ 32 }
    requires nodes { ids_end dst.now.nodes.items ≤ size terms.old }
    requires down { ids_end sym.now.down ≤ size terms.old }
    ensures builds { Builds terms.old terms.new }
    ensures within { IfOk result (λ r. r.0 < size terms.new) }
    ensures value { Gives terms.new result (λ w r. at w r ≡ (((x.now.id.router == router)
        && world.is_up net.now.files (failures_of w sym.now) x.now) && same_prefix x.now.subnet (prefix_of w dst.now len))) }
{
    if x.id.router != router {
        return constant_node(terms, false);
    }
    let same = sym_same_prefix(terms, &x.subnet, dst, len)?;
    let up = sym_up(alloc, terms, net, sym, x)?;
    both(terms, up, same)
}

/// Whether an interface of the router that is up has as its subnet the prefix of that length of a destination.
pub(crate) fn sym_direct(
    alloc: Global,
    terms: &mut Terms,
    net: &Net,
    sym: &SymNet,
    router: u32,
    dst: &Bits,
    len: u8,
) -> Result<NodeId, AllocError>
    requires long { len ≤ 32 }
    requires wide { length dst.now.nodes.items ≡ 32 }
    requires nodes { ids_end dst.now.nodes.items ≤ size terms.old }
    requires down { ids_end sym.now.down ≤ size terms.old }
    ensures builds { Builds terms.old terms.new }
    ensures within { IfOk result (λ r. r.0 < size terms.new) }
    ensures value { Gives terms.new result (λ w r. at w r
        ≡ routing.is_direct (routing.up_interfaces net.now.files (failures_of w sym.now) router) (prefix_of w dst.now len)) }
{
    let mut any = constant_node(terms, false)?;
    for x in net.addresses() {
        let here = sym_direct_over(alloc, terms, net, sym, router, dst, len, x)?;
        any = either(terms, any, here)?;
    }
    Ok(any)
}

/// Whether an interface is one of the router, is up, and has the address on its subnet.
fn sym_reached_over(
    alloc: Global,
    terms: &mut Terms,
    net: &Net,
    sym: &SymNet,
    router: u32,
    a: Addr,
    x: &Addressed,
) -> Result<NodeId, AllocError>
    requires down { ids_end sym.now.down ≤ size terms.old }
    ensures builds { Builds terms.old terms.new }
    ensures within { IfOk result (λ r. r.0 < size terms.new) }
    ensures value { Gives terms.new result (λ w r. at w r ≡ (((x.now.id.router == router)
        && world.is_up net.now.files (failures_of w sym.now) x.now) && covers x.now.subnet a)) }
{
    if x.id.router == router && contains(&x.subnet, a) {
        sym_up(alloc, terms, net, sym, x)
    } else {
        constant_node(terms, false)
    }
}

/// Whether an interface of the router that is up has the address on its subnet.
pub(crate) fn sym_reached(
    alloc: Global,
    terms: &mut Terms,
    net: &Net,
    sym: &SymNet,
    router: u32,
    a: Addr,
) -> Result<NodeId, AllocError>
    requires down { ids_end sym.now.down ≤ size terms.old }
    ensures builds { Builds terms.old terms.new }
    ensures within { IfOk result (λ r. r.0 < size terms.new) }
    ensures value { Gives terms.new result (λ w r. at w r
        ≡ routing.is_reached (routing.up_interfaces net.now.files (failures_of w sym.now) router) a) }
{
    let mut any = constant_node(terms, false)?;
    for x in net.addresses() {
        let here = sym_reached_over(alloc, terms, net, sym, router, a, x)?;
        any = either(terms, any, here)?;
    }
    Ok(any)
}
