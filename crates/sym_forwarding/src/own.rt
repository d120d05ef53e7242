//! Whether the destination is an address of the router itself, as a term.

ghost use Rattle.std.specs.Prelude.{◌≡◌, ℕ, ◌+◌, ◌<◌, ◌≤◌, ◌==◌, ◌&&◌, Bool, false, IfOk};
ghost use Rattle.std.specs.List.{list_any};
ghost use Rattle.net_parts.specs.Routing.{up_interfaces};
ghost use Rattle.net_parts.specs.World.{is_up};
ghost use Rattle.sym_policy.specs.Held.{failures_of};
ghost use Rattle.term_store.specs.Terms.{Reading, size, at};
ghost use Rattle.term_store.specs.Reading.{Reads, Builds, Gives};
ghost use Rattle.term_arith.specs.Bits.{ids_end, number};

use net_model::{Addressed, Net};
use std::alloc::{AllocError, Global};
use sym_ospf::sym_up;
use sym_policy::SymNet;
use term_arith::gates::{both, constant_node, either};
use term_arith::{Bits, equal_number};
use term_store::{NodeId, Terms};

// Whether the interface is one of the router, up, and has the address.
fn sym_own_at(
    alloc: Global,
    terms: &mut Terms,
    net: &Net,
    sym: &SymNet,
    router: u32,
    a: &Bits,
    x: &Addressed,
) -> Result<NodeId, AllocError>
    requires downs { ids_end sym.now.down ≤ size terms.old }
    requires nodes { ids_end a.now.nodes.items ≤ size terms.old }
    ensures builds { Builds terms.old terms.new }
    ensures within { IfOk result (λ r. r.0 < size terms.new) }
    ensures value { Gives terms.new result (λ w r. at w r ≡
        (((x.now.id.router == router) && is_up net.now.files (failures_of w sym.now) x.now)
        && (x.now.addr.0 == number w a.now.nodes.items))) }
{
    if x.id.router != router {
        return constant_node(terms, false);
    }
    let up = sym_up(alloc, terms, net, sym, x)?;
    let same = equal_number(terms, a.nodes.as_slice(), u64::from(x.addr.0))?;
    both(terms, up, same)
}

/// Whether the address is one of an interface of the router that is up: a packet to it is delivered there.
pub fn sym_own(
    alloc: Global,
    terms: &mut Terms,
    net: &Net,
    sym: &SymNet,
    router: u32,
    a: &Bits,
) -> Result<NodeId, AllocError>
    requires downs { ids_end sym.now.down ≤ size terms.old }
    requires nodes { ids_end a.now.nodes.items ≤ size terms.old }
    ensures builds { Builds terms.old terms.new }
    ensures within { IfOk result (λ r. r.0 < size terms.new) }
    ensures value { Gives terms.new result (λ w r. at w r ≡
        list_any (λ x. x.addr.0 == number w a.now.nodes.items) (up_interfaces net.now.files (failures_of w sym.now) router)) }
{
    let mut any = constant_node(terms, false)?;
    for x in net.addresses() {
        let here = sym_own_at(alloc, terms, net, sym, router, a, x)?;
        any = either(terms, any, here)?;
    }
    Ok(any)
}
