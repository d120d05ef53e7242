//! Resolution of next hops as terms.

ghost use Rattle.std.specs.Prelude.{◌≡◌, ◌-◌, ◌*◌, ◌/◌, ◌<◌, ◌≤◌, true, false, if◌then◌else◌, IfOk, Some, length};
ghost use Rattle.std.specs.Prelude.{drop, option_map, slice_get};
ghost use Rattle.mw_text.specs.Address.{covers};
ghost use Rattle.term_store.specs.Terms.{size, at};
ghost use Rattle.term_store.specs.Reading.{Builds, Gives};
ghost use Rattle.term_arith.specs.Bits.{ids_end};
ghost use Rattle.net_parts.specs.Distances.{interior_distance};
ghost use Rattle.net_parts.specs.Ospf as ospf;
ghost use Rattle.net_parts.specs.Resolution.{resolved};
ghost use Rattle.net_parts.specs.Routing as routing;
ghost use Rattle.sym_policy.specs.Held.{failures_of, internal_route, ospf_of, ospf_end};
ghost use Rattle.sym_policy.specs.Records.{address_of};
ghost use Rattle.sym_ospf.specs.Rows.{net_end, HasDistances};
ghost use Rattle.sym_ospf.specs.Reached.{is_reached_by, found};

use crate::distances::igp_of;
use crate::routes::{choose_ospf, known_ospf};
use mw_text::Prefix;
use net_model::{Addressed, Net};
use std::alloc::{AllocError, Global};
use sym_interfaces::sym_up;
use sym_policy::{SymNet, SymOspf};
use term_arith::gates::{both, constant_node, either};
use term_arith::{Bits, equal_number};
use term_store::{NodeId, Terms};

/// A next hop of a route of a router of the network: its address, while the links of `sym` have failed.
#[derive(Clone, Copy)]
struct Hop<'a> {
    net: &'a Net,
    sym: &'a SymNet,
    router: u32,
    a: &'a Bits,
}

/// The bits of an address above its `low` lowest ones.
#[tactic(auto, using(std::proofs::lemmas::List::take_rest))]
fn high_bits(address: &Bits, low: u8) -> &[NodeId]
    requires { low ≤ length address.now.nodes.items }
    ensures { result.now ≡ drop low address.now.nodes.items }
{
    &address.nodes.as_slice()[low as usize..]
}

/// Whether the prefix contains an address, by as many bits as the prefix is long.
#[tactic(auto, using(sym_policy::proofs::HighBits::prefix_steps))]
fn sym_contains(terms: &mut Terms, prefix: &Prefix, address: &Bits) -> Result<NodeId, AllocError>
    requires wide { length address.now.nodes.items ≡ 32 }
    requires nodes { ids_end address.now.nodes.items ≤ size terms.old }
    ensures builds { Builds terms.old terms.new }
    ensures within { IfOk result (λ r. r.0 < size terms.new) }
    ensures value { Gives terms.new result (λ w r. at w r ≡ covers prefix.now (address_of w address.now)) }
{
    let low = 32u8.saturating_sub(prefix.len);
    let bits = high_bits(address, low);
    equal_number(terms, bits, u64::from(prefix.addr.0) >> low)
}

/// Whether the interface is one of the router, is up, and has the address on its subnet.
fn sym_reached_by(
    alloc: Global,
    terms: &mut Terms,
    hop: &Hop<'_>,
    x: &Addressed,
) -> Result<NodeId, AllocError>
    requires wide { length hop.now.a.now.nodes.items ≡ 32 }
    requires address { ids_end hop.now.a.now.nodes.items ≤ size terms.old }
    requires nodes { net_end hop.now.sym.now ≤ size terms.old }
    ensures builds { Builds terms.old terms.new }
    ensures within { IfOk result (λ r. r.0 < size terms.new) }
    ensures value { Gives terms.new result (λ w r. at w r
        ≡ is_reached_by hop.now.net.now.files (failures_of w hop.now.sym.now) hop.now.router
        (address_of w hop.now.a.now) x.now) }
{
    if x.id.router != hop.router {
        return constant_node(terms, false);
    }
    let up = sym_up(alloc, terms, hop.net, hop.sym, x)?;
    let inside = sym_contains(terms, &x.subnet, hop.a)?;
    both(terms, up, inside)
}

/// Whether an interface of the router that is up has the address on its subnet.
#[tactic(auto, using(crate::proofs::Reach::reach_steps))]
fn sym_reached(alloc: Global, terms: &mut Terms, hop: &Hop<'_>) -> Result<NodeId, AllocError>
    requires wide { length hop.now.a.now.nodes.items ≡ 32 }
    requires address { ids_end hop.now.a.now.nodes.items ≤ size terms.old }
    requires nodes { net_end hop.now.sym.now ≤ size terms.old }
    ensures builds { Builds terms.old terms.new }
    ensures within { IfOk result (λ r. r.0 < size terms.new) }
    ensures value { Gives terms.new result (λ w r. at w r
        ≡ routing.is_reached
        (routing.up_interfaces hop.now.net.now.files (failures_of w hop.now.sym.now) hop.now.router)
        (address_of w hop.now.a.now)) }
{
    let mut any = constant_node(terms, false)?;
    for x in hop.net.addresses() {
        let one = sym_reached_by(alloc, terms, hop, x)?;
        any = either(terms, any, one)?;
    }
    Ok(any)
}

/// The distance to the advertised prefix at a place where it contains the address, else what is behind it.
fn sym_found_at(
    alloc: Global,
    terms: &mut Terms,
    hop: &Hop<'_>,
    k: usize,
    p: &Prefix,
    behind: &SymOspf,
) -> Result<SymOspf, AllocError>
    requires rows { length hop.now.sym.now.igp
        ≡ length hop.now.net.now.files * length (ospf.advertised hop.now.net.now.files) }
    requires router { hop.now.router < length hop.now.net.now.files }
    requires place { k < length (ospf.advertised hop.now.net.now.files) }
    requires there { slice_get (ospf.advertised hop.now.net.now.files) k ≡ Some p.now }
    requires wide { length hop.now.a.now.nodes.items ≡ 32 }
    requires address { ids_end hop.now.a.now.nodes.items ≤ size terms.old }
    requires nodes { net_end hop.now.sym.now ≤ size terms.old }
    requires behind { ospf_end behind.now ≤ size terms.old }
    ensures builds { Builds terms.old terms.new }
    ensures within { IfOk result (λ r. ospf_end r ≤ size terms.new) }
    ensures value { Gives terms.new result (λ w r. HasDistances w hop.now.net.now.files hop.now.sym.now → ospf_of w r
        ≡ (if covers p.now (address_of w hop.now.a.now)
        then option_map internal_route
        (interior_distance hop.now.net.now.files (failures_of w hop.now.sym.now) hop.now.router p.now)
        else ospf_of w behind.now)) }
{
    let inside = sym_contains(terms, p, hop.a)?;
    let rec = igp_of(hop.net, hop.sym, hop.router, k);
    let made = choose_ospf(alloc, terms, inside, rec, behind)?;
    Ok(made)
}

/// The distance to the advertised prefix that contains the address.
#[tactic(auto, using(crate::proofs::Reach::found_steps))]
fn sym_found(alloc: Global, terms: &mut Terms, hop: &Hop<'_>) -> Result<SymOspf, AllocError>
    requires rows { length hop.now.sym.now.igp
        ≡ length hop.now.net.now.files * length (ospf.advertised hop.now.net.now.files) }
    requires router { hop.now.router < length hop.now.net.now.files }
    requires wide { length hop.now.a.now.nodes.items ≡ 32 }
    requires address { ids_end hop.now.a.now.nodes.items ≤ size terms.old }
    requires nodes { net_end hop.now.sym.now ≤ size terms.old }
    ensures builds { Builds terms.old terms.new }
    ensures within { IfOk result (λ r. ospf_end r ≤ size terms.new) }
    ensures value { Gives terms.new result (λ w r. HasDistances w hop.now.net.now.files hop.now.sym.now → ospf_of w r
        ≡ found hop.now.net.now.files (failures_of w hop.now.sym.now) hop.now.router (address_of w hop.now.a.now)
        (ospf.advertised hop.now.net.now.files)) }
{
    let mut rest = known_ospf(alloc, terms, false, 0)?;
    for k in (0..hop.net.advertised().len()).rev() {
        let p = hop.net.advertised()[k];
        rest = sym_found_at(alloc, terms, hop, k, &p, &rest)?;
    }
    Ok(rest)
}

/// The distance to the advertised prefix that contains the address, also of a router that is none of the files.
#[tactic(auto, using(crate::proofs::Reach::found_past))]
fn sym_far(alloc: Global, terms: &mut Terms, hop: &Hop<'_>) -> Result<SymOspf, AllocError>
    requires rows { length hop.now.sym.now.igp
        ≡ length hop.now.net.now.files * length (ospf.advertised hop.now.net.now.files) }
    requires wide { length hop.now.a.now.nodes.items ≡ 32 }
    requires address { ids_end hop.now.a.now.nodes.items ≤ size terms.old }
    requires nodes { net_end hop.now.sym.now ≤ size terms.old }
    ensures builds { Builds terms.old terms.new }
    ensures within { IfOk result (λ r. ospf_end r ≤ size terms.new) }
    ensures value { Gives terms.new result (λ w r. HasDistances w hop.now.net.now.files hop.now.sym.now → ospf_of w r
        ≡ found hop.now.net.now.files (failures_of w hop.now.sym.now) hop.now.router (address_of w hop.now.a.now)
        (ospf.advertised hop.now.net.now.files)) }
{
    if (hop.router as usize) < hop.net.routers().len() {
        sym_found(alloc, terms, hop)
    } else {
        known_ospf(alloc, terms, false, 0)
    }
}

/// How far the address is from the router, as an internal route with metric 0: cost 0 where an interface of the router
/// that is up has it on its subnet, else the interior distance to the advertised prefix that contains it, and else none
/// (RFC 4271, section 5.1.3). This holds under each reading in which the rows of `sym` are the interior distances.
#[tactic(auto, unfolding(net_parts::specs::Resolution::resolved), using(crate::proofs::Reach::resolved_is))]
pub fn sym_resolve(
    alloc: Global,
    terms: &mut Terms,
    net: &Net,
    sym: &SymNet,
    router: u32,
    a: &Bits,
) -> Result<SymOspf, AllocError>
    requires rows { length sym.now.igp ≡ length net.now.files * length (ospf.advertised net.now.files) }
    requires wide { length a.now.nodes.items ≡ 32 }
    requires address { ids_end a.now.nodes.items ≤ size terms.old }
    requires nodes { net_end sym.now ≤ size terms.old }
    ensures builds { Builds terms.old terms.new }
    ensures within { IfOk result (λ r. ospf_end r ≤ size terms.new) }
    ensures value { Gives terms.new result (λ w r. HasDistances w net.now.files sym.now → ospf_of w r
        ≡ option_map internal_route (resolved net.now.files (failures_of w sym.now) router (address_of w a.now))) }
{
    let hop = Hop {
        net,
        sym,
        router,
        a,
    };
    let reached = sym_reached(alloc, terms, &hop)?;
    let far = sym_far(alloc, terms, &hop)?;
    let here = known_ospf(alloc, terms, true, 0)?;
    choose_ospf(alloc, terms, reached, &here, &far)
}
