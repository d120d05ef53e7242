//! Whether adjacencies lie on least walks, by the rows of interior distances, as terms.

ghost use Rattle.std.specs.Prelude.{◌≡◌, ℕ, ◌+◌, ◌*◌, ◌<◌, ◌≤◌, ◌==◌, ◌&&◌, Bool, false, IfOk, IfSome, Some, None};
ghost use Rattle.std.specs.Prelude.{if◌then◌else◌, length, slice_get, option_and_then, option_copied, nat_lt};
ghost use Rattle.mw_text.specs.Address.{covers};
ghost use Rattle.net_parts.specs.Ospf as ospf;
ghost use Rattle.net_parts.specs.Sending.{is_on_least_walk};
ghost use Rattle.sym_ospf.specs.Routes.{routes_end};
ghost use Rattle.sym_ospf.specs.Rows.{HasDistances};
ghost use Rattle.sym_policy.specs.Held.{failures_of, ospf_of, ospf_end};
ghost use Rattle.sym_policy.specs.Records.{address_of};
ghost use Rattle.sym_forwarding.specs.Towards.{costs_more, leads_by};
ghost use Rattle.term_store.specs.Terms.{Reading, size, at};
ghost use Rattle.term_store.specs.Reading.{Reads, Builds, Gives};
ghost use Rattle.term_arith.specs.Bits.{ids_end};

use crate::prefixes::sym_covers;
use mw_text::Prefix;
use net_model::{Adjacency, Net};
use std::alloc::{AllocError, Global};
use sym_policy::{SymNet, SymOspf};
use term_arith::gates::{both, constant_node, is_never, select};
use term_arith::{Bits, add_within, constant, equal};
use term_store::{NodeId, Terms};

// An adjacency of the network that may lead a router to this address, while the links of `sym` have failed.
#[derive(Clone, Copy)]
struct Led<'a> {
    net: &'a Net,
    sym: &'a SymNet,
    router: u32,
    a: &'a Bits,
    x: &'a Adjacency,
}

// The item at a place that is a row and so much more.
fn at_row(rows: &[SymOspf], row: usize, width: usize, k: usize) -> Option<&SymOspf>
    ensures { option_copied result ≡ slice_get rows.now (row * width + k) }
{
    let first = row.checked_mul(width)?;
    let place = first.checked_add(k)?;
    rows.get(place)
}

// The route of a router to the advertised prefix at a place. A number that is no router's has none.
fn distance_of<'a>(net: &Net, sym: &'a SymNet, router: u32, k: usize) -> Option<&'a SymOspf>
    ensures value { option_copied result ≡ (if nat_lt router (length net.now.files)
        then slice_get sym.now.igp (router * length (ospf.advertised net.now.files) + k) else None) }
    ensures within { IfSome result (λ r. ospf_end r.now ≤ routes_end sym.now.igp) }
{
    if (router as usize) < net.routers().len() {
        at_row(
            sym.igp.as_slice(),
            router as usize,
            net.advertised().len(),
            k,
        )
    } else {
        None
    }
}

// Whether the one route costs as much as the other and so much more.
fn sym_costs_more(
    alloc: Global,
    terms: &mut Terms,
    cost: u32,
    near: &SymOspf,
    far: &SymOspf,
) -> Result<NodeId, AllocError>
    requires near { ospf_end near.now ≤ size terms.old }
    requires far { ospf_end far.now ≤ size terms.old }
    ensures builds { Builds terms.old terms.new }
    ensures within { IfOk result (λ r. r.0 < size terms.new) }
    ensures value { Gives terms.new result (λ w r. at w r ≡
        costs_more cost (ospf_of w near.now) (ospf_of w far.now)) }
{
    let more = constant(alloc, terms, u64::from(cost), 32)?;
    let summed = add_within(alloc, terms, &more, &far.cost)?;
    let same = equal(terms, &near.cost, &summed.sum)?;
    let exact = both(terms, summed.fits, same)?;
    let there = both(terms, near.valid, far.valid)?;
    let made = both(terms, there, exact)?;
    Ok(made)
}

// The same of routes that the rows may not have.
#[tactic(auto, using(crate::proofs::LeastWalks::no_sum))]
fn sym_rows_cost_more(
    alloc: Global,
    terms: &mut Terms,
    cost: u32,
    near: Option<&SymOspf>,
    far: Option<&SymOspf>,
) -> Result<NodeId, AllocError>
    requires near { IfSome near (λ r. ospf_end r.now ≤ size terms.old) }
    requires far { IfSome far (λ r. ospf_end r.now ≤ size terms.old) }
    ensures builds { Builds terms.old terms.new }
    ensures within { IfOk result (λ r. r.0 < size terms.new) }
    ensures value { Gives terms.new result (λ w r. at w r ≡ costs_more cost
        (option_and_then (ospf_of w) (option_copied near.entry))
        (option_and_then (ospf_of w) (option_copied far.entry))) }
{
    match near {
        None => constant_node(terms, false),
        Some(near) => match far {
            None => constant_node(terms, false),
            Some(far) => sym_costs_more(alloc, terms, cost, near, far),
        },
    }
}

// Whether the adjacency lies on a least walk of the router to the advertised prefix at a place.
fn sym_on_least_walk(
    alloc: Global,
    terms: &mut Terms,
    led: &Led<'_>,
    k: usize,
    p: &Prefix,
) -> Result<NodeId, AllocError>
    requires there { slice_get (ospf.advertised led.now.net.now.files) k ≡ Some p.now }
    requires rows { routes_end led.now.sym.now.igp ≤ size terms.old }
    ensures builds { Builds terms.old terms.new }
    ensures within { IfOk result (λ r. r.0 < size terms.new) }
    ensures value { Gives terms.new result (λ w r. HasDistances w led.now.net.now.files led.now.sym.now →
        at w r ≡ is_on_least_walk led.now.net.now.files (failures_of w led.now.sym.now) led.now.router p.now
        led.now.x.now) }
{
    let near = distance_of(led.net, led.sym, led.router, k);
    let far = distance_of(led.net, led.sym, led.x.to.router, k);
    let made = sym_rows_cost_more(alloc, terms, led.x.cost, near, far)?;
    Ok(made)
}

// Whether it does so where the prefix at a place contains the address, and else what is behind that.
fn sym_leads_at(
    alloc: Global,
    terms: &mut Terms,
    led: &Led<'_>,
    k: usize,
    p: &Prefix,
    behind: NodeId,
) -> Result<NodeId, AllocError>
    requires there { slice_get (ospf.advertised led.now.net.now.files) k ≡ Some p.now }
    requires rows { routes_end led.now.sym.now.igp ≤ size terms.old }
    requires wide { length led.now.a.now.nodes.items ≡ 32 }
    requires nodes { ids_end led.now.a.now.nodes.items ≤ size terms.old }
    requires behind { behind.0 < size terms.old }
    ensures builds { Builds terms.old terms.new }
    ensures within { IfOk result (λ r. r.0 < size terms.new) }
    ensures value { Gives terms.new result (λ w r. HasDistances w led.now.net.now.files led.now.sym.now →
        at w r ≡ (if covers p.now (address_of w led.now.a.now)
        then is_on_least_walk led.now.net.now.files (failures_of w led.now.sym.now) led.now.router p.now led.now.x.now
        else at w behind)) }
{
    let inside = sym_covers(terms, p, led.a)?;
    if is_never(terms, inside) {
        return Ok(behind);
    }
    let least = sym_on_least_walk(alloc, terms, led, k, p)?;
    let made = select(terms, inside, least, behind)?;
    Ok(made)
}

/// Whether the adjacency lies on a least walk of the router to the first advertised prefix that contains the address.
#[tactic(auto, using(crate::proofs::LeastWalks::leads_steps))]
pub(crate) fn sym_leads(
    alloc: Global,
    terms: &mut Terms,
    net: &Net,
    sym: &SymNet,
    router: u32,
    a: &Bits,
    x: &Adjacency,
) -> Result<NodeId, AllocError>
    requires rows { routes_end sym.now.igp ≤ size terms.old }
    requires wide { length a.now.nodes.items ≡ 32 }
    requires nodes { ids_end a.now.nodes.items ≤ size terms.old }
    ensures builds { Builds terms.old terms.new }
    ensures within { IfOk result (λ r. r.0 < size terms.new) }
    ensures value { Gives terms.new result (λ w r. HasDistances w net.now.files sym.now →
        at w r ≡ leads_by net.now.files (failures_of w sym.now) router (address_of w a.now) x.now
        (ospf.advertised net.now.files)) }
{
    let led = Led {
        net,
        sym,
        router,
        a,
        x,
    };
    let mut rest = constant_node(terms, false)?;
    for k in (0..net.advertised().len()).rev() {
        let p = net.advertised()[k];
        rest = sym_leads_at(alloc, terms, &led, k, &p, rest)?;
    }
    Ok(rest)
}
