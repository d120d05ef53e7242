//! The equations of the interior distances as a term.

ghost use Rattle.std.specs.Prelude.{◌≡◌, ◌==◌, ◌+◌, ◌*◌, ◌<◌, ◌≤◌, ◌&&◌, true, IfOk, length};
ghost use Rattle.term_store.specs.Terms.{size, at};
ghost use Rattle.term_store.specs.Reading.{Builds, Gives};
ghost use Rattle.term_arith.specs.Bits.{number, ids_end};
ghost use Rattle.net_parts.specs.Ospf as ospf;
ghost use Rattle.sym_policy.specs.Held.{ospf_at, ospf_of, ospf_end};
ghost use Rattle.sym_ospf.specs.Rows.{net_end, distance_of, distance_end, is_internal, is_distance, equation};
ghost use Rattle.sym_ospf.specs.Rows.{row_holds, rows_hold, HasDistances};

use crate::distances::{igp_of, sym_nearest};
use crate::parts::SymDistance;
use net_model::Net;
use std::alloc::{AllocError, Global};
use sym_policy::{SymNet, SymOspf};
use term_arith::gates::{agree, both, constant_node, either, negate};
use term_arith::{Bits, add, constant, equal, equal_number};
use term_store::{NodeId, Terms};

/// Whether the cost of the route, as if it were there, is that number of 33 bits.
fn sym_costs(
    alloc: Global,
    terms: &mut Terms,
    rec: &SymOspf,
    sum: &Bits,
) -> Result<NodeId, AllocError>
    requires wide { length sum.now.nodes.items ≡ 33 }
    requires nodes { ospf_end rec.now ≤ size terms.old }
    requires sum { ids_end sum.now.nodes.items ≤ size terms.old }
    ensures builds { Builds terms.old terms.new }
    ensures within { IfOk result (λ r. r.0 < size terms.new) }
    ensures value { Gives terms.new result (λ w r. at w r
        ≡ (number w rec.now.cost.nodes.items == number w sum.now.nodes.items)) }
{
    let none = constant(alloc, terms, 0, 32)?;
    let cost = add(alloc, terms, &rec.cost, &none)?;
    equal(terms, &cost, sum)
}

/// Whether the route, as if it were there, is internal and has that metric 0 and that cost.
#[tactic(auto, using(crate::proofs::EquationTests::internal_is))]
fn sym_same_fields(
    alloc: Global,
    terms: &mut Terms,
    rec: &SymOspf,
    sum: &Bits,
) -> Result<NodeId, AllocError>
    requires wide { length sum.now.nodes.items ≡ 33 }
    requires nodes { ospf_end rec.now ≤ size terms.old }
    requires sum { ids_end sum.now.nodes.items ≤ size terms.old }
    ensures builds { Builds terms.old terms.new }
    ensures within { IfOk result (λ r. r.0 < size terms.new) }
    ensures value { Gives terms.new result (λ w r. at w r
        ≡ (is_internal (ospf_at w rec.now).kind
        && (((ospf_at w rec.now).metric == 0) && ((ospf_at w rec.now).cost == number w sum.now.nodes.items)))) }
{
    let internal = equal_number(terms, rec.kind.nodes.as_slice(), 0)?;
    let metric = equal_number(terms, rec.metric.nodes.as_slice(), 0)?;
    let cost = sym_costs(alloc, terms, rec, sum)?;
    let rest = both(terms, metric, cost)?;
    both(terms, internal, rest)
}

/// Whether the route is the distance: both are there or neither, and where they are it is internal with metric 0 and
/// costs as much.
#[tactic(auto, using(crate::proofs::EquationTests::distance_is))]
fn sym_is_distance(
    alloc: Global,
    terms: &mut Terms,
    rec: &SymOspf,
    distance: &SymDistance,
) -> Result<NodeId, AllocError>
    requires nodes { ospf_end rec.now ≤ size terms.old }
    requires distance { distance_end distance.now ≤ size terms.old }
    ensures builds { Builds terms.old terms.new }
    ensures within { IfOk result (λ r. r.0 < size terms.new) }
    ensures value { Gives terms.new result (λ w r. at w r
        ≡ is_distance (ospf_of w rec.now) (distance_of w distance.now)) }
{
    let alike = agree(terms, rec.valid, distance.there)?;
    let same = sym_same_fields(alloc, terms, rec, &distance.sum)?;
    let absent = negate(terms, rec.valid)?;
    let fits = either(terms, absent, same)?;
    both(terms, alike, fits)
}

/// Whether the route of a router to the advertised prefix at a place is the least that is offered.
#[tactic(auto, unfolding(crate::specs::Rows::equation), using(crate::proofs::EquationTests::equation_steps))]
fn sym_equation(
    alloc: Global,
    terms: &mut Terms,
    net: &Net,
    sym: &SymNet,
    router: u32,
    k: usize,
) -> Result<NodeId, AllocError>
    requires rows { length sym.now.igp ≡ length net.now.files * length (ospf.advertised net.now.files) }
    requires place { k < length (ospf.advertised net.now.files) }
    requires router { router < length net.now.files }
    requires nodes { net_end sym.now ≤ size terms.old }
    ensures builds { Builds terms.old terms.new }
    ensures within { IfOk result (λ r. r.0 < size terms.new) }
    ensures value { Gives terms.new result (λ w r. at w r ≡ equation w net.now.files sym.now router k) }
{
    let p = net.advertised()[k];
    let least = sym_nearest(alloc, terms, net, sym, router, k, &p)?;
    let rec = igp_of(net, sym, router, k);
    sym_is_distance(alloc, terms, rec, &least)
}

/// Whether the equations of all advertised prefixes hold at a router.
#[tactic(auto, using(crate::proofs::EquationTests::all_steps))]
fn sym_row(
    alloc: Global,
    terms: &mut Terms,
    net: &Net,
    sym: &SymNet,
    router: u32,
) -> Result<NodeId, AllocError>
    requires rows { length sym.now.igp ≡ length net.now.files * length (ospf.advertised net.now.files) }
    requires router { router < length net.now.files }
    requires nodes { net_end sym.now ≤ size terms.old }
    ensures builds { Builds terms.old terms.new }
    ensures within { IfOk result (λ r. r.0 < size terms.new) }
    ensures value { Gives terms.new result (λ w r. at w r ≡ row_holds w net.now.files sym.now router) }
{
    let mut all = constant_node(terms, true)?;
    for k in 0..net.advertised().len() {
        let one = sym_equation(alloc, terms, net, sym, router, k)?;
        all = both(terms, all, one)?;
    }
    Ok(all)
}

/// Whether the equations hold at all routers.
#[tactic(auto, using(crate::proofs::EquationTests::all_steps))]
fn sym_rows(alloc: Global, terms: &mut Terms, net: &Net, sym: &SymNet) -> Result<NodeId, AllocError>
    requires rows { length sym.now.igp ≡ length net.now.files * length (ospf.advertised net.now.files) }
    requires nodes { net_end sym.now ≤ size terms.old }
    ensures builds { Builds terms.old terms.new }
    ensures within { IfOk result (λ r. r.0 < size terms.new) }
    ensures value { Gives terms.new result (λ w r. at w r ≡ rows_hold w net.now.files sym.now) }
{
    let mut all = constant_node(terms, true)?;
    for router in 0..net.routers().len() {
        let row = sym_row(alloc, terms, net, sym, router as u32)?;
        all = both(terms, all, row)?;
    }
    Ok(all)
}

/// True exactly where the rows of `sym` are the interior distances while its links have failed (RFC 2328, section
/// 16.1): for each router and each advertised prefix, at `router * advertised().len() + place`, an internal route with
/// metric 0 that costs the distance, and none where there is no distance.
#[tactic(auto, using(crate::proofs::Solutions::rows_are))]
pub fn sym_igp(
    alloc: Global,
    terms: &mut Terms,
    net: &Net,
    sym: &SymNet,
) -> Result<NodeId, AllocError>
    requires rows { length sym.now.igp ≡ length net.now.files * length (ospf.advertised net.now.files) }
    requires nodes { net_end sym.now ≤ size terms.old }
    ensures builds { Builds terms.old terms.new }
    ensures within { IfOk result (λ r. r.0 < size terms.new) }
    ensures sound { Gives terms.new result (λ w r. at w r ≡ true → HasDistances w net.now.files sym.now) }
    ensures complete { Gives terms.new result (λ w r. HasDistances w net.now.files sym.now → at w r ≡ true) }
{
    let _adjacencies = net.adjacencies();
    sym_rows(alloc, terms, net, sym)
}
