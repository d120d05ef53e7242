//! The interior distances as routes of new variables.

ghost use Rattle.std.specs.Prelude.{◌≡◌, ◌+◌, ◌*◌, ◌<◌, ◌≤◌, ◌++◌, ◌∷◌, [], IfOk, OnOk, Some, None, if◌then◌else◌, fold, is_some, length, map, max, suc};
ghost use Rattle.term_store.specs.Terms.{Reading, at, size};
ghost use Rattle.term_store.specs.Reading.{Reads, Builds, Grows, Gives};
ghost use Rattle.term_arith.specs.Bits.{number, ids_end};
ghost use Rattle.net_parts.specs.Ospf as ospf;
ghost use Rattle.sym_policy.specs.Held.{internal_route, ospf_end, ospf_of};
ghost use Rattle.sym_ospf.specs.Routes.{routes_end};
ghost use Rattle.slot_places.specs.Rooms as rooms;
ghost use Rattle.igp_variables.specs.Rows as igp;
ghost use Rattle.igp_variables.specs.Rows.{route_from, routes_from, rows_count, rows_from, rows_width};

use ios_ast::File;
use mw_text::List;
use net_model::Net;
use slot_places::rooms::{dearest_interface, dearest_walk};
use slot_places::width_for;
use std::alloc::{AllocError, Global};
use sym_policy::SymOspf;
use term_arith::{Bits, constant};
use term_store::{NodeId, Terms};
use world_variables::fields::padded;

fn has_process(file: &File) -> bool
    ensures { result ≡ is_some file.now.bgp }
{
    file.bgp.is_some()
}

// Whether some router runs BGP.
pub(crate) fn runs_bgp(files: &[File]) -> bool
    ensures { result ≡ igp.runs_bgp files.now }
{
    files.iter().any(|file| has_process(file))
}

// An internal route of that cost, which is there where a node is true.
fn internal(
    alloc: Global,
    terms: &mut Terms,
    valid: NodeId,
    cost: Bits,
) -> Result<SymOspf, AllocError>
    requires wide { length cost.nodes.items ≡ 32 }
    requires cost { ids_end cost.nodes.items ≤ size terms.old }
    requires valid { valid.0 < size terms.old }
    ensures builds { Builds terms.old terms.new }
    ensures within { IfOk result (λ r. ospf_end r ≤ size terms.new) }
    ensures value { Gives terms.new result (λ w r. ospf_of w r
        ≡ (if at w valid then Some (internal_route (number w cost.nodes.items)) else None)) }
{
    let kind = constant(alloc, terms, 0, 2)?;
    let metric = constant(alloc, terms, 0, 32)?;
    Ok(SymOspf {
        valid,
        kind,
        metric,
        cost,
    })
}

// What no distance of the network exceeds.
fn longest(net: &Net) -> u64
    ensures { result ≡ rooms.dearest_interface net.now.files + rooms.dearest_walk net.now.files }
{
    let interface = u64::from(dearest_interface(net.ospf_interfaces()));
    interface + dearest_walk(net.routers(), net.adjacencies())
}

// How many bits a distance has.
#[tactic(auto, using(crate::proofs::Small::width_few))]
fn distance_width(net: &Net) -> u8
    ensures value { result ≡ igp.distance_width net.now.files }
    ensures few { result ≤ 32 }
{
    width_for(longest(net))
}

// A distance of new variables, of so many bits.
#[tactic(auto, using(failed_links::proofs::Steps::grows_built, failed_links::proofs::Steps::grows_grown))]
fn open_route(alloc: Global, terms: &mut Terms, width: u8) -> Result<SymOspf, AllocError>
    requires { width ≤ 32 }
    ensures grows { Grows terms.old terms.new }
    ensures within { IfOk result (λ r. ospf_end r ≤ size terms.new) }
    ensures vars { OnOk result (terms.new.vars ≡ terms.old.vars + suc width) }
    ensures value { Gives terms.new result (λ w r. ospf_of w r ≡ route_from width w.variable terms.old.vars) }
{
    let valid = terms.fresh()?;
    let cost = padded(alloc, terms, width, 32)?;
    internal(alloc, terms, valid, cost)
}

// Puts one more route at the end.
fn put_route(made: &mut List<SymOspf>, next: SymOspf) -> Result<(), AllocError>
    ensures { OnOk result (made.new ≡ made.old ++ next ∷ []) }
{
    made.items.push(next)?;
    Ok(())
}

// Puts so many distances of new variables at the end.
#[tactic(auto, using(crate::proofs::Steps::row_steps))]
fn open_row(
    alloc: Global,
    terms: &mut Terms,
    made: &mut List<SymOspf>,
    count: usize,
    width: u8,
) -> Result<(), AllocError>
    requires width { width ≤ 32 }
    requires within { routes_end made.old ≤ size terms.old }
    ensures grows { Grows terms.old terms.new }
    ensures within { OnOk result (routes_end made.new ≤ size terms.new) }
    ensures count { OnOk result (length made.new ≡ length made.old + count) }
    ensures vars { OnOk result (terms.new.vars ≡ terms.old.vars + count * suc width) }
    ensures value { OnOk result ((w : Reading) → Reads w terms.new → map (ospf_of w) made.new
        ≡ map (ospf_of w) made.old ++ routes_from width count w.variable terms.old.vars) }
{
    for i in 0..count {
        let next = open_route(alloc, terms, width)?;
        put_route(made, next)?;
    }
    Ok(())
}

// How many routers there are, and how many prefixes they advertise.
fn routers_count(net: &Net) -> usize
    ensures { result ≡ length net.now.files }
{
    let routers = net.routers();
    routers.len()
}

fn prefixes_count(net: &Net) -> usize
    ensures { result ≡ length (ospf.advertised net.now.files) }
{
    let prefixes = net.advertised();
    prefixes.len()
}

// The distances of all routers to all advertised prefixes.
#[tactic(auto, using(crate::proofs::Steps::all_steps))]
fn all_rows(alloc: Global, terms: &mut Terms, net: &Net) -> Result<List<SymOspf>, AllocError>
    ensures grows { Grows terms.old terms.new }
    ensures within { IfOk result (λ r. routes_end r ≤ size terms.new) }
    ensures count { IfOk result (λ r. length r ≡ length net.now.files * length (ospf.advertised net.now.files)) }
    ensures vars { OnOk result (terms.new.vars
        ≡ terms.old.vars + length net.now.files * length (ospf.advertised net.now.files)
        * suc (igp.distance_width net.now.files)) }
    ensures value { Gives terms.new result (λ w r. map (ospf_of w) r
        ≡ routes_from (igp.distance_width net.now.files)
        (length net.now.files * length (ospf.advertised net.now.files)) w.variable terms.old.vars) }
{
    let row = prefixes_count(net);
    let width = distance_width(net);
    let mut made = List::new(alloc);
    for router in 0..routers_count(net) {
        open_row(alloc, terms, &mut made, row, width)?;
    }
    Ok(made)
}

/// The interior distances of the routers to the advertised prefixes, as internal routes with metric 0: whether each is
/// there and the bits of its cost are new variables, as many as no distance exceeds. They stand by router and then by prefix, at
/// `router * advertised().len() + place`. Where no router runs BGP there are none.
#[tactic(auto, using(crate::proofs::Steps::open_steps))]
pub fn open_rows(alloc: Global, terms: &mut Terms, net: &Net) -> Result<List<SymOspf>, AllocError>
    ensures grows { Grows terms.old terms.new }
    ensures within { IfOk result (λ r. routes_end r ≤ size terms.new) }
    ensures count { IfOk result (λ r. length r ≡ rows_count net.now.files) }
    ensures vars { OnOk result (terms.new.vars ≡ terms.old.vars + rows_width net.now.files) }
    ensures value { Gives terms.new result (λ w r. map (ospf_of w) r
        ≡ rows_from net.now.files w.variable terms.old.vars) }
{
    if runs_bgp(net.routers()) {
        all_rows(alloc, terms, net)
    } else {
        Ok(List::new(alloc))
    }
}
