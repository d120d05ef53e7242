//! The failed links and the interior distances, as new variables.

ghost use Rattle.std.specs.Prelude.{◌≡◌, ◌*◌, ◌≤◌, ◌++◌, ◌∷◌, [], true, IfOk, OnOk, length};
ghost use Rattle.term_store.specs.Terms.{size};
ghost use Rattle.term_arith.specs.Bits.{ids_end};
ghost use Rattle.net_parts.specs.Ospf as ospf;
ghost use Rattle.sym_ospf.specs.Routes.{routes_end};
ghost use Rattle.sym_ospf.specs.Rows.{net_end};

use crate::fresh::fresh_ospf;
use mw_text::List;
use net_model::Net;
use std::alloc::{AllocError, Global};
use sym_policy::{SymNet, SymOspf};
use term_arith::fresh_bits;
use term_store::{NodeId, Terms};

fn put_route(routes: &mut List<SymOspf>, route: SymOspf) -> Result<(), AllocError>
    ensures { OnOk result (routes.new ≡ routes.old ++ route ∷ []) }
{
    routes.items.push(route)?;
    Ok(())
}

/// So many OSPF routes.
#[tactic(auto, using(crate::proofs::PushedRoutes::routes_end_push))]
pub fn fresh_rows(
    alloc: Global,
    terms: &mut Terms,
    count: usize,
) -> Result<List<SymOspf>, AllocError>
    ensures larger { size terms.old ≤ size terms.new }
    ensures within { IfOk result (λ r. routes_end r ≤ size terms.new) }
{
    let mut routes = List::new(alloc);
    for place in 0..count {
        let route = fresh_ospf(alloc, terms)?;
        put_route(&mut routes, route)?;
    }
    Ok(routes)
}

/// Which links have failed.
pub fn fresh_links(alloc: Global, terms: &mut Terms, net: &Net) -> Result<List<NodeId>, AllocError>
    ensures larger { size terms.old ≤ size terms.new }
    ensures within { IfOk result (λ r. ids_end r ≤ size terms.new) }
{
    let count = net.links().len().min(200) as u8;
    let down = fresh_bits(alloc, terms, count)?;
    Ok(List { items: down.nodes })
}

/// Which links have failed, and a route of each router to each advertised prefix.
pub fn fresh_net(alloc: Global, terms: &mut Terms, net: &Net) -> Result<SymNet, AllocError>
    ensures larger { size terms.old ≤ size terms.new }
    ensures within { IfOk result (λ r. net_end r ≤ size terms.new) }
{
    let down = fresh_links(alloc, terms, net)?;
    let columns = net.advertised().len().min(1000);
    let igp = fresh_rows(alloc, terms, net.routers().len() * columns)?;
    Ok(SymNet { down, igp })
}

/// Whether there is a route of each router to each advertised prefix.
pub fn has_rows(net: &Net, sym: &SymNet) -> bool
    ensures { result ≡ true → length sym.now.igp ≡ length net.now.files * length (ospf.advertised net.now.files) }
{
    let columns = net.advertised().len();
    columns < 1000 && sym.igp.as_slice().len() == net.routers().len() * columns
}
