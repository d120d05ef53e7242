//! The adjacencies over which a router receives, each with the node that says whether it is up.

ghost use Rattle.std.specs.Prelude.{◌≡◌, ℕ, ◌+◌, ◌≤◌, ◌<◌, ◌==◌, ◌&&◌, IfOk, OnOk, None, map, ◌++◌, ◌∷◌, [], if◌then◌else◌, max};
ghost use Rattle.std.specs.Option.{option_to_list};
ghost use Rattle.mw_text.specs.declared.address.Prefix.{Prefix};
ghost use Rattle.net_parts.specs.Ospf as model;
ghost use Rattle.net_parts.specs.OspfRoutes.{offer_over};
ghost use Rattle.route_record.specs.declared.Tables.{Tables};
ghost use Rattle.sym_policy.specs.Held.{failures_of};
ghost use Rattle.ospf_equations.specs.Adjacent.{offers_read, ups_end};
ghost use Rattle.ospf_equations.specs.Equations.{offered_by, offers_by};
ghost use Rattle.ospf_equations.specs.Reached.{up_in, up_read};
ghost use Rattle.term_store.specs.Terms.{Reading, at, size};
ghost use Rattle.term_store.specs.Reading.{Reads, Builds, Gives};
ghost use Rattle.term_arith.specs.Bits.{ids_end};

use mw_text::List;
use net_model::{Adjacency, Net};
use std::alloc::{AllocError, Global};
use sym_ospf::sym_up_at;
use sym_policy::SymNet;
use term_arith::gates::both;
use term_store::{NodeId, Terms};

/// An adjacency, and the node that says whether both of its ends are up.
#[derive(Drop)]
pub struct SymAdjacency {
    pub up: NodeId,
    pub adjacency: Adjacency,
}

fn put_up(made: &mut List<SymAdjacency>, next: SymAdjacency) -> Result<(), AllocError>
    ensures { OnOk result (made.new ≡ made.old ++ next ∷ []) }
{
    made.items.push(next)?;
    Ok(())
}

// Puts the adjacency behind some, if the router receives over it.
#[tactic(auto, using(crate::proofs::AdjacentSteps::read_push, crate::proofs::AdjacentSteps::ups_end_push))]
fn put_adjacency(
    alloc: Global,
    terms: &mut Terms,
    net: &Net,
    sym: &SymNet,
    router: u32,
    a: &Adjacency,
    made: &mut List<SymAdjacency>,
) -> Result<(), AllocError>
    requires down { ids_end sym.now.down ≤ size terms.old }
    requires made { ups_end made.old ≤ size terms.old }
    ensures builds { Builds terms.old terms.new }
    ensures within { OnOk result (ups_end made.new ≤ size terms.new) }
    ensures value { Gives terms.new result (λ w _. (tables : Tables) → (p : Prefix) → offers_read w tables p made.new
        ≡ offers_read w tables p made.old
        ++ option_to_list (offered_by net.now.files (failures_of w sym.now) tables router p a.now)) }
{
    if a.from.router != router {
        return Ok(());
    }
    let up = sym_both_up(alloc, terms, net, sym, a)?;
    put_up(made, SymAdjacency { up, adjacency: *a })
}

// Whether both ends of an adjacency are up.
fn sym_both_up(
    alloc: Global,
    terms: &mut Terms,
    net: &Net,
    sym: &SymNet,
    a: &Adjacency,
) -> Result<NodeId, AllocError>
    requires down { ids_end sym.now.down ≤ size terms.old }
    ensures builds { Builds terms.old terms.new }
    ensures within { IfOk result (λ r. r.0 < size terms.new) }
    ensures value { Gives terms.new result (λ w r.
        at w r ≡ model.is_adjacency_up net.now.files (failures_of w sym.now) a.now) }
{
    let here = sym_up_at(alloc, terms, net, sym, a.from)?;
    let there = sym_up_at(alloc, terms, net, sym, a.to)?;
    both(terms, here, there)
}

/// All adjacencies, each with the node that says whether it is up.
#[tactic(auto, using(crate::proofs::ReachedSteps::up_steps))]
pub fn sym_all_up(
    alloc: Global,
    terms: &mut Terms,
    net: &Net,
    sym: &SymNet,
) -> Result<List<SymAdjacency>, AllocError>
    requires down { ids_end sym.now.down ≤ size terms.old }
    ensures builds { Builds terms.old terms.new }
    ensures within { IfOk result (λ r. ups_end r ≤ size terms.new) }
    ensures value { Gives terms.new result (λ w r. map (up_read w) r
        ≡ map (up_in net.now.files (failures_of w sym.now)) (model.adjacencies net.now.files)) }
{
    let adjacencies = net.adjacencies();
    let mut made = List::new(alloc);
    for a in adjacencies {
        let up = sym_both_up(alloc, terms, net, sym, a)?;
        put_up(&mut made, SymAdjacency { up, adjacency: *a })?;
    }
    Ok(made)
}

/// The adjacencies over which a router receives while they are up.
#[tactic(auto, using(crate::proofs::EquationSteps::offer_steps, crate::proofs::AdjacentSteps::read_none))]
pub fn sym_adjacencies(
    alloc: Global,
    terms: &mut Terms,
    net: &Net,
    sym: &SymNet,
    router: u32,
) -> Result<List<SymAdjacency>, AllocError>
    requires down { ids_end sym.now.down ≤ size terms.old }
    ensures builds { Builds terms.old terms.new }
    ensures within { IfOk result (λ r. ups_end r ≤ size terms.new) }
    ensures value { Gives terms.new result (λ w r. (tables : Tables) → (p : Prefix) → offers_read w tables p r
        ≡ offers_by net.now.files (failures_of w sym.now) tables router p (model.adjacencies net.now.files)) }
{
    let adjacencies = net.adjacencies();
    let mut made = List::new(alloc);
    for a in adjacencies {
        put_adjacency(alloc, terms, net, sym, router, a, &mut made)?;
    }
    Ok(made)
}
