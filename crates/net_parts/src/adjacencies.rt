//! OSPF adjacencies.

ghost use Rattle.std.specs.Prelude.{◌≡◌, ◌++◌, IfOk, OnOk, filter, map};
ghost use Rattle.net_parts.specs.Ospf as ospf;

use crate::ospf::OspfInterface;
use ios_ast::File;
use mw_text::List;
use net_interfaces::IfaceId;
use std::alloc::{AllocError, Global};

/// The router of `from` receives from the router of `to`, at the output cost of its own interface (RFC 2328, section 9).
/// Whether links have failed is not tested yet.
#[derive(Clone, Copy, Debug, PartialEq, Eq)]
pub struct Adjacency {
    pub from: IfaceId,
    pub to: IfaceId,
    pub cost: u32,
}

fn are_adjacent(a: &OspfInterface, b: &OspfInterface) -> bool
    ensures { result ≡ ospf.are_adjacent a.now b.now }
{
    !(a.passive || b.passive)
        && !(a.at.shutdown || b.at.shutdown)
        && a.at.id.router != b.at.id.router
        && a.at.subnet == b.at.subnet
}

fn adjacency_of(a: &OspfInterface, b: &OspfInterface) -> Adjacency
    ensures { result ≡ ospf.adjacency a.now b.now }
{
    Adjacency {
        from: a.at.id,
        to: b.at.id,
        cost: a.cost,
    }
}

// Puts the adjacencies of one interface at the end.
fn add_adjacencies(
    out: &mut List<Adjacency>,
    a: &OspfInterface,
    running: &[OspfInterface],
) -> Result<(), AllocError>
    ensures { OnOk result (out.new ≡ out.old ++ ospf.adjacencies_of a.now running.now) }
{
    for b in running {
        if are_adjacent(a, b) {
            out.items.push(adjacency_of(a, b))?;
        }
    }
    Ok(())
}

/// All adjacencies while no link fails, by `from` and then by `to`.
#[tactic(auto, unfolding(crate::specs::Ospf::adjacencies))]
pub fn adjacencies(
    alloc: Global,
    files: &[File],
    running: &[OspfInterface],
) -> Result<List<Adjacency>, AllocError>
    requires running { running.now ≡ ospf.ospf_interfaces files.now }
    ensures { IfOk result (λ all. all ≡ ospf.adjacencies files.now) }
{
    let _routers = files.len();
    let mut all = List::new(alloc);
    for a in running {
        add_adjacencies(&mut all, a, running)?;
    }
    Ok(all)
}
