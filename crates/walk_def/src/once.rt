//! The set of the next hops of a router.

ghost use Rattle.std.specs.Prelude.{◌≡◌, ◌≢◌, ◌++◌, ◌∷◌, [], List as ListOf, Contains, IfOk, OnOk, true, false};
ghost use Rattle.question_lang.specs.declared.walk.Hop.{Hop as HopOf};
ghost use Rattle.question_lang.specs.Hops as hops;
ghost use Rattle.walk_def.specs.Sending.{AreOnce};

use crate::hops::list_hops;
use mw_text::List;
use net_model::Net;
use proto_ospf::all_distances;
use question_lang::Hop;
use route_record::World;
use std::alloc::{AllocError, Global};

fn is_same(a: &Hop, b: &Hop) -> bool
    ensures yes { result ≡ true → a.now ≡ b.now }
    ensures no { result ≡ false → a.now ≢ b.now }
{
    *a == *b
}

/// Whether the hop stands in the list.
pub fn stands_in(all: &[Hop], hop: &Hop) -> bool
    ensures yes { result ≡ true → Contains all.now hop.now }
    ensures no { result ≡ false → Contains all.now hop.now → ⊥ }
{
    for other in all {
        if is_same(other, hop) {
            return true;
        }
    }
    false
}

// Puts a hop at the end, where it does not stand there.
#[tactic(auto, using(crate::proofs::EachOnce::once_known, crate::proofs::EachOnce::once_new))]
fn put_once(out: &mut List<Hop>, hop: Hop) -> Result<(), AllocError>
    ensures { OnOk result ((front : ListOf HopOf) → AreOnce out.old front → AreOnce out.new (front ++ hop ∷ [])) }
{
    if stands_in(out.as_slice(), &hop) {
        return Ok(());
    }
    out.items.push(hop)?;
    Ok(())
}

// Each hop of the list once.
#[tactic(auto, using(crate::proofs::EachOnce::once_none))]
fn each_once(alloc: Global, all: &[Hop]) -> Result<List<Hop>, AllocError>
    ensures { IfOk result (λ out. AreOnce out all.now) }
{
    let mut out = List::new(alloc);
    for hop in all {
        put_once(&mut out, *hop)?;
    }
    Ok(out)
}

/// The next hops of a router: the set that the definition gives, each member once.
pub fn next_hops(
    alloc: Global,
    net: &Net,
    world: &World,
    router: u32,
) -> Result<List<Hop>, AllocError>
    ensures { IfOk result (λ all. AreOnce all (hops.next_hops net.now.files world.now router)) }
{
    let distances = all_distances(alloc, net, &world.failures)?;
    let all = list_hops(alloc, net, world, distances.as_slice(), router)?;
    each_once(alloc, all.as_slice())
}
