//! Tables whose BGP routes are made again from their shapes.

ghost use Rattle.std.specs.Prelude.{◌≡◌, ◌<◌, ◌*◌, ◌++◌, All, IfOk, length, map};
ghost use Rattle.std.specs.List.{enumerate_from};
ghost use Rattle.route_record.specs.Fits.{IsAddress, IsWord};
ghost use Rattle.announced_shapes.specs.Environments.{rebuilt_environment};
ghost use Rattle.shape_worlds.specs.Worlds.{ShapeWorld};
ghost use Rattle.path_rebuild.specs.Environments.{environment_of};
ghost use Rattle.path_rebuild.specs.Follows.{AllFollow, AreAnnounced, IsRebuilt, known_of};
ghost use Rattle.path_rebuild.specs.Shapes.{AreFew};
ghost use Rattle.path_rebuild.specs.Tables as tables;

use crate::environment::environment;
use crate::following::real_route;
use crate::{Rebuilt, ShapeRec};
use mw_text::{Addr, List, prefix_of};
use net_model::Net;
use route_record::{Environment, Failures, LENGTHS, Slot, Tables};
use std::alloc::{AllocError, Global};

// The slot at a place, with the route of its shape.
fn rebuilt_slot(
    alloc: Global,
    net: &Net,
    d: Addr,
    env: &Environment,
    held: &[Option<ShapeRec>],
    rest: &Tables,
    place: usize,
    slot: &Slot,
) -> Result<Slot, AllocError>
    requires few { AreFew net.now.tracked }
    requires within { place < LENGTHS * length net.now.files }
    ensures { IfOk result (λ made. made
        ≡ tables.rebuilt_slot net.now.tracked net.now.files env.now held.now rest.now d (place, slot.now)) }
{
    let p = prefix_of(d, (place % LENGTHS) as u8);
    let fuel = net.routers().len() as u32;
    let router = (place / LENGTHS) as u32;
    let bgp = real_route(alloc, net, env, held, rest, &p, fuel, router)?;
    Ok(Slot {
        ospf: slot.ospf,
        bgp,
        rib: slot.rib,
    })
}

// All slots, each with the route of its shape.
fn rebuilt_slots(
    alloc: Global,
    net: &Net,
    d: Addr,
    env: &Environment,
    held: &[Option<ShapeRec>],
    rest: &Tables,
) -> Result<Vec<Slot>, AllocError>
    requires few { AreFew net.now.tracked }
    requires size { length rest.now.slots ≡ LENGTHS * length net.now.files }
    ensures { IfOk result (λ made. made.items
        ≡ map (tables.rebuilt_slot net.now.tracked net.now.files env.now held.now rest.now d) (enumerate_from 0 rest.now.slots)) }
{
    let mut made = Vec::new(alloc);
    for (place, slot) in rest.slots.as_slice().iter().enumerate() {
        made.push(rebuilt_slot(alloc, net, d, env, held, rest, place, slot)?)?;
    }
    Ok(made)
}

fn word(n: u32)
    ensures { IsWord n }
{}

fn read_address(address: &Addr)
    ensures { IsAddress address.now }
{
    word(address.0);
}

// That addresses have 32 bits, as a fact.
fn read_addresses(addresses: &[Addr])
    ensures { All IsAddress addresses.now }
{
    for address in addresses {
        read_address(address);
    }
}

/// The environment and the tables of announcements and routes of which the lists are known by their shapes alone.
/// `announced` has what external peers announce by external end and then by prefix length, None for no announcement, and
/// `ids` their identifiers; `held` has what routers hold by router and then by prefix length. Each announcement is made
/// by the rule of its shape (see `announced_shapes`), and each route is followed back to an announcement or to a local
/// route. The other parts of the slots are those of `rest`.
#[tactic(auto, using(crate::proofs::RealRoutes::few_of), unfolding(crate::specs::Tables::rebuilt_tables))]
pub fn rebuild(
    alloc: Global,
    net: &Net,
    d: Addr,
    failures: &Failures,
    ids: &[Addr],
    announced: &[Option<ShapeRec>],
    held: &[Option<ShapeRec>],
    rest: &Tables,
) -> Result<Rebuilt, AllocError>
    requires size { length rest.now.slots ≡ LENGTHS * length net.now.files }
    ensures env { IfOk result (λ made. made.env ≡ rebuilt_environment net.now.tracked
        (environment_of net.now.tracked net.now.files ids.now announced.now)) }
    ensures tables { IfOk result (λ made. made.tables
        ≡ tables.rebuilt_tables net.now.tracked net.now.files made.env held.now rest.now d) }
    ensures world { IfOk result (λ made. (s : ShapeWorld) →
        tables.IsWorldOf net.now.tracked net.now.files d ids.now announced.now held.now rest.now s →
        tables.IsMadeOf net.now.tracked net.now.files s made) }
    ensures shapes { IfOk result (λ made.
        let known = known_of net.now.tracked net.now.files ids.now announced.now held.now rest.now in
        AreAnnounced net.now.tracked net.now.files known.announced →
        AllFollow net.now.tracked net.now.files failures.now known d →
        IsRebuilt net.now.tracked net.now.files known d made) }
{
    let _routers = net.routers();
    let _tracked = net.tracked();
    read_addresses(ids);
    let env = environment(alloc, net, ids, announced)?;
    let items = rebuilt_slots(alloc, net, d, &env, held, rest)?;
    Ok(Rebuilt {
        tables: Tables {
            slots: List { items },
        },
        env,
    })
}
