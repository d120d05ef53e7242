//! Whether a route of an ask goes out, as terms over a world of terms.

ghost use Rattle.std.specs.Prelude.{◌≡◌, ◌*◌, ◌<◌, ◌≤◌, IfOk, length};
ghost use Rattle.export_asks.specs.Exported.{is_exported};
ghost use Rattle.export_terms.specs.Shapes.{any_below};
ghost use Rattle.plan_places.specs.Plans as plans;
ghost use Rattle.route_record.specs.declared.TheConstants as constants;
ghost use Rattle.route_record.specs.declared.Tables.{Tables as TablesOf};
ghost use Rattle.sym_policy.specs.Held.{failures_of};
ghost use Rattle.sym_policy.specs.Records.{address_of};
ghost use Rattle.sym_rib.specs.Worlds.{StandForTables};
ghost use Rattle.term_store.specs.Reading.{Builds, Gives};
ghost use Rattle.term_store.specs.Terms.{size, at};
ghost use Rattle.ask_search.specs.Encoded.{HasWorld, exports_read};

use export_asks::Ask;
use export_terms::laws::tables_law;
use export_terms::sym_out;
use net_model::Net;
use plan_places::lens_of;
use std::alloc::{AllocError, Global};
use sym_rib::SymTables;
use sym_walk::SymWorld;
use term_store::{NodeId, Terms};

fn router_count(net: &Net) -> u32
    ensures { result ≡ length net.now.files }
{
    net.routers().len() as u32
}

// The slots of a world, where they stand at these lengths of each router.
fn world_tables<'a>(net: &Net, lens: &'a [u8], world: &'a SymWorld) -> SymTables<'a>
    requires few { length lens.now ≤ constants.LENGTHS }
    requires long { length world.now.slots ≡ length net.now.files * length lens.now }
    ensures lens { result.lens.now ≡ lens.now }
    ensures routers { result.routers ≡ length net.now.files }
    ensures slots { result.slots.now ≡ world.now.slots }
{
    SymTables {
        lens,
        routers: router_count(net),
        slots: world.slots.as_slice(),
    }
}

/// Whether in a world of terms a route of the ask goes out to its peer, for the prefixes of the packet's destination, at
/// some prefix length: as by the real tables, failed links and destination for which the world stands (`exported`). The
/// nodes of the world stand in the terms.
#[tactic(auto, using(plan_places::proofs::PlaceSteps::lens_few))]
pub fn sym_exported(
    alloc: Global,
    terms: &mut Terms,
    net: &Net,
    ask: &Ask,
    world: &SymWorld,
) -> Result<NodeId, AllocError>
    requires world { HasWorld net.now.files net.now.tracked terms.old world.now }
    ensures builds { Builds terms.old terms.new }
    ensures within { IfOk result (λ r. r.0 < size terms.new) }
    ensures value { Gives terms.new result (λ w r. at w r ≡ exports_read net.now.tracked net.now.files ask.now world.now w) }
    ensures exported { Gives terms.new result (λ w r. (tables : TablesOf) →
        StandForTables w net.now.tracked (plans.lens_of world.now.plan) (length net.now.files) world.now.slots tables →
        at w r ≡ any_below constants.LENGTHS (is_exported net.now.files ask.now (address_of w world.now.packet.dst)
        (failures_of w world.now.net) tables)) }
{
    let lens = lens_of(alloc, &world.plan)?;
    let tables = world_tables(net, lens.as_slice(), world);
    let _tracked = net.tracked();
    tables_law();
    let made = sym_out(
        alloc,
        terms,
        net,
        ask,
        &world.net,
        &tables,
        &world.packet.dst,
    )?;
    Ok(made)
}
