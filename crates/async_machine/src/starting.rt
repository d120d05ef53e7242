//! The state in which a machine starts.

ghost use Rattle.std.specs.Prelude.{◌≡◌, ◌*◌, ◌<◌, ◌^◌, All, IfOk, None, length, replicate};
ghost use Rattle.machine_decisions.specs.Touched.{AreKnown};
ghost use Rattle.machine_laws.specs.Channels as channels;
ghost use Rattle.machine_laws.specs.Events as events;
ghost use Rattle.route_candidates.specs.Underlays.{IsUnderlay};
ghost use Rattle.route_record.specs.Fits.{IsAddress};

use machine_channels::silent;
use machine_decisions::look_at_all;
use machine_laws::{Channel, State};
use mw_text::{Addr, List};
use net_model::Net;
use route_candidates::Underlay;
use route_record::{Environment, Failures, LENGTHS, Slot, Tables};
use std::alloc::{AllocError, Global};

fn word(n: u32)
    ensures { n < 2 ^ 32 }
{}

fn read_address(address: &Addr)
    ensures { IsAddress address.now }
{
    word(address.0);
}

/// That addresses fit 32 bits, as a fact for the caller.
pub fn read_addresses(addresses: &[Addr])
    ensures { All IsAddress addresses.now }
{
    for address in addresses {
        read_address(address);
    }
}

// So many slots in which nothing is held.
#[tactic(auto, using(machine_channels::proofs::Made::replicate_more))]
fn empty_slots(alloc: Global, count: usize) -> Result<List<Slot>, AllocError>
    ensures { IfOk result (λ made. made ≡ replicate count events.empty_slot) }
{
    let mut made = List::new(alloc);
    for at in 0..count {
        made.items.push(Slot {
            ospf: None,
            bgp: None,
            rib: None,
        })?;
    }
    Ok(made)
}

// So many channels over which nothing was received.
#[tactic(auto, using(machine_channels::proofs::Made::replicate_more))]
fn silent_channels<M: Drop>(alloc: Global, count: usize) -> Result<List<Channel<M>>, AllocError>
    ensures { IfOk result (λ made. made ≡ replicate count channels.silent) }
{
    let mut made = List::new(alloc);
    for at in 0..count {
        made.items.push(silent(alloc)?)?;
    }
    Ok(made)
}

/// Empty tables, no mail, no failed link and no announcement; the external peers have these identifiers, in the order of
/// their ends.
#[tactic(auto, unfolding(machine_laws::specs::Events::start))]
pub fn start(alloc: Global, net: &Net, ids: List<Addr>) -> Result<State, AllocError>
    ensures { IfOk result (λ made. made ≡ events.start net.now.files ids) }
{
    let slots = empty_slots(alloc, LENGTHS * net.routers().len())?;
    let sessions = silent_channels(alloc, net.ends().len())?;
    let adjacencies = silent_channels(alloc, net.adjacencies().len())?;
    Ok(State {
        tables: Tables { slots },
        sessions,
        adjacencies,
        failures: Failures {
            links: List::new(alloc),
        },
        environment: Environment {
            ids,
            announced: List::new(alloc),
        },
    })
}

// That nothing is known of so many places.
#[tactic(auto, using(machine_channels::proofs::Made::replicate_more))]
fn nothing_known(alloc: Global, count: usize) -> Result<List<Option<bool>>, AllocError>
    ensures { IfOk result (λ made. made ≡ replicate count None) }
{
    let mut made = List::new(alloc);
    for at in 0..count {
        made.items.push(None)?;
    }
    Ok(made)
}

/// What is known of the decisions at all places of the tables once each was looked at.
pub fn first_look(
    alloc: Global,
    net: &Net,
    d: Addr,
    state: &State,
    underlay: &Underlay,
) -> Result<List<Option<bool>>, AllocError>
    requires underlay { IsUnderlay net.now.files state.now.failures underlay.now }
    ensures { IfOk result (AreKnown net.now.files d state.now) }
{
    let mut known = nothing_known(alloc, state.tables.slots.as_slice().len())?;
    look_at_all(alloc, net, d, state, underlay, &mut known);
    Ok(known)
}
