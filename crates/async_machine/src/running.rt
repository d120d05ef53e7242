//! The machine as its callers see it.

ghost use Rattle.std.specs.Prelude.{◌≡◌, ◌≢◌, IfErr, IfOk, None, OnErr, OnOk, Ok, Err, length, true};
ghost use Rattle.std.specs.Bool.{Decides};
ghost use Rattle.std.specs.Option.{is_none};
ghost use Rattle.machine_laws.specs.Events.{IsReached, after, start};
ghost use Rattle.machine_laws.specs.Quiet.{IsQuiet, next_event};
ghost use Rattle.net_parts.specs.Sessions.{external_ends};
ghost use Rattle.net_parts.specs.Stable.{Stable};

use crate::next::next_event;
use crate::starting::{first_look, read_addresses, start};
use crate::taking::take;
use machine_laws::{Event, EventRefused, State};
use mw_text::{Addr, List};
use net_model::Net;
use route_candidates::{Underlay, underlay_of};
use route_record::{Environment, Failures, Tables, read_tables};
use std::alloc::{AllocError, Global};
use std::marker::Model;

/// The routers of a network and the messages between them, for one destination. Some list of events leads from the start
/// to each of its states. Contracts see the network, the destination and the state.
#[derive(Drop)]
pub struct Machine {
    alloc: Global,
    net: Net,
    destination: Addr,
    state: State,
    underlay: Underlay,
    known: List<Option<bool>>,
}

impl Model for Machine {
    ghost use Rattle.async_machine.specs.Runs.{Run};

    ghost Value = { Run };

    ghost use Rattle.async_machine.specs.Machine.{IsRunning};

    ghost view = { λ m. record { net = m.net; destination = m.destination; state = m.state } };

    ghost invariant = { IsRunning };
}

// What it says of the state that this event comes next, or none.
fn told_quiet(net: &Net, d: Addr, state: &State, next: &Option<Event>) -> bool
    requires reached { IsReached net.now.files d state.now }
    requires next { next.now ≡ next_event net.now.files d state.now }
    ensures value { Decides result (IsQuiet net.now.files d state.now) }
    ensures stable { result ≡ true → Stable net.now.files d state.now.failures state.now.environment state.now.tables }
{
    let _routers = net.routers();
    read_tables(&state.tables);
    next.is_none()
}

impl Machine {
    /// The machine of a network for the destination `d`, at its start: with empty tables, no mail, no failed link and no
    /// announcement. `ids` are the identifiers of the external peers, one for each external end, in their order.
    pub fn new(alloc: Global, net: Net, d: Addr, ids: List<Addr>) -> Result<Machine, AllocError>
        requires { length ids ≡ length (external_ends net.files) }
        ensures { IfOk result (λ m. m ≡ record { net = net; destination = d; state = start net.files ids }) }
    {
        read_addresses(ids.as_slice());
        let state = start(alloc, &net, ids)?;
        let underlay = underlay_of(alloc, &net, &state.failures)?;
        let known = first_look(alloc, &net, d, &state, &underlay)?;
        Ok(Machine {
            alloc,
            net,
            destination: d,
            state,
            underlay,
            known,
        })
    }

    /// Takes an event. `NothingToDeliver` exactly where a delivery finds no mail; `UnknownName` exactly where a number is
    /// out of range, or an announcement's end is not towards an external peer, or what is announced is about another end or
    /// length or is nothing that this peer may announce; `AlreadySo` exactly where a failed link is cut, or one that has not
    /// failed is mended; and want of memory. After a refusal the machine is as it was.
    pub fn step(&mut self, event: Event) -> Result<(), EventRefused>
        ensures ok { OnOk result (after self.old.net.files self.old.destination self.old.state event ≡ Ok self.new.state) }
        ensures refused { IfErr result (λ why. why ≢ EventRefused.Memory →
            after self.old.net.files self.old.destination self.old.state event ≡ Err why) }
        ensures unchanged { OnErr result (self.new ≡ self.old) }
        ensures net { self.new.net ≡ self.old.net }
        ensures destination { self.new.destination ≡ self.old.destination }
    {
        take(
            self.alloc,
            &self.net,
            self.destination,
            &mut self.state,
            &mut self.underlay,
            &mut self.known,
            event,
        )
    }

    /// The event that comes next by itself: the delivery over the first channel with mail, BGP sessions by their ends before
    /// OSPF adjacencies; else the first decision, by router and then by length, that would change a slot. None exactly where
    /// the state is quiet.
    pub fn next(&self) -> Result<Option<Event>, AllocError>
        ensures value { IfOk result
            (λ next. next ≡ next_event self.now.net.files self.now.destination self.now.state) }
        ensures none { IfOk result (λ next. Decides (is_none next)
            (IsQuiet self.now.net.files self.now.destination self.now.state)) }
    {
        next_event(
            self.alloc,
            &self.net,
            self.destination,
            &self.state,
            &self.underlay,
            self.known.as_slice(),
        )
    }

    /// Whether the state is quiet: there is no mail, and no decision would change a slot. Then its tables are a stable
    /// routing for the failures and the environment of this moment, whatever events have led to it.
    pub fn is_quiet(&self) -> Result<bool, AllocError>
        ensures value { IfOk result (λ quiet. Decides quiet
            (IsQuiet self.now.net.files self.now.destination self.now.state)) }
        ensures stable { IfOk result (λ quiet. quiet ≡ true → Stable self.now.net.files self.now.destination
            self.now.state.failures self.now.state.environment self.now.state.tables) }
    {
        let next = next_event(
            self.alloc,
            &self.net,
            self.destination,
            &self.state,
            &self.underlay,
            self.known.as_slice(),
        )?;
        Ok(told_quiet(&self.net, self.destination, &self.state, &next))
    }

    /// What all routers hold now.
    pub fn tables(&self) -> &Tables
        ensures { result.now ≡ self.now.state.tables }
    {
        &self.state.tables
    }

    /// The links that have failed.
    pub fn failures(&self) -> &Failures
        ensures { result.now ≡ self.now.state.failures }
    {
        &self.state.failures
    }

    /// What the external peers announce now.
    pub fn environment(&self) -> &Environment
        ensures { result.now ≡ self.now.state.environment }
    {
        &self.state.environment
    }

    /// The network, as it was given.
    pub fn net(&self) -> &Net
        ensures { result.now ≡ self.now.net }
    {
        &self.net
    }
}
