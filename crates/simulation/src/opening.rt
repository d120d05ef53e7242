//! What the lines that open an events file say.

ghost use Rattle.std.specs.Prelude.{◌≡◌, ◌≢◌, ◌++◌, ◌∷◌, [], IfErr, IfOk, OnOk, Some, Ok, Err, filter, map};
ghost use Rattle.std.specs.Prelude.{slice_set, take};
ghost use Rattle.ios_ast.specs.Deciding.{carries};
ghost use Rattle.net_parts.specs.Decisions.{external_count};
ghost use Rattle.net_parts.specs.Sessions as sessions;
ghost use Rattle.event_lines.specs.declared.orders.Order.TheVariants as orders;
ghost use Rattle.simulation.specs.declared.causes.SimulationCause.TheVariants as causes;
ghost use Rattle.simulation.specs.Opening as opening;

use crate::causes::SimulationCause;
use event_lines::Order;
use ios_ast::File;
use ios_policy_reader::Cause;
use machine_laws::EventRefused;
use mw_text::{Addr, List};
use net_model::{Net, SessionEnd};
use net_parts::ends::{is_outside, neighbour_of};
use std::alloc::{AllocError, Global};

/// The destination, the ends of the external peers about whose identifiers a line has said something, and the
/// identifiers of all external peers, in the order of their ends.
#[derive(Drop)]
pub struct Opening {
    pub destination: Option<Addr>,
    pub named: List<u32>,
    pub ids: List<Addr>,
}

/// The destination, and the identifiers of all external peers, in the order of their ends.
#[derive(Drop)]
pub struct Start {
    pub destination: Addr,
    pub ids: List<Addr>,
}

// The identifier of a peer about which no line says one.
fn default_id(files: &[File], end: &SessionEnd) -> Addr
    ensures { result ≡ opening.default_id files.now end.now }
{
    match neighbour_of(files, end) {
        None => Addr(0),
        Some(neighbour) => neighbour.addr,
    }
}

fn ids_over(alloc: Global, files: &[File], ends: &[SessionEnd]) -> Result<Vec<Addr>, AllocError>
    ensures { IfOk result (λ ids. ids.items
        ≡ map (opening.default_id files.now) (filter (λ end. sessions.is_outside end.far) ends.now)) }
{
    ends.iter()
        .filter(|end| is_outside(end))
        .map(|end| default_id(files, end))
        .collect(alloc)
}

fn default_ids(alloc: Global, net: &Net) -> Result<List<Addr>, AllocError>
    ensures { IfOk result (λ ids. ids ≡ opening.default_ids net.now.files) }
{
    Ok(List {
        items: ids_over(alloc, net.routers(), net.ends())?,
    })
}

/// What no line has said anything of.
pub fn unopened(alloc: Global, net: &Net) -> Result<Opening, AllocError>
    ensures { IfOk result (λ said. said ≡ opening.unopened net.now.files) }
{
    Ok(Opening {
        destination: None,
        named: List::new(alloc),
        ids: default_ids(alloc, net)?,
    })
}

fn is_named(named: &[u32], end: u32) -> bool
    ensures { result ≡ carries named.now end }
{
    named.iter().any(|x| *x == end)
}

fn count_external(ends: &[SessionEnd]) -> usize
    ensures { result ≡ external_count ends.now }
{
    ends.iter().filter(|end| is_outside(end)).count()
}

// The place of an external peer among them: how many stand before its end.
#[tactic(auto, using(std::proofs::lemmas::List::take_min))]
fn place_of(ends: &[SessionEnd], end: u32) -> usize
    ensures { result ≡ external_count (take end ends.now) }
{
    count_external(&ends[..(end as usize).min(ends.len())])
}

#[tactic(auto, using(std::proofs::lemmas::List::set_past))]
fn set_id(ids: &mut List<Addr>, place: usize, id: Addr)
    ensures { ids.new ≡ slice_set ids.old place id }
{
    if place < ids.items.len() {
        ids.items[place] = id;
    }
}

fn note(named: &mut List<u32>, end: u32) -> Result<(), SimulationCause>
    ensures ok { OnOk result (named.new ≡ named.old ++ end ∷ []) }
    ensures memory { IfErr result (λ why. why ≡ causes.Memory) }
{
    match named.items.push(end) {
        Ok(()) => Ok(()),
        Err(_) => Err(SimulationCause::Memory),
    }
}

// The external peer of that end has that identifier.
fn identify_end(net: &Net, said: &mut Opening, end: u32, id: Addr) -> Result<(), SimulationCause>
    ensures ok { OnOk result (opening.identified net.now.files said.old (Some end) id ≡ Ok said.new) }
    ensures refused { IfErr result (λ why. why ≢ causes.Memory →
        opening.identified net.now.files said.old (Some end) id ≡ Err why) }
{
    if is_named(said.named.as_slice(), end) {
        return Err(SimulationCause::Line(Cause::Repeated));
    }
    match note(&mut said.named, end) {
        Err(why) => Err(why),
        Ok(()) => {
            set_id(&mut said.ids, place_of(net.ends(), end), id);
            Ok(())
        }
    }
}

fn identify(
    net: &Net,
    said: &mut Opening,
    peer: Option<u32>,
    id: Addr,
) -> Result<(), SimulationCause>
    ensures ok { OnOk result (opening.opened_by net.now.files said.old (orders.Identify peer id) ≡ Ok said.new) }
    ensures refused { IfErr result (λ why. why ≢ causes.Memory →
        opening.opened_by net.now.files said.old (orders.Identify peer id) ≡ Err why) }
{
    if said.destination.is_none() {
        return Err(SimulationCause::Line(Cause::OutOfPlace));
    }
    match peer {
        None => Err(SimulationCause::Event(EventRefused::UnknownName)),
        Some(end) => match identify_end(net, said, end, id) {
            Ok(()) => Ok(()),
            Err(why) => Err(why),
        },
    }
}

fn set_destination(net: &Net, said: &mut Opening, d: Addr) -> Result<(), SimulationCause>
    ensures ok { OnOk result (opening.opened_by net.now.files said.old (orders.Destination d) ≡ Ok said.new) }
    ensures refused { IfErr result (λ why.
        opening.opened_by net.now.files said.old (orders.Destination d) ≡ Err why) }
{
    let _net = net;
    if said.destination.is_some() {
        return Err(SimulationCause::Line(Cause::OutOfPlace));
    }
    said.destination = Some(d);
    Ok(())
}

/// What is said with one order more.
pub fn open_by(net: &Net, said: &mut Opening, order: Order) -> Result<(), SimulationCause>
    ensures ok { OnOk result (opening.opened_by net.now.files said.old order ≡ Ok said.new) }
    ensures refused { IfErr result (λ why. why ≢ causes.Memory →
        opening.opened_by net.now.files said.old order ≡ Err why) }
{
    match order {
        Order::Destination(d) => set_destination(net, said, d),
        Order::Identify(peer, id) => identify(net, said, peer, id),
        Order::Take(_) => Err(SimulationCause::Line(Cause::OutOfPlace)),
        Order::Run(_) => Err(SimulationCause::Line(Cause::OutOfPlace)),
    }
}
