//! What the protocols make of a network: distances and sessions, the decision process, import and export, origins and
//! entries.

use crate::page::Page;
use crate::routes::{
    held, held_with, message, ospf_record, others_in, show_entry, show_ospf_record, show_route,
    show_sent, with_others,
};
use crate::setup::Setup;
use crate::words::{address, cut, number, prefix};
use mw_text::{Addr, Prefix, prefix_of};
use net_model::{IfaceId, Net};
use proto_bgp::{Candidate, export, import, survivors};
use proto_ospf::{igp_distance, offer, own_cost, prefer, resolve, session_up};
use proto_rib::{best_entry, originate, redistribute};
use route_record::{Failures, OspfKind, OspfRec, RibEntry, RibSource, Slot};
use std::alloc::{AllocError, Global};

/// `ROUTER PREFIX`, or with an address in place of the prefix: a router's distance or own cost to it, or what an address
/// resolves to.
fn reach(
    alloc: Global,
    net: &Net,
    failures: &Failures,
    kind: &str,
    order: &str,
) -> Result<Option<u32>, AllocError> {
    let (router, to) = cut(order);
    match kind {
        "distance" => igp_distance(alloc, net, failures, number(router), &prefix(to)),
        "cost" => Ok(own_cost(net, failures, number(router), &prefix(to))),
        _ => resolve(alloc, net, failures, number(router), address(to)),
    }
}

fn show_number(out: &mut Page, number: Option<u32>) {
    match number {
        None => out.put(" none"),
        Some(number) => out.number(" ", number),
    }
}

fn show_reach(out: &mut Page, net: &Net, failures: &Failures, kind: &str, order: &str) {
    match reach(out.alloc(), net, failures, kind, order) {
        Ok(found) => show_number(out, found),
        Err(wanting) => out.note(Err(wanting)),
    }
}

/// `ROUTER PLACE`: the OSPF cost of an interface.
fn show_interface_cost(out: &mut Page, net: &Net, order: &str) {
    let (router, at) = cut(order);
    let found = net.ospf_cost(IfaceId {
        router: number(router),
        at: number(at),
    });
    show_number(out, found)
}

/// Whether the session of an end is up.
fn show_session(out: &mut Page, net: &Net, failures: &Failures, end: u32) {
    if end as usize >= net.ends().len() {
        return out.put(" no end");
    }
    match session_up(out.alloc(), net, failures, end) {
        Ok(is_up) => out.truth(is_up),
        Err(wanting) => out.note(Err(wanting)),
    }
}

/// `RECORD RECORD`: whether the first is better.
pub fn show_preferred(out: &mut Page, order: &str) {
    let (first, rest) = ospf_record(order);
    let (second, _) = ospf_record(rest);
    out.truth(prefer(&first, &second))
}

/// `RECORD COST`: the record over a link of that cost.
pub fn show_offer(out: &mut Page, order: &str) {
    let (rec, cost) = ospf_record(order);
    match offer(&rec, number(cost)) {
        None => out.put(" none"),
        Some(offered) => show_ospf_record(out, &offered),
    }
}

/// `LENGTH AS PEER IDENTIFIER OTHERS`: a candidate, external and of cost 0 unless these say otherwise.
pub fn candidate(out: &mut Page, order: &str) -> Candidate {
    let (rec, rest) = held(out, order);
    let (peer_id, rest) = cut(rest);
    let more = others_in(out, rest);
    Candidate {
        external: more.external,
        cost: more.cost,
        peer_id: address(peer_id),
        rec: with_others(rec, more),
    }
}

/// `MEDS IDENTIFIERS`: which of the candidates are left, where MEDs are always compared or not, and identifiers or not.
pub fn show_survivors(out: &mut Page, candidates: &[Candidate], order: &str) {
    let (meds, identifiers) = cut(order);
    match survivors(
        out.alloc(),
        meds == "always",
        identifiers == "identifiers",
        candidates,
    ) {
        Ok(left) => show_places(out, left.as_slice()),
        Err(wanting) => out.note(Err(wanting)),
    }
}

fn show_places(out: &mut Page, places: &[u64]) {
    for place in places {
        out.place(" ", *place);
    }
}

/// 203.0.113.0/24, to which the routes of import and export lead.
fn announced() -> Prefix {
    prefix_of(Addr(0xcb00_7100), 24)
}

/// `END MESSAGE`: what the end of a session takes from a message.
fn show_import(out: &mut Page, net: &Net, order: &str) {
    let (end, sent) = cut(order);
    let end = number(end);
    if end as usize >= net.ends().len() {
        return out.put(" no end");
    }
    let msg = message(out, sent);
    match import(out.alloc(), net, end, &announced(), &msg) {
        Ok(None) => out.put(" none"),
        Ok(Some(rec)) => show_route(out, &rec),
        Err(wanting) => out.note(Err(wanting)),
    }
}

/// `END ROUTE`: what is sent of a route that was learnt from a peer.
fn show_export(out: &mut Page, net: &Net, order: &str) {
    let (end, route) = cut(order);
    let end = number(end);
    if end as usize >= net.ends().len() {
        return out.put(" no end");
    }
    let rec = held_with(out, route);
    match export(out.alloc(), net, end, &announced(), &rec) {
        Ok(None) => out.put(" none"),
        Ok(Some(sent)) => show_sent(out, &sent),
        Err(wanting) => out.note(Err(wanting)),
    }
}

fn connected() -> Slot {
    Slot {
        ospf: None,
        bgp: None,
        rib: Some(RibEntry {
            source: RibSource::Connected,
            distance: 0,
        }),
    }
}

/// `ROUTER PREFIX`: what OSPF takes of a connected route.
fn show_into_ospf(out: &mut Page, net: &Net, order: &str) {
    let (router, to) = cut(order);
    match redistribute(out.alloc(), net, number(router), &prefix(to), &connected()) {
        Ok(records) => {
            out.place(" ", records.as_slice().len() as u64);
            for rec in records.as_slice() {
                show_ospf_record(out, rec);
            }
        }
        Err(wanting) => out.note(Err(wanting)),
    }
}

/// `ROUTER PREFIX`: what BGP takes of a connected route.
fn show_into_bgp(out: &mut Page, net: &Net, order: &str) {
    let (router, to) = cut(order);
    match originate(out.alloc(), net, number(router), &prefix(to), &connected()) {
        Ok(routes) => {
            out.place(" ", routes.as_slice().len() as u64);
            for rec in routes.as_slice() {
                show_route(out, rec);
            }
        }
        Err(wanting) => out.note(Err(wanting)),
    }
}

fn internal() -> Slot {
    Slot {
        ospf: Some(OspfRec {
            kind: OspfKind::Internal,
            metric: 0,
            cost: 2,
        }),
        bgp: None,
        rib: None,
    }
}

/// `ROUTER PREFIX OWN`: the entry of a router with an internal OSPF route, which is its own origin or not.
fn show_best(out: &mut Page, net: &Net, failures: &Failures, order: &str) {
    let (router, rest) = cut(order);
    let (to, own) = cut(rest);
    let found = best_entry(
        net,
        failures,
        number(router),
        &prefix(to),
        &internal(),
        own == "own",
    );
    show_entry(out, found)
}

/// What is asked of the network.
pub fn show_of_network(out: &mut Page, net: &Net, setup: &Setup, word: &str, order: &str) {
    match word {
        "session" => show_session(out, net, &setup.failures, number(order)),
        "interface" => show_interface_cost(out, net, order),
        "import" => show_import(out, net, order),
        "export" => show_export(out, net, order),
        "redistribute" => show_into_ospf(out, net, order),
        "originate" => show_into_bgp(out, net, order),
        "entry" => show_best(out, net, &setup.failures, order),
        _ => show_reach(out, net, &setup.failures, word, order),
    }
}
