//! The answer to an order that asks, beside the one that it says.

use crate::nodes::{broken, distances, permitted, session};
use crate::page::Page;
use crate::routes::{best, entry, mapped, originated, redistributed, resolved, transferred};
use crate::sessions::{sent, survives, taken};
use crate::setup::{Setup, policies};
use crate::values::{found_of, number_at, show_ospf, value_of};
use net_model::Net;
use std::alloc::{AllocError, Global};
use sym_policy::{SymBgp, SymMapRec, SymOspf};
use sym_rib::SymRib;
use term_store::{NodeId, Terms};

/// The first word, and what follows it.
fn cut(text: &str) -> (&str, &str) {
    text.split_once(' ').unwrap_or((text, ""))
}

fn number(word: &str) -> u32 {
    word.parse::<u32>().unwrap_or(0)
}

/// The node of a walk that breaks a question, of a list, of the distances or of a session.
fn node_of(
    alloc: Global,
    terms: &mut Terms,
    setup: &Setup,
    net: &Net,
    word: &str,
    at: u32,
) -> Result<Option<NodeId>, AllocError> {
    match word {
        "distances" => distances(alloc, terms, net),
        "session" => session(alloc, terms, net, at),
        "permitted" | "nodes" => match policies(net) {
            Some(policies) => permitted(alloc, terms, policies),
            None => Ok(None),
        },
        _ => match setup.questions.as_slice().get(at as usize) {
            Some(question) => Ok(Some(broken(alloc, terms, net, question)?)),
            None => Ok(None),
        },
    }
}

fn show_node(out: &mut Page, terms: &Terms, node: NodeId, words: &str) -> Result<(), AllocError> {
    let found = found_of(out.alloc(), terms, words)?;
    out.truth(value_of(found.as_slice(), node));
    Ok(())
}

/// `NUMBER WORDS`: the value of what is asked for; of `nodes` how many nodes there are beside the variables.
fn ask_node(
    out: &mut Page,
    setup: &Setup,
    net: &Net,
    word: &str,
    order: &str,
) -> Result<(), AllocError> {
    let (at, words) = cut(order);
    let mut terms = Terms::new(out.alloc());
    let made = node_of(out.alloc(), &mut terms, setup, net, word, number(at))?;
    if word == "nodes" {
        out.number(" ", terms.len().saturating_sub(terms.vars()));
        return Ok(());
    }
    match made {
        Some(node) => show_node(out, &terms, node, words),
        None => Ok(()),
    }
}

/// A route over links, the better of two, or what an address resolves to.
fn ospf_of(
    alloc: Global,
    terms: &mut Terms,
    net: &Net,
    word: &str,
    at: u32,
) -> Result<Option<SymOspf>, AllocError> {
    match word {
        "best" => Ok(Some(best(alloc, terms)?)),
        "transferred" => Ok(Some(transferred(alloc, terms, at)?)),
        _ => resolved(alloc, terms, net, at),
    }
}

fn ask_ospf(out: &mut Page, net: &Net, word: &str, order: &str) -> Result<(), AllocError> {
    let (at, words) = cut(order);
    let mut terms = Terms::new(out.alloc());
    let rec = ospf_of(out.alloc(), &mut terms, net, word, number(at))?;
    let found = found_of(out.alloc(), &terms, words)?;
    if let Some(rec) = &rec {
        show_ospf(out, found.as_slice(), rec)
    }
    Ok(())
}

/// The preference, the weight and the MED of a route.
fn show_bgp(out: &mut Page, found: &[bool], bgp: &SymBgp) {
    if !value_of(found, bgp.valid) {
        return out.put(" none");
    }
    out.number(" preference ", number_at(found, &bgp.local_pref));
    out.number(" weight ", number_at(found, &bgp.weight));
    out.number(" med ", number_at(found, &bgp.med))
}

/// What the map makes of a route, if it is there.
fn ask_mapped(out: &mut Page, net: &Net, words: &str) -> Result<(), AllocError> {
    let mut terms = Terms::new(out.alloc());
    let rec = mapped(out.alloc(), &mut terms, net)?;
    let found = found_of(out.alloc(), &terms, words)?;
    if let Some(rec) = &rec {
        show_bgp(out, found.as_slice(), &rec.bgp)
    }
    Ok(())
}

fn show_rib(out: &mut Page, found: &[bool], rib: &SymRib) {
    if !value_of(found, rib.valid) {
        return out.put(" none");
    }
    out.number(" source ", number_at(found, &rib.source));
    out.number(" distance ", number_at(found, &rib.distance))
}

/// `ROUTER LENGTH WORDS`.
fn ask_entry(out: &mut Page, net: &Net, order: &str) -> Result<(), AllocError> {
    let (router, rest) = cut(order);
    let (len, words) = cut(rest);
    let mut terms = Terms::new(out.alloc());
    let len = number(len).min(32) as u8;
    let rib = entry(out.alloc(), &mut terms, net, number(router), len)?;
    let found = found_of(out.alloc(), &terms, words)?;
    show_rib(out, found.as_slice(), &rib);
    Ok(())
}

/// The routes that BGP takes, of those that may be there.
fn ask_originated(out: &mut Page, net: &Net, order: &str) -> Result<(), AllocError> {
    let (router, rest) = cut(order);
    let (len, words) = cut(rest);
    let mut terms = Terms::new(out.alloc());
    let len = number(len).min(32) as u8;
    let routes = originated(out.alloc(), &mut terms, net, number(router), len)?;
    let found = found_of(out.alloc(), &terms, words)?;
    for bgp in routes.as_slice() {
        if value_of(found.as_slice(), bgp.valid) {
            show_bgp(out, found.as_slice(), bgp)
        }
    }
    Ok(())
}

/// The records that OSPF takes, of those that may be there.
fn ask_redistributed(out: &mut Page, net: &Net, order: &str) -> Result<(), AllocError> {
    let (router, rest) = cut(order);
    let (len, words) = cut(rest);
    let mut terms = Terms::new(out.alloc());
    let len = number(len).min(32) as u8;
    let records = redistributed(out.alloc(), &mut terms, net, number(router), len)?;
    let found = found_of(out.alloc(), &terms, words)?;
    for rec in records.as_slice() {
        if value_of(found.as_slice(), rec.valid) {
            show_ospf(out, found.as_slice(), rec)
        }
    }
    Ok(())
}

/// What is read of a message: its path, its next hop, its numbers and its addresses.
fn show_message(out: &mut Page, found: &[bool], bgp: &SymBgp) {
    if !value_of(found, bgp.valid) {
        return out.put(" none");
    }
    out.number(" path of ", number_at(found, &bgp.len));
    out.number(" first ", number_at(found, &bgp.first));
    out.number(" last ", number_at(found, &bgp.last));
    out.number(" next hop ", number_at(found, &bgp.next_hop));
    out.number(" preference ", number_at(found, &bgp.local_pref));
    out.number(" weight ", number_at(found, &bgp.weight));
    out.number(" med ", number_at(found, &bgp.med));
    out.number(" from ", number_at(found, &bgp.from))
}

/// `END LENGTH WORDS`: what is sent or taken over a session; of `exporting` and `importing` how many nodes it takes beside
/// the variables.
fn ask_session(out: &mut Page, net: &Net, word: &str, order: &str) -> Result<(), AllocError> {
    let (end, rest) = cut(order);
    let (len, words) = cut(rest);
    let mut terms = Terms::new(out.alloc());
    let len = number(len).min(32) as u8;
    let made = match word {
        "sent" | "exporting" => sent(out.alloc(), &mut terms, net, number(end), len)?,
        _ => taken(out.alloc(), &mut terms, net, number(end), len)?,
    };
    if word == "exporting" || word == "importing" {
        out.number(" ", terms.len().saturating_sub(terms.vars()));
        return Ok(());
    }
    let found = found_of(out.alloc(), &terms, words)?;
    if let Some(bgp) = &made {
        show_message(out, found.as_slice(), bgp)
    }
    Ok(())
}

/// `MEDS IDENTIFIERS COUNT WORDS`: whether a route survives among so many candidates, where MEDs are always compared or
/// not, and identifiers or not; of `deciding` how many nodes that takes beside the variables.
fn ask_survives(out: &mut Page, net: &Net, word: &str, order: &str) -> Result<(), AllocError> {
    let (meds, rest) = cut(order);
    let (identifiers, rest) = cut(rest);
    let (count, words) = cut(rest);
    let mut terms = Terms::new(out.alloc());
    let made = survives(
        out.alloc(),
        &mut terms,
        net,
        meds == "always",
        identifiers == "identifiers",
        number(count),
    )?;
    if word == "deciding" {
        out.number(" ", terms.len().saturating_sub(terms.vars()));
        return Ok(());
    }
    match made {
        Some(node) => show_node(out, &terms, node, words),
        None => Ok(()),
    }
}

fn answer(
    out: &mut Page,
    setup: &Setup,
    net: &Net,
    word: &str,
    order: &str,
) -> Result<(), AllocError> {
    match word {
        "mapped" => ask_mapped(out, net, order),
        "entry" => ask_entry(out, net, order),
        "originated" => ask_originated(out, net, order),
        "redistributed" => ask_redistributed(out, net, order),
        "sent" | "taken" | "exporting" | "importing" => ask_session(out, net, word, order),
        "survives" | "deciding" => ask_survives(out, net, word, order),
        "best" | "transferred" | "resolved" => ask_ospf(out, net, word, order),
        _ => ask_node(out, setup, net, word, order),
    }
}

/// Whether an answer is as the script says, or the answer where it is another.
fn conclude(out: &mut Page, name: &str, got: &str, wanted: &str) {
    let agrees = got.trim_start() == wanted;
    out.put(if agrees { "ok " } else { "differs " });
    out.put(name);
    if !agrees {
        out.put(":");
        out.put(got);
    }
    out.put("\n")
}

/// `NAME: WORDS = ANSWER`.
pub fn ask(out: &mut Page, setup: &Setup, word: &str, rest: &str) {
    let (asked, wanted) = rest.split_once(" = ").unwrap_or((rest, ""));
    let (name, order) = asked.split_once(": ").unwrap_or((asked, ""));
    let mut got = Page::new(out.alloc());
    match &setup.net {
        Some(net) => {
            let end = answer(&mut got, setup, net, word, order);
            got.note(end)
        }
        None => got.put(" no network"),
    }
    out.note(got.memory());
    conclude(out, name, got.text(), wanted)
}
