//! The calls that make one node: lists, interior distances, sessions and walks.

ghost use Rattle.std.specs.Prelude.{◌≡◌, ◌*◌, ◌≤◌, IfOk, length};
ghost use Rattle.term_store.specs.Terms.{size};
ghost use Rattle.sym_walk.specs.Whole.{HasSlots, whole_end};

use crate::fresh::fresh_packet;
use crate::rows::{fresh_links, fresh_net, has_rows};
use ios_ast::{AccessList, Policies, PrefixList};
use mw_text::List;
use net_model::Net;
use question_lang::Question;
use route_record::Plan;
use std::alloc::{AllocError, Global};
use sym_ospf::{sym_igp, sym_session_up};
use sym_policy::{SymNet, sym_access_list, sym_prefix_list};
use sym_walk::{SymWorld, sym_breaks};
use term_arith::fresh_bits;
use term_store::{NodeId, Terms};

/// Whether an access list permits a packet.
fn access(alloc: Global, terms: &mut Terms, list: &AccessList) -> Result<NodeId, AllocError> {
    let packet = fresh_packet(alloc, terms)?;
    sym_access_list(alloc, terms, list, &packet)
}

/// Whether a prefix list permits the prefix of length 16 of an address.
fn prefix(alloc: Global, terms: &mut Terms, list: &PrefixList) -> Result<NodeId, AllocError> {
    let dst = fresh_bits(alloc, terms, 32)?;
    sym_prefix_list(alloc, terms, list, &dst, 16)
}

/// Whether the last access list of the last router permits a packet, or else its prefix list an address.
pub fn permitted(
    alloc: Global,
    terms: &mut Terms,
    policies: &Policies,
) -> Result<Option<NodeId>, AllocError> {
    if let Some(list) = policies.access.as_slice().last() {
        return Ok(Some(access(alloc, terms, list)?));
    }
    match policies.prefix_lists.as_slice().last() {
        Some(list) => Ok(Some(prefix(alloc, terms, list)?)),
        None => Ok(None),
    }
}

/// Whether the rows are the interior distances.
pub fn distances(
    alloc: Global,
    terms: &mut Terms,
    net: &Net,
) -> Result<Option<NodeId>, AllocError> {
    let sym = fresh_net(alloc, terms, net)?;
    if !has_rows(net, &sym) {
        return Ok(None);
    }
    Ok(Some(sym_igp(alloc, terms, net, &sym)?))
}

/// Whether the session of an end is up.
pub fn session(
    alloc: Global,
    terms: &mut Terms,
    net: &Net,
    end: u32,
) -> Result<Option<NodeId>, AllocError> {
    let sym = fresh_net(alloc, terms, net)?;
    if !has_rows(net, &sym) {
        return Ok(None);
    }
    Ok(Some(sym_session_up(alloc, terms, net, &sym, end)?))
}

/// A packet and failed links, where no slice stands at any length, so that no router has learnt a route.
fn fresh_world(alloc: Global, terms: &mut Terms, net: &Net) -> Result<SymWorld, AllocError>
    ensures nodes { IfOk result (λ r. whole_end r ≤ size terms.new) }
    ensures slots { IfOk result (λ r. HasSlots net.now.files r) }
{
    let packet = fresh_packet(alloc, terms)?;
    let down = fresh_links(alloc, terms, net)?;
    Ok(SymWorld {
        packet,
        net: SymNet {
            down,
            igp: List::new(alloc),
        },
        slots: List::new(alloc),
        plan: Plan {
            class: List::new(alloc),
            slices: List::new(alloc),
        },
    })
}

/// Whether a walk breaks the question.
pub fn broken(
    alloc: Global,
    terms: &mut Terms,
    net: &Net,
    question: &Question,
) -> Result<NodeId, AllocError> {
    let world = fresh_world(alloc, terms, net)?;
    sym_breaks(alloc, terms, net, question, &world)
}
