//! A counterexample whose lists are forgotten but for their shapes, and made again.

ghost use Rattle.std.specs.Prelude.{◌≡◌, ◌*◌, length};

use crate::cex::{show_refused, show_written};
use crate::page::Page;
use cex_json::{Counterexample, read_cex};
use mw_text::{Addr, List};
use net_model::Net;
use net_parts::ends::is_outside;
use path_rebuild::{Rebuilt, ShapeRec, rebuild};
use policy_eval::copy_list;
use question_lang::Question;
use route_record::{Announcement, BgpRec, Environment, LENGTHS, Learnt, Tables, shape};
use std::alloc::{AllocError, Global};

/// The route without its lists, and their shape.
fn forgotten(alloc: Global, net: &Net, rec: &BgpRec) -> ShapeRec {
    ShapeRec {
        rec: BgpRec {
            from: rec.from,
            weight: rec.weight,
            local_pref: rec.local_pref,
            path: List::new(alloc),
            origin: rec.origin,
            med: rec.med,
            communities: List::new(alloc),
            next_hop: rec.next_hop,
            originator: rec.originator,
            clusters: List::new(alloc),
        },
        shape: shape(rec, net.tracked()),
    }
}

fn held_shapes(
    alloc: Global,
    net: &Net,
    tables: &Tables,
) -> Result<Vec<Option<ShapeRec>>, AllocError> {
    let mut made = Vec::new(alloc);
    for slot in tables.slots.as_slice() {
        match &slot.bgp {
            None => made.push(None)?,
            Some(rec) => made.push(Some(forgotten(alloc, net, rec)))?,
        }
    }
    Ok(made)
}

/// An announcement as a route.
fn as_route(alloc: Global, a: &Announcement) -> Result<BgpRec, AllocError> {
    let path = copy_list(alloc, &a.path)?;
    let communities = copy_list(alloc, &a.communities)?;
    Ok(BgpRec {
        from: Learnt::Local,
        weight: 0,
        local_pref: 0,
        path,
        origin: a.origin,
        med: a.med,
        communities,
        next_hop: Addr(0),
        originator: None,
        clusters: List::new(alloc),
    })
}

fn announced_shape(
    alloc: Global,
    net: &Net,
    env: &Environment,
    end: usize,
    len: usize,
) -> Result<Option<ShapeRec>, AllocError> {
    for a in env.announced.as_slice() {
        if a.end as usize == end && a.len as usize == len {
            let rec = as_route(alloc, a)?;
            return Ok(Some(forgotten(alloc, net, &rec)));
        }
    }
    Ok(None)
}

/// By external end and then by prefix length.
fn announced_shapes(
    alloc: Global,
    net: &Net,
    env: &Environment,
) -> Result<Vec<Option<ShapeRec>>, AllocError> {
    let mut made = Vec::new(alloc);
    for (end, at) in net.ends().iter().enumerate() {
        if is_outside(at) {
            for len in 0..LENGTHS {
                made.push(announced_shape(alloc, net, env, end, len)?)?;
            }
        }
    }
    Ok(made)
}

fn rebuilt(alloc: Global, net: &Net, cex: &Counterexample) -> Result<Rebuilt, AllocError>
    requires { length cex.now.tables.slots ≡ LENGTHS * length net.now.files }
{
    let announced = announced_shapes(alloc, net, &cex.env)?;
    let held = held_shapes(alloc, net, &cex.tables)?;
    rebuild(
        alloc,
        net,
        cex.packet.dst,
        &cex.failures,
        cex.env.ids.as_slice(),
        announced.as_slice(),
        held.as_slice(),
        &cex.tables,
    )
}

fn with_rebuilt(cex: Counterexample, made: Rebuilt) -> Counterexample {
    Counterexample {
        question: cex.question,
        packet: cex.packet,
        failures: cex.failures,
        env: made.env,
        tables: made.tables,
        walk: cex.walk,
    }
}

fn show_made(out: &mut Page, net: &Net, questions: &[Question], cex: Counterexample)
    requires { length cex.tables.slots ≡ LENGTHS * length net.now.files }
{
    match rebuilt(out.alloc(), net, &cex) {
        Ok(made) => show_written(out, net, questions, &with_rebuilt(cex, made)),
        Err(wanting) => out.note(Err(wanting)),
    }
}

/// The text with the announcements and the routes that are made of the shapes of its own.
pub fn show_rebuilt(out: &mut Page, net: &Net, questions: &[Question], text: &str) {
    match read_cex(out.alloc(), net, questions, text.as_bytes()) {
        Ok(cex) => show_made(out, net, questions, cex),
        Err(refused) => show_refused(out, &refused),
    }
}
