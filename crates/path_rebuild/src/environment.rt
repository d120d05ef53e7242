//! Announcements that are made again from their shapes.

ghost use Rattle.std.specs.Prelude.{◌≡◌, ◌≤◌, ◌<◌, ◌++◌, ℕ, IfOk, OnOk, List as ListOf, drop, length, map, take};
ghost use Rattle.std.specs.List.{enumerate_from};
ghost use Rattle.route_record.specs.declared.tracked.Tracked.{Tracked as TrackedOf};
ghost use Rattle.net_parts.specs.Sessions as sessions;
ghost use Rattle.announced_shapes.specs.Announcements.{rebuilt_announcement};
ghost use Rattle.announced_shapes.specs.Environments.{rebuilt_environment};
ghost use Rattle.path_rebuild.specs.Environments as environments;
ghost use Rattle.path_rebuild.specs.Shapes.{announcement_of};

use crate::ShapeRec;
use announced_shapes::{rebuilt_communities, rebuilt_path};
use mw_text::{Addr, List};
use net_model::Net;
use net_parts::ends::is_outside;
use route_record::{Announcement, Environment, LENGTHS, Tracked};
use std::alloc::{AllocError, Global};

// The announcement of a shape, of that end and for prefixes of that length.
#[tactic(auto, using(route_record::proofs::OriginCodes::code_back))]
fn announcement(
    alloc: Global,
    tracked: &Tracked,
    end: u32,
    len: u8,
    s: &ShapeRec,
) -> Result<Announcement, AllocError>
    ensures { IfOk result (λ a. a ≡ rebuilt_announcement tracked.now (announcement_of tracked.now end len s.now)) }
{
    let path = rebuilt_path(alloc, tracked.numbers.as_slice(), &s.shape)?;
    let communities = rebuilt_communities(
        alloc,
        tracked.communities.as_slice(),
        s.shape.communities,
    )?;
    Ok(Announcement {
        end,
        len,
        path,
        med: s.rec.med,
        origin: s.rec.origin,
        communities,
    })
}

// Puts at the end what the peer of an end announces, by prefix length.
fn add_of_end(
    alloc: Global,
    out: &mut Vec<Announcement>,
    tracked: &Tracked,
    end: u32,
    shapes: &[Option<ShapeRec>],
) -> Result<(), AllocError>
    requires few { length shapes.now ≤ LENGTHS }
    ensures { OnOk result (out.new.items ≡ out.old.items
        ++ map (rebuilt_announcement tracked.now) (environments.of_end tracked.now end shapes.now)) }
{
    for (len, known) in shapes.iter().enumerate() {
        if let Some(s) = known {
            out.push(announcement(alloc, tracked, end, len as u8, s)?)?;
        }
    }
    Ok(())
}

// The shapes of one end, and those of the ends behind it.
fn split(shapes: &[Option<ShapeRec>]) -> (&[Option<ShapeRec>], &[Option<ShapeRec>])
    ensures first { result.0.now ≡ take LENGTHS shapes.now }
    ensures few { length result.0.now ≤ LENGTHS }
    ensures rest { result.1.now ≡ drop LENGTHS shapes.now }
{
    if shapes.len() <= LENGTHS {
        (shapes, &[])
    } else {
        shapes.split_at(LENGTHS)
    }
}

// What all peers announce.
#[tactic(auto, using(route_candidates::proofs::FewEnds::few_ends, crate::proofs::Announced::made_outside, crate::proofs::Announced::made_inside))]
fn announced(
    alloc: Global,
    net: &Net,
    shapes: &[Option<ShapeRec>],
) -> Result<Vec<Announcement>, AllocError>
    ensures { IfOk result (λ made. made.items ≡ map (rebuilt_announcement net.now.tracked)
        (environments.of_ends net.now.tracked (enumerate_from 0 (sessions.ends_of net.now.files)) shapes.now)) }
{
    let _routers = net.routers();
    let tracked = net.tracked();
    let mut made = Vec::new(alloc);
    let mut rest = shapes;
    for (at, end) in net.ends().iter().enumerate() {
        if is_outside(end) {
            let (first, behind) = split(rest);
            add_of_end(alloc, &mut made, tracked, at as u32, first)?;
            rest = behind;
        }
    }
    Ok(made)
}

/// The environment of announcements that are known by their shapes, which stand by external end and then by prefix
/// length: each external end takes the next 33. `ids` are the identifiers of the external peers.
pub fn environment(
    alloc: Global,
    net: &Net,
    ids: &[Addr],
    shapes: &[Option<ShapeRec>],
) -> Result<Environment, AllocError>
    ensures { IfOk result (λ env. env ≡ rebuilt_environment net.now.tracked
        (environments.environment_of net.now.tracked net.now.files ids.now shapes.now)) }
{
    let items = announced(alloc, net, shapes)?;
    Ok(Environment {
        ids: List {
            items: Vec::from_slice(alloc, ids)?,
        },
        announced: List { items },
    })
}
