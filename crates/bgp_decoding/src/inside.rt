//! What is open of the slots of a routing, and the BGP routes that they hold, by values of variables.

ghost use Rattle.std.specs.Prelude.{◌≡◌, ◌+◌, ◌<◌, ◌≤◌, All, IfOk, IfSome, length, map, option_map};
ghost use Rattle.route_record.specs.declared.TheConstants as constants;
ghost use Rattle.term_store.specs.Terms.{truth};
ghost use Rattle.slot_places.specs.Rooms.{rooms_of as all_rooms};
ghost use Rattle.world_variables.specs.Packets.{packet_from};
ghost use Rattle.world_variables.specs.Unknowns.{HasWords, rooms_at, unknowns_width};
ghost use Rattle.world_variables.specs.Worlds.{opens_from as unknowns_read_from, slots_start};
ghost use Rattle.bgp_variables.specs.Shapes.{bgps_from, bgps_width};
ghost use Rattle.bgp_variables.specs.Rooms.{bgp_room, bgp_rooms};
ghost use Rattle.bgp_values.specs.Told.{as_told};
ghost use Rattle.path_rebuild.specs.Shapes.{route_of};
ghost use Rattle.routing_worlds.specs.Worlds.{bgps_read_from, environment_start, failures_read_from};
ghost use Rattle.bgp_decoding.specs.Decoded.{IsFrame, IsInside};
ghost use Rattle.bgp_decoding.specs.Placed.{full_places};

use crate::slots::{Setting, held_routes, slots_at};
use bgp_values::{routes_at, routes_end};
use bgp_variables::{BgpRoom, held_room, speaker_at};
use failed_links::downs_size;
use ios_ast::File;
use mw_text::{Addr, List, Prefix};
use net_model::Net;
use path_rebuild::ShapeRec;
use plan_places::{Place, lens_of, places_of, single_plan};
use question_lang::Question;
use route_record::{Failures, Plan, Tables};
use slot_places::{Room, room_for, rooms_of};
use std::alloc::{AllocError, Global};
use world_variables::{Unknown, packet_size, read_rooms, unknown_width, unknowns_at};

/// The BGP routes that slots hold, by router and prefix length, and the tables without them; and where the variables of
/// the environment begin.
#[derive(Drop)]
pub struct Inside {
    pub held: Vec<Option<ShapeRec>>,
    pub rest: Tables,
    pub end: usize,
}

// What is open at the places of a plan: of OSPF and of BGP; and where their variables end.
#[derive(Drop)]
struct Opened {
    unknowns: List<Unknown>,
    told: Vec<Option<ShapeRec>>,
    end: usize,
}

// The room of the BGP route of the slot at a place.
#[tactic(auto, using(crate::proofs::Rooms::room_of))]
fn bgp_room_at(alloc: Global, net: &Net, p: Place) -> Result<Option<BgpRoom>, AllocError>
    ensures { IfOk result (λ room. room ≡ bgp_room net.now.tracked net.now.files p.router p.len) }
{
    match speaker_at(net, p) {
        None => Ok(None),
        Some(_) => {
            let room = held_room(alloc, net.tracked(), net)?;
            Ok(Some(room))
        }
    }
}

// Those at places.
fn bgp_rooms_at(
    alloc: Global,
    net: &Net,
    places: &[Place],
) -> Result<Vec<Option<BgpRoom>>, AllocError>
    ensures { IfOk result (λ made. made.items ≡ bgp_rooms net.now.tracked net.now.files places.now) }
{
    let mut made = Vec::new(alloc);
    for p in places {
        let room = bgp_room_at(alloc, net, *p)?;
        made.push(room)?;
    }
    Ok(made)
}

// Where the variables of what is open of OSPF end, where they begin at one; there are at most so many variables.
#[tactic(auto, using(world_variables::proofs::DecodingSteps::unknown_steps, crate::proofs::Rooms::none_wide))]
fn unknowns_end(
    files: &[File],
    destinations: &Prefix,
    rooms: &[Option<Room>],
    places: &[Place],
    from: usize,
    most: usize,
) -> usize
    requires rooms { rooms.now ≡ all_rooms files.now destinations.now }
    requires metrics { All (λ o. IfSome o (λ r. HasWords r.metric)) rooms.now }
    requires short { All (λ p. p.len < constants.LENGTHS) places.now }
    requires within { from + unknowns_width (rooms_at files.now destinations.now places.now) ≤ most }
    ensures { result ≡ from + unknowns_width (rooms_at files.now destinations.now places.now) }
{
    let mut at = from;
    for p in places {
        at += unknown_width(room_for(files, rooms, p.router, p.len));
    }
    at
}

// Where the variables of the slots begin; there are at most so many variables.
fn slots_from(net: &Net, question: &Question, most: usize) -> usize
    requires { slots_start net.now.files question.now 0 ≤ most }
    ensures { result ≡ slots_start net.now.files question.now 0 }
{
    let links = net.links().len() as u32;
    packet_size(question.packets) + downs_size(question.failures, links)
}

// The BGP routes at the places, whose variables begin at one, and where their variables end.
#[derive(Drop)]
struct Told {
    routes: Vec<Option<ShapeRec>>,
    end: usize,
}

#[tactic(auto, using(crate::proofs::Rooms::rooms_fit, path_rebuild::proofs::RealRoutes::few_of))]
fn told_at(
    alloc: Global,
    values: &[bool],
    net: &Net,
    places: &[Place],
    from: usize,
) -> Result<Told, AllocError>
    requires within { from + bgps_width (bgp_rooms net.now.tracked net.now.files places.now) ≤ length values.now }
    ensures routes { IfOk result (λ r. map (option_map (route_of net.now.tracked)) r.routes.items
        ≡ map (option_map as_told) (bgps_from (bgp_rooms net.now.tracked net.now.files places.now) (truth values.now) from)) }
    ensures end { IfOk result (λ r. r.end ≡ from + bgps_width (bgp_rooms net.now.tracked net.now.files places.now)) }
{
    let tracked = net.tracked();
    let rooms = bgp_rooms_at(alloc, net, places)?;
    let end = routes_end(tracked, from, rooms.as_slice(), values.len());
    let routes = routes_at(alloc, tracked, values, from, rooms.as_slice())?;
    Ok(Told { routes, end })
}

// What is open at the places of a plan.
#[tactic(auto, using(world_variables::proofs::DecodingSteps::places_short), unfolding(world_variables::specs::Worlds::opens_from))]
fn opened_at(
    alloc: Global,
    values: &[bool],
    net: &Net,
    question: &Question,
    plan: &Plan,
    rooms: &[Option<Room>],
) -> Result<Opened, AllocError>
    requires rooms { rooms.now ≡ all_rooms net.now.files question.now.packets.dst }
    requires within { environment_start net.now.files net.now.tracked question.now plan.now 0 ≤ length values.now }
    ensures unknowns { IfOk result (λ r. r.unknowns
        ≡ unknowns_read_from net.now.files question.now plan.now (truth values.now) 0) }
    ensures told { IfOk result (λ r. map (option_map (route_of net.now.tracked)) r.told.items
        ≡ map (option_map as_told) (bgps_read_from net.now.files net.now.tracked question.now plan.now (truth values.now) 0)) }
    ensures end { IfOk result (λ r. r.end ≡ environment_start net.now.files net.now.tracked question.now plan.now 0) }
{
    let files = net.routers();
    let dst = &question.packets.dst;
    let places = places_of(alloc, plan, files.len() as u32)?;
    read_rooms(rooms);
    let start = slots_from(net, question, values.len());
    let from = unknowns_end(files, dst, rooms, places.as_slice(), start, values.len());
    let unknowns = unknowns_at(alloc, values, start, files, dst, rooms, places.as_slice())?;
    let told = told_at(alloc, values, net, places.as_slice(), from)?;
    Ok(Opened {
        unknowns,
        told: told.routes,
        end: told.end,
    })
}

// All prefix lengths of so many rows.
pub fn all_places(alloc: Global, rows: u32) -> Result<List<Place>, AllocError>
    ensures { IfOk result (λ all. all ≡ full_places rows) }
{
    let plan = single_plan(alloc)?;
    places_of(alloc, &plan, rows)
}

/// The lengths at which a router's slots stand, all lengths at all routers, and the rooms of routes of OSPF.
#[derive(Drop)]
pub struct Frame {
    pub lens: Vec<u8>,
    pub all: List<Place>,
    pub rooms: List<Option<Room>>,
}

/// Those of a plan.
pub fn frame_of(
    alloc: Global,
    net: &Net,
    question: &Question,
    plan: &Plan,
) -> Result<Frame, AllocError>
    ensures { IfOk result (IsFrame net.now.files question.now plan.now) }
{
    let lens = lens_of(alloc, plan)?;
    let all = all_places(alloc, net.routers().len() as u32)?;
    let rooms = rooms_of(alloc, net, &question.packets.dst)?;
    Ok(Frame { lens, all, rooms })
}

/// The slots and their routes at all places. The packet has that destination.
pub fn inside_at(
    alloc: Global,
    values: &[bool],
    net: &Net,
    question: &Question,
    plan: &Plan,
    frame: &Frame,
    failures: &Failures,
    d: Addr,
) -> Result<Inside, AllocError>
    requires frame { IsFrame net.now.files question.now plan.now frame.now }
    requires failures { failures.now ≡ failures_read_from net.now.files question.now (truth values.now) 0 }
    requires destination { d ≡ (packet_from question.now.packets (truth values.now) 0).dst }
    requires within { environment_start net.now.files net.now.tracked question.now plan.now 0 ≤ length values.now }
    ensures { IfOk result (IsInside (record {
      files = net.now.files;
      tracked = net.now.tracked;
      question = question.now;
      plan = plan.now;
      values = truth values.now;
    })) }
{
    let dst = &question.packets.dst;
    let lens = frame.lens.as_slice();
    let rooms = frame.rooms.as_slice();
    let all = frame.all.as_slice();
    let opened = opened_at(alloc, values, net, question, plan, rooms)?;
    let unknowns = opened.unknowns.as_slice();
    let told = opened.told.as_slice();
    let setting = Setting {
        net,
        destinations: dst,
        rooms,
        failures,
        d,
    };
    let slots = slots_at(alloc, &setting, lens, unknowns, told, all)?;
    let held = held_routes(alloc, net, dst, rooms, lens, told, all)?;
    Ok(Inside {
        held,
        rest: Tables {
            slots: List { items: slots },
        },
        end: opened.end,
    })
}
