//! The variables of a routing as terms: its packet, its failed links, what is open of its slots, and what comes from
//! outside.

ghost use Rattle.std.specs.Prelude.{◌≡◌, ◌+◌, ◌≤◌, All, IfOk, OnOk, length, map};
ghost use Rattle.sym_policy.specs.Held.{bgp_end, bgp_of};
ghost use Rattle.sym_policy.specs.MapRecs.{HasTracked};
ghost use Rattle.sym_rib.specs.Into.{list_end};
ghost use Rattle.bgp_variables.specs.Shapes.{bgps_from, bgps_width};
ghost use Rattle.bgp_variables.specs.Rooms.{bgp_rooms};
ghost use Rattle.world_variables.specs.Symbols.{open_of, opens_end};
ghost use Rattle.world_variables.specs.Unknowns.{rooms_at, unknowns_from, unknowns_width};
ghost use Rattle.routing_encoder.specs.Frames.{IsFrame};
ghost use Rattle.routing_encoder.specs.Opened.{ReadsAs, StandsIn, routing_width};
ghost use Rattle.term_store.specs.Reading.{Grows, Gives};
ghost use Rattle.term_store.specs.Terms.{size};

use crate::frame::{Frame, frame_of};
use crate::outside::{open_beyond, open_outside};
use crate::routes::open_routes;
use bgp_equations::SymEnv;
use mw_text::List;
use net_model::Net;
use question_lang::Question;
use route_record::Plan;
use std::alloc::{AllocError, Global};
use sym_policy::{SymBgp, SymNet, SymPacket};
use term_store::Terms;
use world_variables::SymOpen;
use world_variables::opens::opens;

/// A routing as terms: its packet, its failed links and interior distances, of each slot what is open of OSPF and its BGP
/// route, and what external peers are and announce. Where no router runs BGP there are no distances.
#[derive(Drop)]
pub struct OpenRouting {
    pub packet: SymPacket,
    pub net: SymNet,
    pub parts: List<SymOpen>,
    pub routes: List<SymBgp>,
    pub env: SymEnv,
    pub frame: Frame,
}

// What is open of the slots of OSPF, and their BGP routes.
#[derive(Drop)]
struct Inside {
    parts: List<SymOpen>,
    routes: List<SymBgp>,
}

// What is open of the slots at their places: their variables are new.
#[tactic(auto, using(failed_links::proofs::Steps::grows_grown))]
fn open_inside(
    alloc: Global,
    terms: &mut Terms,
    net: &Net,
    frame: &Frame,
    plan: &Plan,
) -> Result<Inside, AllocError>
    requires frame { IsFrame net.now.files net.now.tracked plan.now frame.now }
    ensures grows { Grows terms.old terms.new }
    ensures parts_within { IfOk result (λ r. opens_end r.parts ≤ size terms.new) }
    ensures parts_long { IfOk result (λ r. length r.parts ≡ length frame.now.places) }
    ensures routes_within { IfOk result (λ r. list_end bgp_end r.routes ≤ size terms.new) }
    ensures routes_long { IfOk result (λ r. length r.routes ≡ length frame.now.places) }
    ensures rows { IfOk result (λ r. All (HasTracked net.now.tracked) r.routes) }
    ensures vars { OnOk result (terms.new.vars ≡ terms.old.vars
        + unknowns_width (rooms_at net.now.files frame.now.destinations frame.now.places)
        + bgps_width (bgp_rooms net.now.tracked net.now.files frame.now.places)) }
    ensures parts { Gives terms.new result (λ w r. map (open_of w) r.parts ≡ unknowns_from
        (rooms_at net.now.files frame.now.destinations frame.now.places) w.variable terms.old.vars) }
    ensures routes { Gives terms.new result (λ w r. map (bgp_of w) r.routes
        ≡ bgps_from (bgp_rooms net.now.tracked net.now.files frame.now.places) w.variable
        (terms.old.vars + unknowns_width (rooms_at net.now.files frame.now.destinations frame.now.places))) }
{
    let parts = opens(
        alloc,
        terms,
        net.routers(),
        &frame.destinations,
        frame.rooms.as_slice(),
        frame.places.as_slice(),
    )?;
    let routes = open_routes(alloc, terms, net, &frame.bgp, frame.places.as_slice())?;
    Ok(Inside { parts, routes })
}

/// The routing of a question's variables over a plan, which are new: a packet of its set, failed links, at each place of
/// the plan an OSPF route, a bit of the table's entry and a BGP route, the identifier of each external peer and what it
/// announces at each length of the plan, and the interior distances where some router runs BGP.
#[tactic(auto, using(failed_links::proofs::Steps::grows_grown))]
pub fn open_routing(
    alloc: Global,
    terms: &mut Terms,
    net: &Net,
    question: &Question,
    plan: &Plan,
) -> Result<OpenRouting, AllocError>
    ensures grows { Grows terms.old terms.new }
    ensures stands { IfOk result (StandsIn net.now.files net.now.tracked question.now plan.now terms.new) }
    ensures vars { OnOk result (terms.new.vars
        ≡ terms.old.vars + routing_width net.now.files net.now.tracked question.now plan.now) }
    ensures value { Gives terms.new result (ReadsAs net.now.files net.now.tracked question.now plan.now terms.old.vars) }
{
    let frame = frame_of(alloc, net, &question.packets.dst, plan)?;
    let outside = open_outside(alloc, terms, net, question)?;
    let inside = open_inside(alloc, terms, net, &frame, plan)?;
    let beyond = open_beyond(alloc, terms, net, frame.lens.as_slice())?;
    Ok(OpenRouting {
        packet: outside.packet,
        net: SymNet {
            down: outside.net.down,
            igp: beyond.igp,
        },
        parts: inside.parts,
        routes: inside.routes,
        env: beyond.env,
        frame,
    })
}
