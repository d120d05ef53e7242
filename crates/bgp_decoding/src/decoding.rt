//! The routing that values of all variables say.

ghost use Rattle.std.specs.Prelude.{◌≡◌, ◌+◌, ◌≤◌, IfOk, length, true};
ghost use Rattle.term_store.specs.Terms.{truth};
ghost use Rattle.plan_places.specs.Plans as plans;
ghost use Rattle.bgp_variables.specs.Environments.{environment_width};
ghost use Rattle.world_variables.specs.Packets.{packet_from};
ghost use Rattle.world_variables.specs.Worlds.{slots_start};
ghost use Rattle.path_rebuild.specs.Tables.{IsMadeOf};
ghost use Rattle.routing_worlds.specs.Worlds.{HasWordNetwork, environment_from, environment_start, failures_read_from};
ghost use Rattle.bgp_decoding.specs.Decoded.{IsInside, IsOutside};
ghost use Rattle.routing_worlds.specs.Worlds.{is_routing, shape_world_from, world_from};

use crate::inside::{Inside, frame_of, inside_at};
use crate::outside::{Outside, outside_at};
use failed_links::failures_at;
use mw_text::Addr;
use net_model::Net;
use path_rebuild::{Rebuilt, rebuild};
use question_lang::Question;
use route_record::{Environment, Failures, Plan, World};
use std::alloc::{AllocError, Global};
use world_variables::{packet_at, packet_size};

/// A world, and what external peers are and announce in it.
#[derive(Drop)]
pub struct Decoded {
    pub world: World,
    pub environment: Environment,
}

/// Values of all variables of a question's formula over a plan, the links that have failed by them, and the address to which
/// packets go by them.
#[derive(Clone, Copy)]
struct Assignment<'a> {
    values: &'a [bool],
    net: &'a Net,
    question: &'a Question,
    plan: &'a Plan,
    failures: &'a Failures,
    d: Addr,
}

// The failed links.
fn failures_read(
    alloc: Global,
    values: &[bool],
    net: &Net,
    question: &Question,
) -> Result<Failures, AllocError>
    requires { slots_start net.now.files question.now 0 ≤ length values.now }
    ensures { IfOk result (λ r. r ≡ failures_read_from net.now.files question.now (truth values.now) 0) }
{
    let links = net.links().len() as u32;
    let from = packet_size(question.packets);
    failures_at(alloc, values, from, question.failures, links)
}

// The tables and the environment that are made of what is read of values that are a routing.
fn rebuilt(
    alloc: Global,
    assignment: &Assignment<'_>,
    inside: &Inside,
    outside: &Outside,
) -> Result<Rebuilt, AllocError>
    requires destination { assignment.now.d ≡ (packet_from assignment.now.question.now.packets (truth assignment.now.values.now) 0).dst }
    requires inside { IsInside (record {
      files = assignment.now.net.now.files;
      tracked = assignment.now.net.now.tracked;
      question = assignment.now.question.now;
      plan = assignment.now.plan.now;
      values = truth assignment.now.values.now;
    }) inside.now }
    requires outside { IsOutside assignment.now.net.now.tracked assignment.now.net.now.files
        (plans.lens_of assignment.now.plan.now) (truth assignment.now.values.now)
        (environment_start assignment.now.net.now.files assignment.now.net.now.tracked assignment.now.question.now
        assignment.now.plan.now 0) outside.now }
    requires words { HasWordNetwork assignment.now.net.now.files assignment.now.net.now.tracked assignment.now.question.now }
    requires routing { is_routing assignment.now.net.now.files assignment.now.net.now.tracked assignment.now.question.now assignment.now.plan.now
        (truth assignment.now.values.now) 0 ≡ true }
    ensures { IfOk result (IsMadeOf assignment.now.net.now.tracked assignment.now.net.now.files
        (shape_world_from assignment.now.net.now.files assignment.now.net.now.tracked assignment.now.question.now assignment.now.plan.now
        (truth assignment.now.values.now) 0)) }
{
    let ids = outside.ids.as_slice();
    let announced = outside.announced.as_slice();
    let held = inside.held.as_slice();
    let made = rebuild(
        alloc,
        assignment.net,
        assignment.d,
        assignment.failures,
        ids,
        announced,
        held,
        &inside.rest,
    )?;
    Ok(made)
}

// The tables and the environment of values that are a routing.
fn routing_at(alloc: Global, assignment: &Assignment<'_>) -> Result<Rebuilt, AllocError>
    requires failures { assignment.now.failures.now
        ≡ failures_read_from assignment.now.net.now.files assignment.now.question.now (truth assignment.now.values.now) 0 }
    requires destination { assignment.now.d ≡ (packet_from assignment.now.question.now.packets (truth assignment.now.values.now) 0).dst }
    requires width { environment_start assignment.now.net.now.files assignment.now.net.now.tracked
        assignment.now.question.now assignment.now.plan.now 0
        + environment_width assignment.now.net.now.tracked assignment.now.net.now.files
        (plans.lens_of assignment.now.plan.now) ≤ length assignment.now.values.now }
    requires words { HasWordNetwork assignment.now.net.now.files assignment.now.net.now.tracked assignment.now.question.now }
    requires routing { is_routing assignment.now.net.now.files assignment.now.net.now.tracked assignment.now.question.now assignment.now.plan.now
        (truth assignment.now.values.now) 0 ≡ true }
    ensures { IfOk result (IsMadeOf assignment.now.net.now.tracked assignment.now.net.now.files
        (shape_world_from assignment.now.net.now.files assignment.now.net.now.tracked assignment.now.question.now assignment.now.plan.now
        (truth assignment.now.values.now) 0)) }
{
    let values = assignment.values;
    let net = assignment.net;
    let question = assignment.question;
    let plan = assignment.plan;
    let frame = frame_of(alloc, net, question, plan)?;
    let inside = inside_at(
        alloc,
        values,
        net,
        question,
        plan,
        &frame,
        assignment.failures,
        assignment.d,
    )?;
    let outside = outside_at(alloc, values, net, frame.lens.as_slice(), inside.end)?;
    rebuilt(alloc, assignment, &inside, &outside)
}

/// The routing that values of all variables of a question's formula say, in a network with BGP: the world with its real
/// routes, and the environment that is made of it. Every number fits its field, and the values pass the test that they are
/// a routing. Nothing stands off the slices of the plan.
pub fn decode_routing(
    alloc: Global,
    values: &[bool],
    net: &Net,
    question: &Question,
    plan: &Plan,
) -> Result<Decoded, AllocError>
    requires width { environment_start net.now.files net.now.tracked question.now plan.now 0
        + environment_width net.now.tracked net.now.files (plans.lens_of plan.now) ≤ length values.now }
    requires words { HasWordNetwork net.now.files net.now.tracked question.now }
    requires routing { is_routing net.now.files net.now.tracked question.now plan.now (truth values.now) 0 ≡ true }
    ensures world { IfOk result (λ d. d.world
        ≡ world_from net.now.files net.now.tracked question.now plan.now (truth values.now) 0) }
    ensures environment { IfOk result (λ d. d.environment
        ≡ environment_from net.now.files net.now.tracked question.now plan.now (truth values.now) 0) }
{
    let packet = packet_at(values, question.packets);
    let failures = failures_read(alloc, values, net, question)?;
    let assignment = Assignment {
        values,
        net,
        question,
        plan,
        failures: &failures,
        d: packet.dst,
    };
    let made = routing_at(alloc, &assignment)?;
    Ok(Decoded {
        world: World {
            failures,
            packet,
            tables: made.tables,
        },
        environment: made.env,
    })
}
