//! What is outside the slots of a routing as terms: its packet, its failed links, and what external peers are and announce.
//! Their variables are new.

ghost use Rattle.std.specs.Prelude.{◌≡◌, ◌+◌, ◌*◌, ◌≤◌, ◌++◌, IfOk, OnOk, length, map};
ghost use Rattle.net_parts.specs.World.{links_of};
ghost use Rattle.plan_places.specs.Plans.{lens_of};
ghost use Rattle.sym_ospf.specs.Rows.{net_end};
ghost use Rattle.sym_ospf.specs.Routes.{routes_end};
ghost use Rattle.sym_policy.specs.Held.{bgp_of, failures_of, ospf_of};
ghost use Rattle.sym_policy.specs.Packets.{packet_of};
ghost use Rattle.sym_policy.specs.Records.{address_of, packet_end};
ghost use Rattle.failed_links.specs.Failures.{failures_from};
ghost use Rattle.term_store.specs.Reading.{Grows, Gives};
ghost use Rattle.term_store.specs.Terms.{size};
ghost use Rattle.igp_variables.specs.Rows.{rows_count, rows_from, rows_width};
ghost use Rattle.bgp_equations.specs.Environments.{FitsNet, env_end};
ghost use Rattle.bgp_variables.specs.Environments.{announced_from, environment_width, ids_from, peers_count as peers_in};
ghost use Rattle.world_variables.specs.Packets.{packet_from};
ghost use Rattle.world_variables.specs.Worlds.{downs_start, slots_start};

use crate::last::last_links;
use bgp_equations::SymEnv;
use bgp_variables::{open_announced, open_ids};
use failed_links::{downs_at, put_unmarked};
use igp_variables::open_rows;
use mw_text::List;
use net_model::Net;
use net_parts::ends::is_outside;
use question_lang::Question;
use std::alloc::{AllocError, Global};
use sym_policy::{SymNet, SymOspf, SymPacket};
use term_store::Terms;
use world_variables::{packet_in, packet_size};

/// The packet and the failed links of a world.
#[derive(Drop)]
pub struct Outside {
    pub packet: SymPacket,
    pub net: SymNet,
}

// Takes a variable for each link. Of most questions those of links that are not at the packet's start become nodes here,
// before the packet's: a search by order then decides them first, all up, and the links at the start last. Where a few
// failed links break a question, most often some at the start do.
#[tactic(auto, using(failed_links::proofs::Steps::grows_grown, failed_links::proofs::Steps::grows_built))]
fn open_links(
    alloc: Global,
    terms: &mut Terms,
    net: &Net,
    question: &Question,
) -> Result<(), AllocError>
    ensures grows { Grows terms.old terms.new }
    ensures vars { OnOk result (terms.new.vars ≡ terms.old.vars + length (links_of net.now.files)) }
{
    let first = terms.vars();
    let last = last_links(alloc, net, question)?;
    terms.reserve(last.items.len() as u64)?;
    put_unmarked(terms, first, last.items.as_slice())
}

// Takes the variables of the packet of a question, and of its links where some may fail.
#[tactic(auto, using(failed_links::proofs::Steps::grows_grown), unfolding(failed_links::specs::Failures::downs_width))]
fn open_variables(
    alloc: Global,
    terms: &mut Terms,
    net: &Net,
    question: &Question,
) -> Result<(), AllocError>
    ensures grows { Grows terms.old terms.new }
    ensures vars { OnOk result (terms.new.vars ≡ slots_start net.now.files question.now terms.old.vars) }
{
    terms.reserve(packet_size(question.packets) as u64)?;
    if question.failures == 0 {
        Ok(())
    } else {
        open_links(alloc, terms, net, question)
    }
}

/// The packet of a question's set, and at most so many failed links as it allows: their variables are new.
#[tactic(auto, using(failed_links::proofs::Steps::grows_grown, failed_links::proofs::Steps::grows_built), unfolding(failed_links::specs::Failures::failures_from, sym_policy::specs::Held::failures_of))]
pub fn open_outside(
    alloc: Global,
    terms: &mut Terms,
    net: &Net,
    question: &Question,
) -> Result<Outside, AllocError>
    ensures grows { Grows terms.old terms.new }
    ensures packet_within { IfOk result (λ r. packet_end r.packet ≤ size terms.new) }
    ensures net_within { IfOk result (λ r. net_end r.net ≤ size terms.new) }
    ensures vars { OnOk result (terms.new.vars ≡ slots_start net.now.files question.now terms.old.vars) }
    ensures packet { Gives terms.new result (λ w r. packet_of w r.packet
        ≡ packet_from question.now.packets w.variable terms.old.vars) }
    ensures failures { Gives terms.new result (λ w r. failures_of w r.net
        ≡ failures_from question.now.failures (length (links_of net.now.files)) w.variable
        (downs_start question.now terms.old.vars)) }
{
    let first = terms.vars();
    open_variables(alloc, terms, net, question)?;
    let _few = terms.vars();
    let packet = packet_in(alloc, terms, first, question.packets)?;
    let downs = first + packet_size(question.packets) as u64;
    let down = downs_at(alloc, terms, downs, question.failures, net.links().len())?;
    let net = SymNet {
        down,
        igp: List::new(alloc),
    };
    Ok(Outside { packet, net })
}

// How many external peers there are.
fn peers_count(net: &Net) -> usize
    ensures { result ≡ peers_in net.now.files }
{
    net.ends().iter().filter(|end| is_outside(end)).count()
}

// The identifiers of external peers, and what each announces at each of these lengths: their variables are new.
#[tactic(auto, using(failed_links::proofs::Steps::grows_grown, crate::proofs::OutsideSteps::lists_tracked))]
fn open_environment(
    alloc: Global,
    terms: &mut Terms,
    net: &Net,
    lens: &[u8],
) -> Result<SymEnv, AllocError>
    ensures grows { Grows terms.old terms.new }
    ensures within { IfOk result (λ r. env_end r ≤ size terms.new) }
    ensures fits { IfOk result (FitsNet net.now.files net.now.tracked lens.now) }
    ensures vars { OnOk result (terms.new.vars
        ≡ terms.old.vars + environment_width net.now.tracked net.now.files lens.now) }
    ensures ids { Gives terms.new result (λ w r. map (address_of w) r.ids
        ≡ ids_from net.now.files w.variable terms.old.vars) }
    ensures announced { Gives terms.new result (λ w r. map (bgp_of w) r.announced
        ≡ announced_from net.now.tracked net.now.files lens.now w.variable terms.old.vars) }
{
    let ids = open_ids(alloc, terms, peers_count(net))?;
    let announced = open_announced(alloc, terms, net, lens)?;
    Ok(SymEnv { ids, announced })
}

/// What comes from beyond the slots: what external peers are and announce, and the interior distances.
#[derive(Drop)]
pub struct Beyond {
    pub env: SymEnv,
    pub igp: List<SymOspf>,
}

/// The identifiers of external peers, what each announces at each of these lengths, and the interior distances where some
/// router runs BGP: their variables are new.
#[tactic(auto, using(failed_links::proofs::Steps::grows_grown, failed_links::proofs::Steps::grows_built))]
pub fn open_beyond(
    alloc: Global,
    terms: &mut Terms,
    net: &Net,
    lens: &[u8],
) -> Result<Beyond, AllocError>
    ensures grows { Grows terms.old terms.new }
    ensures within { IfOk result (λ r. env_end r.env ≤ size terms.new) }
    ensures rows_within { IfOk result (λ r. routes_end r.igp ≤ size terms.new) }
    ensures fits { IfOk result (λ r. FitsNet net.now.files net.now.tracked lens.now r.env) }
    ensures count { IfOk result (λ r. length r.igp ≡ rows_count net.now.files) }
    ensures vars { OnOk result (terms.new.vars
        ≡ terms.old.vars + environment_width net.now.tracked net.now.files lens.now + rows_width net.now.files) }
    ensures ids { Gives terms.new result (λ w r. map (address_of w) r.env.ids
        ≡ ids_from net.now.files w.variable terms.old.vars) }
    ensures announced { Gives terms.new result (λ w r. map (bgp_of w) r.env.announced
        ≡ announced_from net.now.tracked net.now.files lens.now w.variable terms.old.vars) }
    ensures rows { Gives terms.new result (λ w r. map (ospf_of w) r.igp
        ≡ rows_from net.now.files w.variable (terms.old.vars + environment_width net.now.tracked net.now.files lens.now)) }
{
    let env = open_environment(alloc, terms, net, lens)?;
    let igp = open_rows(alloc, terms, net)?;
    Ok(Beyond { env, igp })
}
