//! Which BGP sessions are up, as terms.

ghost use Rattle.std.specs.Prelude.{◌≡◌, ◌*◌, ◌<◌, ◌≤◌, ◌&&◌, ◌||◌, true, false, IfOk, length, slice_get};
ghost use Rattle.std.specs.Option.{option_map_or};
ghost use Rattle.term_store.specs.Terms.{size, at};
ghost use Rattle.term_store.specs.Reading.{Builds, Gives};
ghost use Rattle.net_parts.specs.Ospf as ospf;
ghost use Rattle.net_parts.specs.Resolution as resolution;
ghost use Rattle.net_parts.specs.Sessions as sessions;
ghost use Rattle.sym_policy.specs.Held.{failures_of};
ghost use Rattle.sym_ospf.specs.Rows.{net_end, HasDistances};

use crate::resolution::sym_resolve;
use net_model::{Far, Net, SessionEnd};
use net_parts::ends::neighbour_of;
use std::alloc::{AllocError, Global};
use sym_interfaces::sym_up_at;
use sym_policy::SymNet;
use term_arith::constant;
use term_arith::gates::{both, constant_node};
use term_store::{NodeId, Terms};

/// Whether the router at an end resolves the address of its neighbour.
#[tactic(auto, using(crate::proofs::Reach::resolves_is))]
fn sym_resolves(
    alloc: Global,
    terms: &mut Terms,
    net: &Net,
    sym: &SymNet,
    end: &SessionEnd,
) -> Result<NodeId, AllocError>
    requires rows { length sym.now.igp ≡ length net.now.files * length (ospf.advertised net.now.files) }
    requires nodes { net_end sym.now ≤ size terms.old }
    ensures builds { Builds terms.old terms.new }
    ensures within { IfOk result (λ r. r.0 < size terms.new) }
    ensures value { Gives terms.new result (λ w r. HasDistances w net.now.files sym.now → at w r
        ≡ resolution.resolves_neighbour net.now.files (failures_of w sym.now) end.now) }
{
    match neighbour_of(net.routers(), end) {
        None => constant_node(terms, false),
        Some(neighbour) => {
            let a = constant(alloc, terms, u64::from(neighbour.addr.0), 32)?;
            let made = sym_resolve(alloc, terms, net, sym, end.router, &a)?;
            Ok(made.valid)
        }
    }
}

/// Whether the two ends reach each other: over a shared subnet, or by resolving each other's address.
fn sym_meet(
    alloc: Global,
    terms: &mut Terms,
    net: &Net,
    sym: &SymNet,
    end: &SessionEnd,
    far: &SessionEnd,
) -> Result<NodeId, AllocError>
    requires rows { length sym.now.igp ≡ length net.now.files * length (ospf.advertised net.now.files) }
    requires nodes { net_end sym.now ≤ size terms.old }
    ensures builds { Builds terms.old terms.new }
    ensures within { IfOk result (λ r. r.0 < size terms.new) }
    ensures value { Gives terms.new result (λ w r. HasDistances w net.now.files sym.now → at w r
        ≡ (end.now.shared || (resolution.resolves_neighbour net.now.files (failures_of w sym.now) end.now
        && resolution.resolves_neighbour net.now.files (failures_of w sym.now) far.now))) }
{
    if end.shared {
        return constant_node(terms, true);
    }
    let one = sym_resolves(alloc, terms, net, sym, end)?;
    let other = sym_resolves(alloc, terms, net, sym, far)?;
    both(terms, one, other)
}

/// Whether the session between two ends of routers is up.
fn sym_up_between(
    alloc: Global,
    terms: &mut Terms,
    net: &Net,
    sym: &SymNet,
    end: &SessionEnd,
    far: &SessionEnd,
) -> Result<NodeId, AllocError>
    requires rows { length sym.now.igp ≡ length net.now.files * length (ospf.advertised net.now.files) }
    requires nodes { net_end sym.now ≤ size terms.old }
    ensures builds { Builds terms.old terms.new }
    ensures within { IfOk result (λ r. r.0 < size terms.new) }
    ensures value { Gives terms.new result (λ w r. HasDistances w net.now.files sym.now → at w r
        ≡ resolution.is_up_between net.now.files (failures_of w sym.now) end.now far.now) }
{
    let own = sym_up_at(alloc, terms, net, sym, end.own)?;
    let other = sym_up_at(alloc, terms, net, sym, far.own)?;
    let interfaces = both(terms, own, other)?;
    let meet = sym_meet(alloc, terms, net, sym, end, far)?;
    both(terms, interfaces, meet)
}

/// Whether the session of an end is up.
#[tactic(auto, unfolding(net_parts::specs::Resolution::session_up))]
fn sym_end_up(
    alloc: Global,
    terms: &mut Terms,
    net: &Net,
    sym: &SymNet,
    end: &SessionEnd,
) -> Result<NodeId, AllocError>
    requires rows { length sym.now.igp ≡ length net.now.files * length (ospf.advertised net.now.files) }
    requires nodes { net_end sym.now ≤ size terms.old }
    ensures builds { Builds terms.old terms.new }
    ensures within { IfOk result (λ r. r.0 < size terms.new) }
    ensures value { Gives terms.new result (λ w r. HasDistances w net.now.files sym.now → at w r
        ≡ resolution.session_up net.now.files (failures_of w sym.now) end.now) }
{
    match end.far {
        Far::Outside => sym_up_at(alloc, terms, net, sym, end.own),
        Far::Inside(place) => match net.ends().get(place as usize) {
            None => constant_node(terms, false),
            Some(far) => sym_up_between(alloc, terms, net, sym, end, far),
        },
    }
}

/// Whether the session of the end at a place of `Net::ends` is up (RFC 4271, section 8.2): with an external peer where
/// the router's own interface is up; with a router of the files where both interfaces are, and, unless the neighbour's
/// address is on a shared subnet, both resolve each other. False where there is no such end. This holds under each
/// reading in which the rows of `sym` are the interior distances.
pub fn sym_session_up(
    alloc: Global,
    terms: &mut Terms,
    net: &Net,
    sym: &SymNet,
    end: u32,
) -> Result<NodeId, AllocError>
    requires rows { length sym.now.igp ≡ length net.now.files * length (ospf.advertised net.now.files) }
    requires nodes { net_end sym.now ≤ size terms.old }
    ensures builds { Builds terms.old terms.new }
    ensures within { IfOk result (λ r. r.0 < size terms.new) }
    ensures value { Gives terms.new result (λ w r. HasDistances w net.now.files sym.now → at w r
        ≡ option_map_or (resolution.session_up net.now.files (failures_of w sym.now))
        (slice_get (sessions.ends_of net.now.files) end) false) }
{
    match net.ends().get(end as usize) {
        None => constant_node(terms, false),
        Some(one) => sym_end_up(alloc, terms, net, sym, one),
    }
}
