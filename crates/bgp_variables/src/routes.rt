//! Routes as terms of new variables.

ghost use Rattle.std.specs.Prelude.{◌≡◌, ℕ, ◌+◌, ◌<◌, ◌≤◌, ◌++◌, ◌∷◌, [], All, IfOk, IfSome, OnOk, None, Some, length, map, replicate};
ghost use Rattle.std.specs.Option.{option_copied};
ghost use Rattle.term_store.specs.Terms.{Reading, at, size};
ghost use Rattle.term_store.specs.Reading.{Reads, Builds, Grows, Gives};
ghost use Rattle.term_arith.specs.Bits.{number, ids_end};
ghost use Rattle.sym_policy.specs.Held.{bgp_of, bgp_end};
ghost use Rattle.sym_policy.specs.MapRecs.{HasTracked};
ghost use Rattle.bgp_variables.specs.Parts.{HasMarksOf};
ghost use Rattle.bgp_variables.specs.Shapes.{IsBgpRoom, IsRoomOf, bgp_from, bgp_width, shape_width};

use crate::parts::{open_rest, open_route};
use crate::rooms::BgpRoom;
use route_record::Tracked;
use std::alloc::{AllocError, Global};
use sym_policy::{SymBgp, SymMapRec, joined};
use sym_rib::no_bgp;
use term_store::Terms;
use world_variables::fields::open_field;

// A route of a room, which is there where its first variable is true.
#[tactic(auto, using(crate::proofs::Joining::open_steps))]
fn open_held(alloc: Global, terms: &mut Terms, room: &BgpRoom) -> Result<SymBgp, AllocError>
    requires { IsBgpRoom room.now }
    ensures grows { Grows terms.old terms.new }
    ensures within { IfOk result (λ r. bgp_end r ≤ size terms.new) }
    ensures rows { IfOk result (λ r. HasMarksOf room.now r) }
    ensures vars { OnOk result (terms.new.vars ≡ terms.old.vars + (1 + shape_width room.now)) }
    ensures value { Gives terms.new result (λ w r. bgp_of w r ≡ bgp_from (Some room.now) w.variable terms.old.vars) }
{
    let valid = terms.fresh()?;
    let from = open_field(alloc, terms, &room.from, 33)?;
    let route = open_route(alloc, terms, room, valid)?;
    let rest = open_rest(alloc, terms, room, from)?;
    let SymMapRec { bgp, .. } = joined(valid, route, rest);
    Ok(bgp)
}

/// A route of new variables: whether there is one, and the route in its room. Without room there is none, and no variable.
#[tactic(auto, using(failed_links::proofs::Steps::grows_built, crate::proofs::Joining::marks_tracked))]
pub fn open_bgp(
    alloc: Global,
    terms: &mut Terms,
    room: Option<&BgpRoom>,
    tracked: &Tracked,
) -> Result<SymBgp, AllocError>
    requires { IfSome (option_copied room) (IsRoomOf tracked.now) }
    ensures grows { Grows terms.old terms.new }
    ensures within { IfOk result (λ r. bgp_end r ≤ size terms.new) }
    ensures rows { IfOk result (HasTracked tracked.now) }
    ensures vars { OnOk result (terms.new.vars ≡ terms.old.vars + bgp_width (option_copied room.entry)) }
    ensures value { Gives terms.new result (λ w r. bgp_of w r
        ≡ bgp_from (option_copied room.entry) w.variable terms.old.vars) }
{
    match room {
        None => no_bgp(alloc, terms, tracked),
        Some(room) => open_held(alloc, terms, room),
    }
}
