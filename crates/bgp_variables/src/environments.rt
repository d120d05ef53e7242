//! What comes from outside a network, as terms of new variables.

ghost use Rattle.std.specs.Prelude.{◌≡◌, ℕ, ◌+◌, ◌*◌, ◌<◌, ◌≤◌, ◌++◌, ◌∷◌, [], All, IfOk, IfSome, OnOk, length, map, max, option_map, replicate};
ghost use Rattle.std.specs.Option.{option_copied};
ghost use Rattle.mw_text.specs.declared.address.Addr.{Addr};
ghost use Rattle.term_store.specs.Terms.{Reading, at, size};
ghost use Rattle.term_store.specs.Reading.{Reads, Builds, Grows, Gives};
ghost use Rattle.term_arith.specs.Bits.{bits, number, ids_end};
ghost use Rattle.failed_links.specs.Rows.{number_from};
ghost use Rattle.sym_policy.specs.Held.{bgp_of, bgp_end};
ghost use Rattle.sym_policy.specs.Records.{address_of};
ghost use Rattle.sym_policy.specs.MapRecs.{HasTracked};
ghost use Rattle.sym_rib.specs.Into.{list_end};
ghost use Rattle.bgp_variables.specs.Environments.{addresses_from, announced_rooms, end_room, end_rooms, peers_count, rooms_over};
ghost use Rattle.bgp_variables.specs.Rooms.{announcement_room as announced_room};
ghost use Rattle.bgp_variables.specs.Shapes.{IsRoomOf, bgp_from, bgp_width, bgps_from, bgps_width};

use crate::rooms::{BgpRoom, announcement_room};
use crate::routes::open_bgp;
use ios_ast::{File, Neighbour};
use mw_text::List;
use net_model::Net;
use net_parts::SessionEnd;
use net_parts::ends::{is_outside, neighbour_of};
use route_record::Tracked;
use std::alloc::{AllocError, Global};
use sym_policy::SymBgp;
use term_arith::{Bits, fresh_bits};
use term_store::Terms;

fn put_id(made: &mut List<Bits>, next: Bits) -> Result<(), AllocError>
    ensures { OnOk result (made.new ≡ made.old ++ next ∷ []) }
{
    made.items.push(next)?;
    Ok(())
}

// An address of new variables.
#[tactic(auto, using(failed_links::proofs::Steps::number_fresh))]
fn open_id(alloc: Global, terms: &mut Terms) -> Result<Bits, AllocError>
    ensures grows { Grows terms.old terms.new }
    ensures within { IfOk result (λ r. ids_end r.nodes.items ≤ size terms.new) }
    ensures width { IfOk result (λ r. length r.nodes.items ≡ 32) }
    ensures vars { OnOk result (terms.new.vars ≡ terms.old.vars + 32) }
    ensures value { Gives terms.new result (λ w r. number w r.nodes.items ≡ number_from w.variable terms.old.vars 32) }
{
    fresh_bits(alloc, terms, 32)
}

/// So many identifiers of new variables.
#[tactic(auto, using(crate::proofs::EnvironmentSteps::id_steps))]
pub fn open_ids(alloc: Global, terms: &mut Terms, count: usize) -> Result<List<Bits>, AllocError>
    ensures grows { Grows terms.old terms.new }
    ensures within { IfOk result (λ r. list_end (λ b. ids_end b.nodes.items) r ≤ size terms.new) }
    ensures wide { IfOk result (λ r. All (λ b. length b.nodes.items ≡ 32) r) }
    ensures length { IfOk result (λ r. length r ≡ count) }
    ensures vars { OnOk result (terms.new.vars ≡ terms.old.vars + 32 * count) }
    ensures value { Gives terms.new result (λ w r. map (address_of w) r ≡ addresses_from count w.variable terms.old.vars) }
{
    let mut made = List::new(alloc);
    for i in 0..count {
        let next = open_id(alloc, terms)?;
        put_id(&mut made, next)?;
    }
    Ok(made)
}

fn put_bgp(made: &mut List<SymBgp>, next: SymBgp) -> Result<(), AllocError>
    ensures { OnOk result (made.new ≡ made.old ++ next ∷ []) }
{
    made.items.push(next)?;
    Ok(())
}

// Puts so many routes of one room at the end.
#[tactic(auto, using(crate::proofs::EnvironmentSteps::row_steps))]
fn open_row(
    alloc: Global,
    terms: &mut Terms,
    made: &mut List<SymBgp>,
    room: Option<&BgpRoom>,
    tracked: &Tracked,
    count: usize,
) -> Result<(), AllocError>
    requires room { IfSome (option_copied room) (IsRoomOf tracked.now) }
    requires within { list_end bgp_end made.old ≤ size terms.old }
    requires rows { All (HasTracked tracked.now) made.old }
    ensures grows { Grows terms.old terms.new }
    ensures within { OnOk result (list_end bgp_end made.new ≤ size terms.new) }
    ensures rows { OnOk result (All (HasTracked tracked.now) made.new) }
    ensures length { OnOk result (length made.new ≡ length made.old + count) }
    ensures vars { OnOk result (terms.new.vars
        ≡ terms.old.vars + bgps_width (replicate count (option_copied room.entry))) }
    ensures value { OnOk result ((w : Reading) → Reads w terms.new → map (bgp_of w) made.new
        ≡ map (bgp_of w) made.old ++ bgps_from (replicate count (option_copied room.entry)) w.variable terms.old.vars) }
{
    for i in 0..count {
        let next = open_bgp(alloc, terms, room, tracked)?;
        put_bgp(made, next)?;
    }
    Ok(())
}

// A room that is done with: each of its fields ends here, so that no caller ends them beside its own clauses.
fn put_away(_room: BgpRoom) {}

// Puts at the end what arrives at so many lengths over the session of an external end with that neighbour line.
fn open_peer(
    alloc: Global,
    terms: &mut Terms,
    made: &mut List<SymBgp>,
    neighbour: Option<&Neighbour>,
    tracked: &Tracked,
    count: usize,
) -> Result<(), AllocError>
    requires within { list_end bgp_end made.old ≤ size terms.old }
    requires rows { All (HasTracked tracked.now) made.old }
    ensures grows { Grows terms.old terms.new }
    ensures within { OnOk result (list_end bgp_end made.new ≤ size terms.new) }
    ensures rows { OnOk result (All (HasTracked tracked.now) made.new) }
    ensures length { OnOk result (length made.new ≡ length made.old + count) }
    ensures vars { OnOk result (terms.new.vars ≡ terms.old.vars
        + bgps_width (replicate count (option_map (announced_room tracked.now) (option_copied neighbour.entry)))) }
    ensures value { OnOk result ((w : Reading) → Reads w terms.new → map (bgp_of w) made.new
        ≡ map (bgp_of w) made.old ++ bgps_from (replicate count
        (option_map (announced_room tracked.now) (option_copied neighbour.entry))) w.variable terms.old.vars) }
{
    match neighbour {
        None => open_row(alloc, terms, made, None, tracked, count),
        Some(neighbour) => {
            let room = announcement_room(alloc, tracked, neighbour)?;
            let opened = open_row(alloc, terms, made, Some(&room), tracked, count);
            put_away(room);
            opened
        }
    }
}

// Puts at the end what arrives over the session of an end.
#[tactic(auto, using(crate::proofs::EnvironmentSteps::inside_steps))]
fn open_end(
    alloc: Global,
    terms: &mut Terms,
    made: &mut List<SymBgp>,
    files: &[File],
    end: &SessionEnd,
    tracked: &Tracked,
    count: usize,
) -> Result<(), AllocError>
    requires within { list_end bgp_end made.old ≤ size terms.old }
    requires rows { All (HasTracked tracked.now) made.old }
    ensures grows { Grows terms.old terms.new }
    ensures within { OnOk result (list_end bgp_end made.new ≤ size terms.new) }
    ensures rows { OnOk result (All (HasTracked tracked.now) made.new) }
    ensures length { OnOk result (length made.new
        ≡ length made.old + length (end_rooms tracked.now files.now count end.now)) }
    ensures vars { OnOk result (terms.new.vars
        ≡ terms.old.vars + bgps_width (end_rooms tracked.now files.now count end.now)) }
    ensures value { OnOk result ((w : Reading) → Reads w terms.new → map (bgp_of w) made.new
        ≡ map (bgp_of w) made.old ++ bgps_from (end_rooms tracked.now files.now count end.now) w.variable terms.old.vars) }
{
    if is_outside(end) {
        let neighbour = neighbour_of(files, end);
        open_peer(alloc, terms, made, neighbour, tracked, count)
    } else {
        Ok(())
    }
}

/// What external peers announce, of new variables: by external end, and then by these lengths. Each route is the message
/// that arrives of the peer: its next hop is the peer, and it has no weight, no local preference and no clusters.
#[tactic(auto, using(crate::proofs::EnvironmentSteps::over_steps))]
pub fn open_announced(
    alloc: Global,
    terms: &mut Terms,
    net: &Net,
    lens: &[u8],
) -> Result<List<SymBgp>, AllocError>
    ensures grows { Grows terms.old terms.new }
    ensures within { IfOk result (λ r. list_end bgp_end r ≤ size terms.new) }
    ensures rows { IfOk result (All (HasTracked net.now.tracked)) }
    ensures length { IfOk result (λ r. length r ≡ peers_count net.now.files * length lens.now) }
    ensures vars { OnOk result (terms.new.vars ≡ terms.old.vars
        + bgps_width (announced_rooms net.now.tracked net.now.files (length lens.now))) }
    ensures value { Gives terms.new result (λ w r. map (bgp_of w) r
        ≡ bgps_from (announced_rooms net.now.tracked net.now.files (length lens.now)) w.variable terms.old.vars) }
{
    let files = net.routers();
    let tracked = net.tracked();
    let mut made = List::new(alloc);
    for end in net.ends() {
        open_end(alloc, terms, &mut made, files, end, tracked, lens.len())?;
    }
    Ok(made)
}
