//! Whether a walk breaks a question, from what each router does with the packet.

ghost use Rattle.std.specs.Prelude.{◌≡◌, ℕ, ◌+◌, ◌<◌, ◌≤◌, ◌&&◌, ◌||◌, not, Bool, true, false, IfOk, length, set};
ghost use Rattle.std.specs.Prelude.{List as ListOf, Option};
ghost use Rattle.ios_ast.specs.declared.file.File.{File};
ghost use Rattle.route_record.specs.declared.World.{World as WorldOf};
ghost use Rattle.question_lang.specs.declared.walk.Walk.{Walk as WalkOf};
ghost use Rattle.question_lang.specs.Breaking.{Breaks};
ghost use Rattle.term_store.specs.Terms.{Reading, size, at};
ghost use Rattle.term_store.specs.Reading.{Reads, Builds, Gives};
ghost use Rattle.walk_def.specs.Marks.{known};
ghost use Rattle.sym_forwarding.specs.Layers.{arrives, loops, is_broken, silent};
ghost use Rattle.sym_forwarding.specs.Symbolic.{beginning_of, beginning_end, table_of, table_end};

use crate::forwarding::{SymBeginning, SymForwarding};
use crate::layers::{sym_arrives, sym_goes, sym_loops};
use mw_text::List;
use question_lang::Kind;
use std::alloc::{AllocError, Global};
use term_arith::gates::{both, constant_node, either, negate};
use term_store::{NodeId, Terms};

// The table without what one router does with the packet.
#[tactic(auto, using(crate::proofs::Tables::silence_steps))]
fn silence(
    alloc: Global,
    terms: &mut Terms,
    table: List<SymForwarding>,
    via: u32,
) -> Result<List<SymForwarding>, AllocError>
    requires { table_end table ≤ size terms.old }
    ensures builds { Builds terms.old terms.new }
    ensures within { IfOk result (λ r. table_end r ≤ size terms.new) }
    ensures value { Gives terms.new result (λ w r. table_of w r ≡ set (table_of w table) via silent) }
{
    let never = constant_node(terms, false)?;
    let mut others = table;
    let place = via as usize;
    if place < others.items.len() {
        others.items[place] = SymForwarding {
            next: Vec::new(alloc),
            ends: never,
        };
    }
    Ok(others)
}

// Whether a walk from the start ends elsewhere than asked, or comes back.
fn sym_strays(
    alloc: Global,
    terms: &mut Terms,
    start: &SymBeginning,
    router: u32,
    table: &[SymForwarding],
) -> Result<NodeId, AllocError>
    requires start { beginning_end start.now ≤ size terms.old }
    requires nodes { table_end table.now ≤ size terms.old }
    ensures builds { Builds terms.old terms.new }
    ensures within { IfOk result (λ r. r.0 < size terms.new) }
    ensures value { Gives terms.new result (λ w r. at w r ≡ ((beginning_of w start.now).denied ||
        ((beginning_of w start.now).begins
        && (arrives (table_of w table.now) router || loops (table_of w table.now) router)))) }
{
    let ends = sym_arrives(alloc, terms, table, router)?;
    let back = sym_loops(alloc, terms, table, router)?;
    let wrong = either(terms, ends, back)?;
    let goes = both(terms, start.begins, wrong)?;
    either(terms, start.denied, goes)
}

// Whether a walk ends as asked from the first router, and none from the second.
fn sym_alone(
    alloc: Global,
    terms: &mut Terms,
    first: u32,
    second: u32,
    table: &[SymForwarding],
) -> Result<NodeId, AllocError>
    requires { table_end table.now ≤ size terms.old }
    ensures builds { Builds terms.old terms.new }
    ensures within { IfOk result (λ r. r.0 < size terms.new) }
    ensures value { Gives terms.new result (λ w r. at w r ≡ (arrives (table_of w table.now) first && not (arrives
        (table_of w table.now) second))) }
{
    let here = sym_arrives(alloc, terms, table, first)?;
    let there = sym_arrives(alloc, terms, table, second)?;
    let none = negate(terms, there)?;
    both(terms, here, none)
}

/// Whether a walk breaks a question of that kind, where the beginning says what the interface of its start does
/// with the
/// packet and the table what each router does.
pub fn sym_broken(
    alloc: Global,
    terms: &mut Terms,
    kind: Kind,
    begin: &SymBeginning,
    table: List<SymForwarding>,
) -> Result<NodeId, AllocError>
    requires start { beginning_end begin.now ≤ size terms.old }
    requires nodes { table_end table ≤ size terms.old }
    ensures builds { Builds terms.old terms.new }
    ensures within { IfOk result (λ r. r.0 < size terms.new) }
    ensures value { Gives terms.new result (λ w r. at w r ≡ is_broken kind (beginning_of w begin.now) (table_of w
        table)) }
{
    match kind {
        Kind::Reach(start, _) => sym_strays(alloc, terms, begin, start.router, table.as_slice()),
        Kind::Isolate(start, _) | Kind::NoBlackHole(start) => {
            let ends = sym_arrives(alloc, terms, table.as_slice(), start.router)?;
            both(terms, begin.begins, ends)
        }
        Kind::Waypoint(start, _, via) => {
            let others = silence(alloc, terms, table, via)?;
            let ends = sym_arrives(alloc, terms, others.as_slice(), start.router)?;
            both(terms, begin.begins, ends)
        }
        Kind::NoLoop(start) => {
            let back = sym_loops(alloc, terms, table.as_slice(), start.router)?;
            both(terms, begin.begins, back)
        }
        Kind::Within(most, start) => {
            let hops = most as usize + 1;
            let goes = sym_goes(alloc, terms, table.as_slice(), start.router, hops)?;
            both(terms, begin.begins, goes)
        }
        Kind::Alike(a, b, _) => {
            let first = sym_alone(alloc, terms, a, b, table.as_slice())?;
            let second = sym_alone(alloc, terms, b, a, table.as_slice())?;
            either(terms, first, second)
        }
        Kind::NoStable => constant_node(terms, true),
    }
}
