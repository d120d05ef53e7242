//! Answers one ask about two networks by a search, whose log shows the answer.

ghost use Rattle.std.specs.Prelude.{◌≡◌, ℕ, List as ListOf, IfOk, OnErr, OnOk, length, map, true};
ghost use Rattle.cdcl_search.specs.Outcomes.{OnLogFault, OnSat, OnUnknown, OnUnsat, Shows, UnlessLogFault};
ghost use Rattle.mw_outside.specs.Faults.{Rose};
ghost use Rattle.mw_outside.specs.Taken.{Takes, TakesPart};
ghost use Rattle.resolution_check.specs.declared.log.Entry.{Entry};
ghost use Rattle.resolution_check.specs.Entries.{IsUnsatisfiable, satisfies};
ghost use Rattle.routings_beside.specs.Pairs.{question_of};
ghost use Rattle.run_answers.specs.Verdicts.{opening_text};
ghost use Rattle.run_inputs.specs.Loading.{IsBudget};
ghost use Rattle.same_asks.specs.Asking.{IsKnown};
ghost use Rattle.term_store.specs.Terms.{truth};
ghost use Rattle.pair_search.specs.Formulas.{IsPairFormula};
ghost use Rattle.pair_search.specs.Searches.{IsFound, IsToldSo, IsUnfinished};
ghost use Rattle.pair_search.specs.Verdicts.{IsDifferent, IsRight, ShowsVerdict};

use crate::decoding::decode_compared;
use crate::formula::{PairFormula, formula_of};
use crate::verdict::SameVerdict;
use cdcl_search::{Outcome, SolveFault, solve};
use cnf_blaster::decoded;
use deciders::Decider;
use mw_outside::Sink;
use net_model::Net;
use routings_beside::question::question_for;
use run_answers::section::{write_end, write_opening};
use same_asks::Same;
use std::alloc::{AllocError, Global};

// The verdict of values that satisfy the clauses of the ask.
#[tactic(auto, using(crate::proofs::Formulas::sat_true))]
fn different_of(
    alloc: Global,
    left: &Net,
    right: &Net,
    ask: &Same,
    formula: &PairFormula,
    values: &[bool],
) -> Result<SameVerdict, AllocError>
    requires known { IsKnown left.now.files right.now.files ask.now }
    requires formula { IsPairFormula left.now right.now ask.now formula.now }
    requires values { length values.now ≡ formula.now.cnf.vars }
    requires satisfied { satisfies (truth values.now) formula.now.cnf.clauses ≡ true }
    ensures right { IfOk result (IsRight left.now.files right.now.files ask.now) }
    ensures different { IfOk result IsDifferent }
{
    let encoding = &formula.encoding;
    let roots = [encoding.root];
    let row = decoded(
        alloc,
        &encoding.terms,
        &roots,
        formula.cnf.node_of.as_slice(),
        values,
    )?;
    let verdict = decode_compared(alloc, left, right, ask, encoding, row.as_slice())?;
    Ok(verdict)
}

// The right verdict of what a search of the ask's clauses found.
fn verdict_of(
    alloc: Global,
    left: &Net,
    right: &Net,
    ask: &Same,
    formula: &PairFormula,
    outcome: Outcome,
) -> Result<SameVerdict, AllocError>
    requires known { IsKnown left.now.files right.now.files ask.now }
    requires formula { IsPairFormula left.now right.now ask.now formula.now }
    requires unsat { OnUnsat outcome (IsUnsatisfiable formula.now.cnf.clauses) }
    requires sat { OnSat outcome (λ values. satisfies (truth values) formula.now.cnf.clauses ≡ true) }
    requires values { OnSat outcome (λ values. length values ≡ formula.now.cnf.vars) }
    ensures right { IfOk result (IsRight left.now.files right.now.files ask.now) }
    ensures shown { IfOk result (λ verdict. (budget : ℕ) (entries : ListOf Entry) →
        OnUnknown outcome (λ added. added ≡ budget) → Shows budget entries outcome →
        ShowsVerdict budget entries verdict) }
{
    match outcome {
        Outcome::Unsat => Ok(SameVerdict::Same),
        Outcome::Sat { values } => {
            different_of(alloc, left, right, ask, formula, values.as_slice())
        }
        Outcome::Unknown { added } => Ok(SameVerdict::Unknown(added)),
    }
}

// What a search for what makes two networks answer an ask differently found, with the formula that was searched.
#[derive(Drop)]
struct Searched {
    formula: PairFormula,
    outcome: Outcome,
}

// Opens the section of the ask in the log.
fn open_section<L: Sink>(alloc: Global, ask: &Same, log: &mut L) -> Result<(), SolveFault>
    ensures takes { OnOk result (Takes (L.taken log.old) (L.taken log.new) (opening_text (question_of ask.now))) }
    ensures part { TakesPart (L.taken log.old) (L.taken log.new) (opening_text (question_of ask.now)) }
    ensures fault { OnLogFault result (Rose (L.faults log.old) (L.faults log.new)) }
    ensures stays { UnlessLogFault result (L.faults log.new ≡ L.faults log.old) }
{
    let question = question_for(alloc, ask)?;
    write_opening(alloc, &question, log)
}

// Searches for what makes the networks answer the ask differently, and writes the ask's section of the log.
fn search<L: Sink>(
    alloc: Global,
    left: &Net,
    right: &Net,
    ask: &Same,
    budget: u64,
    log: &mut L,
    deciders: &mut Vec<Box<dyn Decider>>,
) -> Result<Searched, SolveFault>
    requires budget { IsBudget budget }
    requires known { IsKnown left.now.files right.now.files ask.now }
    requires tracked { left.now.tracked ≡ right.now.tracked }
    ensures found { IfOk result (λ s. IsFound left.now right.now budget ask.now s.formula s.outcome
        (L.taken log.old) (L.taken log.new) (map (λ b. told b) deciders.new.items)) }
    ensures cut { OnErr result (IsUnfinished left.now.files right.now.files budget ask.now
        (L.taken log.old) (L.taken log.new)) }
    ensures fault { OnLogFault result (Rose (L.faults log.old) (L.faults log.new)) }
    ensures stays { UnlessLogFault result (L.faults log.new ≡ L.faults log.old) }
    ensures deciders { length deciders.new.items ≡ length deciders.old.items }
{
    open_section(alloc, ask, log)?;
    let formula = formula_of(alloc, left, right, ask)?;
    let outcome = solve(alloc, &formula.cnf, budget, log, deciders)?;
    write_end(log)?;
    Ok(Searched { formula, outcome })
}

/// A right verdict for the ask about two networks that track the same values, found by learning at most so many clauses.
/// The section that shows it stands in the log, and the deciders were told of its additions, each of those of its turns.
///
/// # Errors
/// `LogFault` where a write of the log failed; `Memory` where memory was refused and no write failed. A front of what was
/// to be logged then stands.
pub fn answer<L: Sink>(
    alloc: Global,
    left: &Net,
    right: &Net,
    ask: &Same,
    budget: u64,
    log: &mut L,
    deciders: &mut Vec<Box<dyn Decider>>,
) -> Result<SameVerdict, SolveFault>
    requires budget { IsBudget budget }
    requires known { IsKnown left.now.files right.now.files ask.now }
    requires tracked { left.now.tracked ≡ right.now.tracked }
    ensures ok { IfOk result (λ verdict. IsToldSo left.now.files right.now.files budget ask.now verdict
        (L.taken log.old) (L.taken log.new) (map (λ b. told b) deciders.new.items)) }
    ensures cut { OnErr result (IsUnfinished left.now.files right.now.files budget ask.now
        (L.taken log.old) (L.taken log.new)) }
    ensures fault { OnLogFault result (Rose (L.faults log.old) (L.faults log.new)) }
    ensures stays { UnlessLogFault result (L.faults log.new ≡ L.faults log.old) }
    ensures deciders { length deciders.new.items ≡ length deciders.old.items }
{
    let Searched { formula, outcome } = search(alloc, left, right, ask, budget, log, deciders)?;
    let verdict = verdict_of(alloc, left, right, ask, &formula, outcome)?;
    Ok(verdict)
}
