//! Answers one question by a search, whose log shows the answer.

ghost use Rattle.std.specs.Prelude.{◌≡◌, ℕ, List as ListOf, IfOk, OnErr, length, map, true};
ghost use Rattle.cdcl_search.specs.Outcomes.{OnLogFault, OnSat, OnUnknown, OnUnsat, Shows, UnlessLogFault};
ghost use Rattle.mw_outside.specs.Faults.{Rose};
ghost use Rattle.question_search.specs.Formulas.{IsFormula};
ghost use Rattle.question_search.specs.Searches.{IsFound};
ghost use Rattle.resolution_check.specs.declared.log.Entry.{Entry};
ghost use Rattle.resolution_check.specs.Entries.{IsUnsatisfiable, satisfies};
ghost use Rattle.run_answers.specs.Answering.{IsToldSo, IsUnfinished};
ghost use Rattle.cex_json.specs.Counterexamples.{IsTrueCounterexample};
ghost use Rattle.run_answers.specs.Verdicts as verdicts;
ghost use Rattle.run_inputs.specs.Loading.{IsBudget};
ghost use Rattle.term_store.specs.Terms.{truth};

use crate::formula::{Formula, formula_of};
use cdcl_search::{Outcome, SolveFault, solve};
use cex_json::Counterexample;
use cnf_blaster::decoded;
use deciders::Decider;
use mw_outside::Sink;
use net_encoder::decode;
use net_model::Net;
use question_lang::Question;
use run_answers::Verdict;
use run_answers::section::{write_end, write_opening};
use std::alloc::{AllocError, Global};

// The counterexample of values that satisfy the clauses of the question.
#[tactic(auto, using(crate::proofs::Formulas::sat_true))]
fn counterexample_of(
    alloc: Global,
    net: &Net,
    number: u32,
    question: &Question,
    formula: &Formula,
    values: &[bool],
) -> Result<Counterexample, AllocError>
    requires formula { IsFormula net.now.files net.now.tracked question.now formula.now }
    requires values { length values.now ≡ formula.now.cnf.vars }
    requires satisfied { satisfies (truth values.now) formula.now.cnf.clauses ≡ true }
    ensures { IfOk result (IsTrueCounterexample net.now.files number question.now) }
{
    let encoding = &formula.encoding;
    let roots = [encoding.root];
    let row = decoded(
        alloc,
        &encoding.terms,
        &roots,
        formula.cnf.node_of.as_slice(),
        values,
    )?;
    let cex = decode(alloc, net, question, number, encoding, row.as_slice())?;
    Ok(cex)
}

// The right verdict of what a search of the question's clauses found.
fn verdict_of(
    alloc: Global,
    net: &Net,
    number: u32,
    question: &Question,
    formula: &Formula,
    outcome: Outcome,
) -> Result<Verdict, AllocError>
    requires formula { IsFormula net.now.files net.now.tracked question.now formula.now }
    requires unsat { OnUnsat outcome (IsUnsatisfiable formula.now.cnf.clauses) }
    requires sat { OnSat outcome (λ values. satisfies (truth values) formula.now.cnf.clauses ≡ true) }
    requires values { OnSat outcome (λ values. length values ≡ formula.now.cnf.vars) }
    ensures right { IfOk result (verdicts.IsRight net.now.files number question.now) }
    ensures shown { IfOk result (λ verdict. (budget : ℕ) (entries : ListOf Entry) →
        OnUnknown outcome (λ added. added ≡ budget) → Shows budget entries outcome →
        verdicts.ShowsVerdict budget entries verdict) }
{
    match outcome {
        Outcome::Unsat => Ok(Verdict::Holds),
        Outcome::Sat { values } => {
            let cex = counterexample_of(alloc, net, number, question, formula, values.as_slice())?;
            Ok(Verdict::Broken(cex))
        }
        Outcome::Unknown { added } => Ok(Verdict::Unknown(added)),
    }
}

// What a search for what breaks a question found, with the formula that was searched.
#[derive(Drop)]
struct Searched {
    formula: Formula,
    outcome: Outcome,
}

// Searches for what breaks the question, and writes the question's section of the log.
fn search<L: Sink>(
    alloc: Global,
    net: &Net,
    question: &Question,
    budget: u64,
    log: &mut L,
    deciders: &mut Vec<Box<dyn Decider>>,
) -> Result<Searched, SolveFault>
    requires budget { IsBudget budget }
    ensures found { IfOk result (λ s. IsFound net.now.files net.now.tracked budget question.now s.formula s.outcome (L.taken log.old) (L.taken log.new)
        (map (λ b. told b) deciders.new.items)) }
    ensures cut { OnErr result (IsUnfinished net.now.files budget question.now (L.taken log.old) (L.taken log.new)) }
    ensures fault { OnLogFault result (Rose (L.faults log.old) (L.faults log.new)) }
    ensures stays { UnlessLogFault result (L.faults log.new ≡ L.faults log.old) }
    ensures deciders { length deciders.new.items ≡ length deciders.old.items }
{
    write_opening(alloc, question, log)?;
    let formula = formula_of(alloc, net, question)?;
    let outcome = solve(alloc, &formula.cnf, budget, log, deciders)?;
    write_end(log)?;
    Ok(Searched { formula, outcome })
}

/// A right verdict for the question of that number, found by learning at most so many clauses. The section that shows it
/// stands in the log, and the deciders were told of its additions, each of those of its turns.
///
/// # Errors
/// `LogFault` where a write of the log failed; `Memory` where memory was refused and no write failed. A front of what was
/// to be logged then stands.
pub fn answer<L: Sink>(
    alloc: Global,
    net: &Net,
    number: u32,
    question: &Question,
    budget: u64,
    log: &mut L,
    deciders: &mut Vec<Box<dyn Decider>>,
) -> Result<Verdict, SolveFault>
    requires budget { IsBudget budget }
    ensures ok { IfOk result (λ verdict. IsToldSo net.now.files budget number question.now verdict (L.taken log.old) (L.taken log.new)
        (map (λ b. told b) deciders.new.items)) }
    ensures cut { OnErr result (IsUnfinished net.now.files budget question.now (L.taken log.old) (L.taken log.new)) }
    ensures fault { OnLogFault result (Rose (L.faults log.old) (L.faults log.new)) }
    ensures stays { UnlessLogFault result (L.faults log.new ≡ L.faults log.old) }
    ensures deciders { length deciders.new.items ≡ length deciders.old.items }
{
    let Searched { formula, outcome } = search(alloc, net, question, budget, log, deciders)?;
    let verdict = verdict_of(alloc, net, number, question, &formula, outcome)?;
    Ok(verdict)
}
