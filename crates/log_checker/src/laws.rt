//! What the definitions of this crate say, in the words of logic. Each function only carries its law.

ghost use Rattle.std.specs.Prelude.{ℕ, List};
ghost use Rattle.resolution_check.specs.declared.log.Clause.{Clause};
ghost use Rattle.resolution_check.specs.declared.log.Entry.{Entry};
ghost use Rattle.resolution_check.specs.Entries.{IsUnsatisfiable};
ghost use Rattle.log_checker.specs.declared.cause.Cause.{Cause};
ghost use Rattle.log_checker.specs.Sections.{IsRefuting, IsShownBefore, IsWrongAfter};

/// No assignment satisfies clauses that a section refutes.
#[tactic(auto, using(crate::proofs::Refuting::refuted_clauses))]
pub fn refuting_law()
    ensures { (clauses : List Clause) (entries : List Entry) → IsRefuting clauses entries → IsUnsatisfiable clauses }
{}

/// A section that is right to its end is not wrong, at no line and for no cause: what `check_section` answers, no other
/// answer can be in its place.
pub fn exact_law()
    ensures { (name : List ℕ) (clauses : List Clause) (bytes rest : List ℕ) (lines others : ℕ) (cause : Cause) →
        IsShownBefore name clauses bytes lines rest → IsWrongAfter name clauses bytes others cause → ⊥ }
{}
