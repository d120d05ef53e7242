//! Whether a search takes a clause.

ghost use Rattle.std.specs.Prelude.{◌≡◌, not, nat_lt, IfOk};
ghost use Rattle.std.specs.List.{list_all};
ghost use Rattle.cnf_blaster.specs.Proper.{is_fit};
ghost use Rattle.resolution_check.specs.Earned.{vars_differ};
ghost use Rattle.resolution_check.specs.Entries.{is_empty};

use resolution_check::Lit;
use std::alloc::{AllocError, Global};
use std::collections::BTreeSet;

/// Whether no variable stands twice among the literals.
fn are_distinct(alloc: Global, lits: &[Lit]) -> Result<bool, AllocError>
    ensures { IfOk result (λ distinct. distinct ≡ vars_differ lits.now) }
{
    let mut seen = BTreeSet::new(alloc);
    let mut distinct = true;
    for i in (0..lits.len()).rev() {
        let new = seen.insert(lits[i].var)?;
        distinct = new && distinct;
    }
    Ok(distinct)
}

/// Whether all variables of the literals are below `vars`.
fn are_below(lits: &[Lit], vars: u64) -> bool
    ensures { result ≡ list_all (λ l. nat_lt l.var vars) lits.now }
{
    lits.iter().all(|lit| lit.var < vars)
}

/// Whether there are literals.
fn is_filled(lits: &[Lit]) -> bool
    ensures { result ≡ not (is_empty lits.now) }
{
    !lits.is_empty()
}

/// Whether a search takes the clause of these literals.
pub(crate) fn is_fit_clause(alloc: Global, lits: &[Lit], vars: u64) -> Result<bool, AllocError>
    ensures { IfOk result (λ fit. fit ≡ is_fit vars lits.now) }
{
    Ok(is_filled(lits) && are_below(lits, vars) && are_distinct(alloc, lits)?)
}
