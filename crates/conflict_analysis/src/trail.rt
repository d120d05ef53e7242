//! The trail of a search.

ghost use Rattle.std.specs.Prelude.{◌≡◌, ◌<◌, Some, length, slice_get};

use clause_arena::ClauseRef;
use resolution_check::Lit;

/// The literals that a search made true, in their order, with their levels and the clauses that forced them. A literal
/// has no reason where it was chosen.
#[derive(Drop)]
pub struct Trail {
    pub lits: Vec<Lit>,
    pub levels: Vec<u64>,
    pub reasons: Vec<Option<ClauseRef>>,
}

/// The literal of a step.
pub(crate) fn literal_at(trail: &Trail, at: usize) -> Lit
    requires { at < length trail.now.lits.items }
    ensures { slice_get trail.now.lits.items at ≡ Some result }
{
    trail.lits[at]
}

/// The reason of a step, if it has one.
pub(crate) fn reason_at(trail: &Trail, at: usize) -> Option<ClauseRef>
    requires { at < length trail.now.reasons.items }
    ensures { slice_get trail.now.reasons.items at ≡ Some result }
{
    trail.reasons[at]
}

/// The level of a step.
pub(crate) fn level_at(trail: &Trail, at: usize) -> u64
    requires { at < length trail.now.levels.items }
    ensures { slice_get trail.now.levels.items at ≡ Some result }
{
    trail.levels[at]
}
