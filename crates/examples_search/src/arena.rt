//! The arena's worked example: three clauses over three variables, a deletion and a compaction.

ghost use Rattle.std.specs.Prelude.{◌≡◌};

use crate::printed::number_in;
use clause_arena::Arena;
use resolution_check::Lit;
use std::alloc::{AllocError, Global};
use std::io;

fn literal(var: u64, negated: bool) -> Lit
    ensures { result.var ≡ var }
{
    Lit { var, negated }
}

/// The number of the third clause after the second was deleted and the others were moved together, where they are
/// numbered from this one on.
fn third_number(alloc: Global, first: u32) -> Result<u64, AllocError> {
    let number = u64::from(first);
    let mut arena = Arena::new(alloc, 3)?;
    arena.add(number, &[literal(0, false), literal(1, false)])?;
    let second = arena.add(number + 1, &[literal(0, true), literal(2, false)])?;
    let third = arena.add(
        number + 2,
        &[literal(1, true), literal(2, true), literal(0, false)],
    )?;
    arena.delete(second);
    let mut reasons = [Some(third), None];
    arena.compact(&mut reasons);
    let reason = reasons[0];
    match reason {
        Some(clause) => Ok(arena.id(clause)),
        None => Ok(0),
    }
}

/// Works the example with clauses that are numbered from this number on, and prints the number that the reason's clause
/// has in the end.
pub fn show(rt: &(impl Print + AllocGlobal), first: &str) -> io::Result<()> {
    let first = u32::try_from(number_in(first)).unwrap_or(0);
    let number = third_number(rt.alloc(), first)?;
    println!(rt; "the reason is clause {}", number)
}
