//! Deciders, and whose turn it is.

ghost use Rattle.std.specs.Prelude.{◌≡◌, [], length, map, IfSome, OnOk};
ghost use Rattle.deciders.specs.Told.{TellsBump};
ghost use Rattle.cdcl_search.specs.Turns.{AreUntold, IsTurn, TellsAt, TellsMore, vars_of};

use deciders::Decider;
use resolution_check::Lit;
use std::alloc::{AllocError, Global};
use watched_search::ROUND;

/// Makes a decider ready.
fn prepare(decider: &mut Box<dyn Decider>, alloc: Global, vars: u64) -> Result<(), AllocError>
    ensures { IfSome (told decider.new) (λ bumps. bumps ≡ []) }
{
    decider.prepare(alloc, vars)
}

/// Makes all deciders ready for a search over the variables below `vars`.
pub(crate) fn prepare_all(
    deciders: &mut Vec<Box<dyn Decider>>,
    alloc: Global,
    vars: u64,
) -> Result<(), AllocError>
    ensures untold { OnOk result (AreUntold (map (λ b. told b) deciders.new.items)) }
    ensures deciders { length deciders.new.items ≡ length deciders.old.items }
{
    for at in 0..deciders.len() {
        prepare(&mut deciders[at], alloc, vars)?;
    }
    Ok(())
}

/// Whose turn it is after so many additions: the place among so many deciders.
pub(crate) fn turn_of(count: usize, added: u64) -> usize
    ensures { IsTurn count added result }
{
    if count == 0 {
        return 0;
    }
    (added / ROUND % count as u64) as usize
}

/// Tells a decider of a variable.
fn bump(decider: &mut Box<dyn Decider>, var: u64)
    ensures { TellsBump (told decider.old) (told decider.new) var }
{
    decider.bump(var);
}

/// Tells a decider that it was told of all variables of an addition.
fn decay(decider: &mut Box<dyn Decider>)
    ensures { told decider.new ≡ told decider.old }
{
    decider.decay();
}

/// Tells a decider of an addition: its variables in their order, and that it was one.
fn tell(decider: &mut Box<dyn Decider>, lits: &[Lit])
    ensures { TellsMore (told decider.old) (told decider.new) (vars_of lits.now) }
{
    for lit in lits {
        bump(decider, lit.var);
    }
    decay(decider);
}

/// Tells the decider whose turn it is of an addition.
pub(crate) fn tell_at(deciders: &mut Vec<Box<dyn Decider>>, turn: usize, lits: &[Lit])
    ensures tells { TellsAt (map (λ b. told b) deciders.old.items) (map (λ b. told b) deciders.new.items) turn (vars_of lits.now) }
    ensures deciders { length deciders.new.items ≡ length deciders.old.items }
{
    if turn < deciders.len() {
        tell(&mut deciders[turn], lits);
    }
}
