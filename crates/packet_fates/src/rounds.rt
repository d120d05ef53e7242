//! Whether a walk comes back to where it stood.

ghost use Rattle.std.specs.Prelude.{◌≡◌, ◌<◌, ◌^◌, true, false, IfOk, length};
ghost use Rattle.walk_def.specs.Marks.{known};
ghost use Rattle.packet_fates.specs.Reaching as reaching;
ghost use Rattle.packet_fates.specs.Rounds as rounds;

use crate::reaching::reached_from;
use mw_text::List;
use question_lang::Hop;
use std::alloc::{AllocError, Global};
use walk_def::marks::is_known;

// Whether hops lead from where this one does to the router.
fn comes_back_by(
    alloc: Global,
    all: &[List<Hop>],
    router: u32,
    hop: &Hop,
) -> Result<bool, AllocError>
    requires few { length all.now < 2 ^ 32 }
    requires inside { reaching.AreInside all.now }
    requires within { rounds.IsInside all.now hop.now }
    ensures yes { IfOk result (λ back. back ≡ true → rounds.ComesBackBy (reaching.hops_at all.now) router hop.now) }
    ensures no { IfOk result (λ back. back ≡ false → rounds.ComesBackBy (reaching.hops_at all.now) router hop.now → ⊥) }
{
    match hop {
        Hop::Ends(_) => Ok(false),
        Hop::To(i) => {
            let marks = reached_from(alloc, all, i.router)?;
            Ok(is_known(marks.as_slice(), router))
        }
    }
}

// Whether one or more hops lead from the router, which has these, back to it.
fn is_round(alloc: Global, all: &[List<Hop>], router: u32, own: &[Hop]) -> Result<bool, AllocError>
    requires few { length all.now < 2 ^ 32 }
    requires inside { reaching.AreInside all.now }
    requires own { own.now ≡ reaching.hops_at all.now router }
    ensures yes { IfOk result (λ is. is ≡ true → reaching.IsRound (reaching.hops_at all.now) router) }
    ensures no { IfOk result (λ is. is ≡ false → reaching.IsRound (reaching.hops_at all.now) router → ⊥) }
{
    for hop in own {
        if comes_back_by(alloc, all, router, hop)? {
            return Ok(true);
        }
    }
    Ok(false)
}

/// Whether a marked router is one from which hops lead back to it.
pub fn some_round(alloc: Global, all: &[List<Hop>], marks: &[bool]) -> Result<bool, AllocError>
    requires few { length all.now < 2 ^ 32 }
    requires inside { reaching.AreInside all.now }
    ensures yes { IfOk result (λ some. some ≡ true → rounds.SomeRound all.now marks.now) }
    ensures no { IfOk result (λ some. some ≡ false → rounds.SomeRound all.now marks.now → ⊥) }
{
    for (at, own) in all.iter().enumerate() {
        let router = at as u32;
        if is_known(marks, router) && is_round(alloc, all, router, own.as_slice())? {
            return Ok(true);
        }
    }
    Ok(false)
}
