//! Two formulas side by side in one store, by the values of their variables.
#![tactic(auto)]

ghost use Rattle.std.specs.Prelude.{◌≡◌, ◌+◌, ◌≤◌, Bool, IfOk, List as ListOf, OnOk, length};
ghost use Rattle.term_arith.specs.Bits.{ids_end};
ghost use Rattle.term_store.specs.Reading.{Gives, Grows};
ghost use Rattle.term_store.specs.Terms.{Agrees, size};
ghost use Rattle.terms_beside.specs.Beside.{ReadBeside, first_part, second_part, values_beside};

pub mod laws;

use grafted_terms::graft;
use mw_text::List;
use std::alloc::{AllocError, Global};
use term_store::{NodeId, Terms};

/// Puts the terms of a second store beside those of a first one, over variables of their own, and answers where they
/// stand, by their numbers. Under values of all variables the terms of the first store have their values under the
/// first of these, as many as it has variables, and those of the second store have theirs under the next ones
/// (`values`); and under given values of the variables of each, put one after another, the terms have their values
/// under those of their own (`given`). Err is want of memory.
pub fn put_beside(alloc: Global, into: &mut Terms, from: &Terms) -> Result<List<NodeId>, AllocError>
    ensures grows { Grows into.old into.new }
    ensures vars { OnOk result (into.new.vars ≡ into.old.vars + from.now.vars) }
    ensures within { IfOk result (λ places. ids_end places ≤ size into.new) }
    ensures length { IfOk result (λ places. length places ≡ size from.now) }
    ensures values { Gives into.new result (λ w places. (valuation : ListOf Bool) → Agrees w valuation into.new.vars →
        ReadBeside into.old from.now places (first_part into.old valuation)
        (second_part into.old from.now valuation) w) }
    ensures given { Gives into.new result (λ w places. (xs ys : ListOf Bool) →
        Agrees w (values_beside into.old from.now xs ys) into.new.vars → ReadBeside into.old from.now places xs ys w) }
{
    into.reading_has_values();
    from.valuation_reads();
    from.reading_has_values();
    let places = graft(alloc, into, from)?;
    Ok(places)
}
