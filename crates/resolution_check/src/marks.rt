ghost use Rattle.std.specs.Prelude.{◌≡◌, ◌↔◌, ◌||◌, ◌&&◌, not, false, IsTrue, OnOk};
ghost use Rattle.resolution_check.specs.declared.log.Lit.{Lit};
ghost use Rattle.resolution_check.specs.Clauses.{is_same};
ghost use Rattle.resolution_check.specs.Marked.{marked};

use crate::log::Lit;
use std::alloc::{AllocError, Global};
use std::collections::BTreeSet;

/// A set of literals: the variables of each sign.
#[derive(Drop)]
pub(crate) struct Marks {
    positive: BTreeSet<u64>,
    negative: BTreeSet<u64>,
}

impl Marks {
    /// The empty set, which takes no memory.
    pub(crate) fn new(alloc: Global) -> Marks
        ensures { (l : Lit) → marked result l ≡ false }
    {
        Marks {
            positive: BTreeSet::new(alloc),
            negative: BTreeSet::new(alloc),
        }
    }

    /// Whether a literal is in the set.
    pub(crate) fn has(&self, lit: Lit) -> bool
        ensures { result ≡ marked self.now lit }
    {
        if lit.negated {
            self.negative.contains(&lit.var)
        } else {
            self.positive.contains(&lit.var)
        }
    }

    /// Whether the set is empty.
    pub(crate) fn is_empty(&self) -> bool
        ensures { IsTrue result ↔ ((l : Lit) → marked self.now l ≡ false) }
    {
        self.positive.is_empty() && self.negative.is_empty()
    }

    /// Puts a literal in.
    pub(crate) fn mark(&mut self, lit: Lit) -> Result<(), AllocError>
        ensures { OnOk result ((l : Lit) → marked self.new l ≡ (is_same lit l || marked self.old l)) }
    {
        if lit.negated {
            self.negative.insert(lit.var)?;
        } else {
            self.positive.insert(lit.var)?;
        }
        Ok(())
    }

    /// Takes a literal out.
    pub(crate) fn unmark(&mut self, lit: Lit)
        ensures { (l : Lit) → marked self.new l ≡ (not (is_same lit l) && marked self.old l) }
    {
        let _was_there = if lit.negated {
            self.negative.remove(&lit.var)
        } else {
            self.positive.remove(&lit.var)
        };
    }
}
