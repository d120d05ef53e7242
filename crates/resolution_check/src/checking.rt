//! The checker: it accepts an entry exactly where the list of entries stays good.

ghost use Rattle.std.specs.Prelude.{◌≡◌, ◌≢◌, ◌↔◌, ◌⊎◌, ◌+◌, ◌^◌, ◌<◌, ◌++◌, ◌∷◌, [], true, List, Some, IsTrue, OnOk, OnErr, IfErr, is_some, length};
ghost use Rattle.resolution_check.specs.declared.log.Entry.{Entry};
ghost use Rattle.resolution_check.specs.Entries.{addition_fault};
ghost use Rattle.resolution_check.specs.Known.{IsJudged, given_on, held_on};

use crate::chain::{is_covered, resolve_chain};
use crate::log::{Bad, Entry, Lit};
use crate::shelf::Shelf;
use std::alloc::Global;
use std::marker::Model;

/// Checks the entries of a log one after another. It needs no trust in whoever made the log.
#[derive(Drop)]
pub struct Checker {
    alloc: Global,
    shelf: Shelf,
    added: u64,
    refuted: bool,
    ended: bool,
}

impl Model for Checker {
    ghost use Rattle.std.specs.Prelude.{◌≤◌};
    ghost use Rattle.resolution_check.specs.Known.{Known, count_of};

    ghost Value = { Known };

    ghost view = { λ c. record { shelf = c.shelf; added = c.added; refuted = c.refuted; ended = c.ended } };

    ghost invariant = { λ c. c.added ≤ count_of c.shelf };
}

impl Checker {
    ghost use Rattle.resolution_check.specs.Entries.{fault_of, IsGood, adds_empty, addition_count, inputs, IsUnsatisfiable};
    ghost use Rattle.resolution_check.specs.Known.{HasRead, Advances, fault_in, IsJudged};

    /// A checker that has read nothing. It takes no memory.
    pub fn new(alloc: Global) -> Checker
        ensures { HasRead result [] }
    {
        Checker {
            alloc,
            shelf: Shelf::new(alloc),
            added: 0,
            refuted: false,
            ended: false,
        }
    }

    /// Reads the next entry.
    ///
    /// # Errors
    /// The first cause to refuse the entry, in the order: the log has ended, the number was given
    /// before, the chain from its front, the claimed clause. Or memory was refused. The checker is
    /// then unchanged.
    pub fn step(&mut self, entry: Entry) -> Result<(), Bad>
        ensures ok { OnOk result ((es : List Entry) → HasRead self.old es →
            HasRead self.new (es ++ entry ∷ [])) }
        ensures refused { IfErr result (λ bad. (bad ≡ Bad.Memory) ⊎
            ((es : List Entry) → HasRead self.old es → fault_of es entry ≡ Some bad)) }
        ensures exact { (es : List Entry) → HasRead self.old es → IsGood (es ++ entry ∷ []) →
            IfErr result (λ bad. bad ≡ Bad.Memory) }
        ensures unchanged { OnErr result (self.new ≡ self.old) }
    {
        self.accept(entry)
    }

    /// Reads the next entry: what it does to what the checker knows.
    fn accept(&mut self, entry: Entry) -> Result<(), Bad>
        ensures judged { IsJudged result (fault_in self.old entry) }
        ensures ok { OnOk result (Advances self.old self.new entry) }
        ensures unchanged { OnErr result (self.new ≡ self.old) }
    {
        if self.ended {
            return Err(Bad::AfterEnd);
        }
        match entry {
            Entry::Input { id, clause } => self.shelf.put(id, clause),
            Entry::Add { id, clause, chain } => {
                judge(
                    self.alloc,
                    &self.shelf,
                    id,
                    clause.lits.as_slice(),
                    chain.as_slice(),
                )?;
                let is_empty = clause.lits.as_slice().is_empty();
                self.shelf.put(id, clause)?;
                self.added += 1;
                self.refuted = self.refuted || is_empty;
                Ok(())
            }
            Entry::Delete { id } => self.shelf.delete(id),
            Entry::End => {
                self.ended = true;
                Ok(())
            }
        }
    }

    /// Whether the empty clause was added.
    pub fn refuted(&self) -> bool
        ensures exact { (es : List Entry) → HasRead self.now es → (IsTrue result ↔ (adds_empty es ≡ true)) }
        ensures unsatisfiable { (es : List Entry) → HasRead self.now es → IsTrue result →
            IsUnsatisfiable (inputs es) }
    {
        self.refuted
    }

    /// How many additions were accepted.
    pub fn added(&self) -> u64
        ensures { (es : List Entry) → HasRead self.now es → result ≡ addition_count es }
    {
        self.added
    }
}

/// Whether an addition may follow: its number is new, and the chain's last resolvent is inside the
/// claimed clause.
fn judge(alloc: Global, shelf: &Shelf, id: u64, clause: &[Lit], chain: &[u64]) -> Result<(), Bad>
    ensures { IsJudged result (addition_fault (given_on shelf.now) (held_on shelf.now) id clause.now chain.now) }
{
    if shelf.is_given(id) {
        return Err(Bad::UsedId { id });
    }
    let marks = resolve_chain(alloc, shelf, chain)?;
    if is_covered(marks, clause) {
        Ok(())
    } else {
        Err(Bad::NotCovered)
    }
}
