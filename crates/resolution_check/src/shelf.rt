//! The numbers that were given, and the clauses that are held.

ghost use Rattle.std.specs.Prelude.{◌≡◌, ◌+◌, ◌^◌, ◌<◌, OnOk, OnErr};
ghost use Rattle.std.specs.Option.{option_copied};
ghost use Rattle.resolution_check.specs.declared.log.Entry.{Entry};

use crate::log::{Bad, Clause};
use std::alloc::Global;
use std::collections::BTreeMap;
use std::marker::Model;

/// The greatest number that the front takes.
const LAST: u64 = 9_223_372_036_854_775_808;

/// The clauses that are held by their numbers. The numbers from 1 up to `through` were given in order,
/// and take no memory once their clauses are deleted; other numbers stay in `loose`.
#[derive(Drop)]
pub(crate) struct Shelf {
    through: u64,
    front: BTreeMap<u64, Clause>,
    loose: BTreeMap<u64, Option<Clause>>,
}

impl Model for Shelf {
    ghost use Rattle.std.specs.Prelude.{◌≤◌, ◌^◌};
    ghost use Rattle.resolution_check.specs.Known.{Shelved};

    ghost Value = { Shelved };

    ghost view = { λ s. record { through = s.through; front = s.front.entries; loose = s.loose.entries } };

    ghost invariant = { λ s. s.through ≤ 2 ^ 63 };
}

impl Shelf {
    ghost use Rattle.resolution_check.specs.Known.{IsJudged, open_fault, given_on, held_on, count_of, Shelves};
    ghost use Rattle.std.specs.Prelude.{ℕ, false, None};

    /// The empty shelf, which takes no memory.
    pub(crate) fn new(alloc: Global) -> Shelf
        ensures given { (id : ℕ) → given_on result id ≡ false }
        ensures held { (id : ℕ) → held_on result id ≡ None }
        ensures count { count_of result ≡ 0 }
    {
        Shelf {
            through: 0,
            front: BTreeMap::new(alloc),
            loose: BTreeMap::new(alloc),
        }
    }

    /// Whether a number was given.
    pub(crate) fn is_given(&self, id: u64) -> bool
        ensures { result ≡ given_on self.now id }
    {
        (0 < id && id <= self.through) || self.loose.contains_key(&id)
    }

    /// The clause that is held under a number.
    pub(crate) fn find(&self, id: u64) -> Option<&Clause>
        ensures { option_copied result ≡ held_on self.now id }
    {
        if 0 < id && id <= self.through {
            self.front.get(&id)
        } else {
            self.loose.get(&id)?.as_ref()
        }
    }

    /// Puts a clause on the shelf under a new number.
    pub(crate) fn put(&mut self, id: u64, clause: Clause) -> Result<(), Bad>
        ensures judged { IsJudged result (open_fault self.old (Entry.Input id clause)) }
        ensures ok { OnOk result (Shelves self.old self.new (Entry.Input id clause)) }
        ensures longer { OnOk result (count_of self.new ≡ count_of self.old + 1) }
        ensures small { OnOk result (count_of self.new < 2 ^ 64) }
        ensures unchanged { OnErr result (self.new ≡ self.old) }
    {
        if self.is_given(id) {
            return Err(Bad::UsedId { id });
        }
        if id == self.through + 1 && id <= LAST {
            self.front.insert(id, clause)?;
            self.through = id;
        } else {
            self.loose.insert(id, Some(clause))?;
        }
        let _count = self.loose.len();
        Ok(())
    }

    /// Takes the clause of a number off the shelf. The number stays given.
    pub(crate) fn delete(&mut self, id: u64) -> Result<(), Bad>
        ensures judged { IsJudged result (open_fault self.old (Entry.Delete id)) }
        ensures ok { OnOk result (Shelves self.old self.new (Entry.Delete id)) }
        ensures same_count { count_of self.new ≡ count_of self.old }
        ensures unchanged { OnErr result (self.new ≡ self.old) }
    {
        if self.find(id).is_none() {
            return Err(Bad::UnknownId { id });
        }
        if 0 < id && id <= self.through {
            let _clause = self.front.remove(&id);
        } else if let Some(place) = self.loose.get_mut(&id) {
            *place = None;
        }
        Ok(())
    }
}
