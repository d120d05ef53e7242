//! What the definitions of this crate say, in the words of logic. Each function only carries its law.

ghost use Rattle.std.specs.Prelude.{◌≡◌, ◌↔◌, ◌+◌, ◌*◌, ◌≤◌, ◌||◌, ◌&&◌, ◌++◌, ◌∷◌, [], not, true, false, List, ℕ, Option, Some, None, Ok, length, map, Bool};
ghost use Rattle.std.specs.List.{list_any, slice_split, AllByRecursion};
ghost use Rattle.resolution_check.specs.declared.log.Lit.{Lit};
ghost use Rattle.resolution_check.specs.declared.log.Clause.{Clause};
ghost use Rattle.resolution_check.specs.declared.log.Entry.{Entry};
ghost use Rattle.resolution_check.specs.Clauses.{opposite, is_same, has, resolvent, IsPivot, IsSameSet};
ghost use Rattle.resolution_check.specs.Entries.{addition_count, clause_held, resolved, resolved_next, fault_of, inputs, KeepsGood, Refutes, IsUnsatisfiable};
ghost use Rattle.resolution_check.specs.Earned.{IsEarnedAddition, IsSpaced, gives_input, ends_deleting, run_count};
ghost use Rattle.resolution_check.specs.Text.{text_of, log_text, is_line_feed, HasText};

/// Two clauses have a resolvent exactly where one literal of the first has its negation in the second.
/// It has the other literals of the first, and those of the second but the negation.
pub fn resolvent_law()
    ensures there { (c d : List Lit) (p : Lit) → IsPivot c d p → (s : List Lit) × (resolvent c d ≡ Some s) }
    ensures only { (c d s : List Lit) → resolvent c d ≡ Some s → (p : Lit) × IsPivot c d p × ((l : Lit) →
        has s l ≡ ((not (is_same p l) && has c l) || (not (is_same (opposite p) l) && has d l))) }
{}

/// Resolvents depend on the clauses as sets.
pub fn same_set_law()
    ensures { (a b c d s : List Lit) → IsSameSet a c → IsSameSet b d → resolvent a b ≡ Some s →
        (t : List Lit) × (resolvent c d ≡ Some t) × IsSameSet s t }
{}

/// A chain with one number more resolves the last resolvent with the clause of that number.
pub fn chain_law()
    ensures { (held : ℕ → Option Clause) (chain : List ℕ) (id : ℕ) (r : List Lit) → resolved held chain ≡ Ok r →
        resolved held (chain ++ id ∷ []) ≡ resolved_next held r (length chain) id }
{}

/// There is a cause to refuse an entry exactly where the list would not stay good.
pub fn cause_law()
    ensures { (es : List Entry) (e : Entry) → (fault_of es e ≡ None) ↔ KeepsGood es e }
{}

/// A list that refutes has inputs that no assignment satisfies.
pub fn refutation_law()
    ensures { (es : List Entry) → Refutes es → IsUnsatisfiable (inputs es) }
{}

/// An earned addition differs from each clause that is then held.
pub fn earned_law()
    ensures { (es : List Entry) (id : ℕ) (clause : Clause) (chain : List ℕ) → IsEarnedAddition es id clause chain →
        (other : ℕ) (c : Clause) → clause_held es other ≡ Some c → ¬ (IsSameSet c.lits clause.lits) }
{}

/// In a spaced list no input is deleted, and a deletion that begins the r-th run of adjacent deletions has
/// at least 1,000 r (r + 1) additions before it.
pub fn spaced_law()
    ensures inputs { (es : List Entry) (id : ℕ) → IsSpaced (es ++ Entry.Delete id ∷ []) → list_any (gives_input id) es ≡ false }
    ensures runs { (es : List Entry) (id : ℕ) → IsSpaced (es ++ Entry.Delete id ∷ []) → ends_deleting false es ≡ false →
        1000 * (run_count false es + 1) * (run_count false es + 2) ≤ addition_count es }
{}

/// No two entries have one text.
pub fn text_law()
    ensures { (d e : Entry) → HasText d → HasText e → text_of d ≡ text_of e → d ≡ e }
{}

/// The lines of a log, cut at the line feeds, are its entries' texts, so that each is read back; and the bytes fix the
/// entries.
pub fn log_law()
    ensures lines { (es : List Entry) → AllByRecursion HasText es →
        slice_split is_line_feed (log_text es) ≡ map text_of es ++ [] ∷ [] }
    ensures fixed { (ds es : List Entry) → AllByRecursion HasText ds → AllByRecursion HasText es →
        log_text ds ≡ log_text es → ds ≡ es }
{}
