//! What follows of a search's log, in the words of logic. Each function only carries its law.

ghost use Rattle.resolution_check.specs.Clauses.{is_below};
ghost use Rattle.std.specs.Prelude.{◌≡◌, ◌+◌, ◌*◌, ◌≤◌, ◌^◌, true, false, List, ℕ};
ghost use Rattle.std.specs.List.{list_all, list_any};
ghost use Rattle.resolution_check.specs.declared.log.Clause.{Clause};
ghost use Rattle.resolution_check.specs.declared.log.Entry.{Entry};
ghost use Rattle.resolution_check.specs.Entries.{addition_count};
ghost use Rattle.resolution_check.specs.Earned.{is_deletion};
ghost use Rattle.resolution_check.specs.Text.{log_text};
ghost use Rattle.cdcl_search.specs.Outcomes.{IsSearchLog};

/// The bytes of a search's log fix its entries.
pub fn log_law()
    ensures { (clauses others : List Clause) (ds es : List Entry) → IsSearchLog clauses ds → IsSearchLog others es →
        log_text ds ≡ log_text es → ds ≡ es }
{}

/// A search that deletes nothing logs at most 3^V additions over V variables, since each is earned; and one whose deletions
/// are spaced at most 3^V (3^V + 1): so a budget above that is never used up.
pub fn bound_law()
    ensures undeleted { (vars : ℕ) (clauses : List Clause) (es : List Entry) → list_all (λ c. is_below vars c.lits) clauses ≡ true
        → IsSearchLog clauses es → list_any is_deletion es ≡ false → addition_count es ≤ 3 ^ vars }
    ensures spaced { (vars : ℕ) (clauses : List Clause) (es : List Entry) → list_all (λ c. is_below vars c.lits) clauses ≡ true
        → IsSearchLog clauses es → addition_count es ≤ 3 ^ vars * (3 ^ vars + 1) }
{}
