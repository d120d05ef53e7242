//! Laws about values of the variables of two formulas side by side. Each function only carries its law.

ghost use Rattle.std.specs.Prelude.{◌≡◌, ◌++◌, Bool, List as ListOf, length};
ghost use Rattle.term_store.specs.Terms.{Store};
ghost use Rattle.terms_beside.specs.Beside.{first_part, second_part};

/// Of values for the variables of the first store, and then for those of the second, they are the parts.
pub fn parts_law()
    ensures first { (one : Store) (xs ys : ListOf Bool) → length xs ≡ one.vars → first_part one (xs ++ ys) ≡ xs }
    ensures second { (one other : Store) (xs ys : ListOf Bool) → length xs ≡ one.vars → length ys ≡ other.vars →
        second_part one other (xs ++ ys) ≡ ys }
{}
