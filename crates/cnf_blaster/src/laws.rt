//! What the clauses say. Each function only carries its law.

ghost use Rattle.std.specs.Prelude.{◌≡◌, ℕ, Bool, true, List, ◌↔◌};
ghost use Rattle.cnf_blaster.specs.Cnf.{clauses_of, reached, variable_of, gate_clauses, all_kept};
ghost use Rattle.cnf_blaster.specs.Laws.{has_value, IsTrueUnder};
ghost use Rattle.resolution_check.specs.Entries.{satisfies};
ghost use Rattle.term_store.specs.declared.Node.{Node};
ghost use Rattle.term_store.specs.declared.NodeId.{NodeId};

/// An assignment satisfies a node's clauses exactly where the node's variable has the value of its kind.
pub fn gate_law()
    ensures { (v : ℕ → Bool) (var : ℕ → ℕ) (g : ℕ) (n : Node) →
        satisfies v (all_kept (gate_clauses var g n)) ≡ has_value v var g n }
{}

/// An assignment satisfies the clauses exactly where each reached node's variable has the value of its kind and each
/// root's variable is true.
pub fn clauses_law()
    ensures { (v : ℕ → Bool) (nodes : List Node) (roots : List NodeId) → (satisfies v (clauses_of nodes roots) ≡ true)
        ↔ IsTrueUnder v (reached nodes roots) (variable_of (reached nodes roots)) nodes roots }
{}
