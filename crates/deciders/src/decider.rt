//! What a search asks of a decider.

ghost use Rattle.std.specs.Prelude.{◌≡◌, ℕ, [], List, Option, IfSome};
ghost use Rattle.deciders.specs.Told.{TellsBump};

use std::alloc::{AllocError, Global};

/// What a search knows of a variable.
#[derive(Clone, Copy)]
pub enum Value {
    Free,
    False,
    True,
}

/// The variable to decide next, and whether it is to be true. One that is not free, and one that is no variable of the
/// search, are no choice.
#[derive(Clone, Copy)]
pub struct Choice {
    pub var: u64,
    pub positive: bool,
}

/// Chooses the variable that is decided next.
pub trait Decider: Drop {
    /// The variables bumped since `prepare`, in their order, where that is told.
    ghost told: { Self → Option (List ℕ) };

    /// Makes ready for a search over the variables below `vars`. All memory is taken here.
    fn prepare(&mut self, alloc: Global, vars: u64) -> Result<(), AllocError>
        ensures { IfSome (told self.new) (λ bumps. bumps ≡ []) };

    /// Tells that the variable stands in a clause that was just learnt.
    fn bump(&mut self, var: u64)
        ensures { TellsBump (told self.old) (told self.new) var };

    /// Tells that all variables of a learnt clause were bumped, and that the search goes back.
    fn decay(&mut self)
        ensures { told self.new ≡ told self.old };

    /// Chooses, where the variables have these values.
    fn pick(&mut self, values: &[Value]) -> Choice
        ensures { told self.new ≡ told self.old };

    /// The variables bumped since `prepare`, in their order, where that is told.
    fn bumps(&self) -> &[u64]
        ensures { IfSome (told self.now) (λ bumps. result.now ≡ bumps) };
}

/// Of so many equal parts of all variables the first has those that settle the others in most formulas of questions: the
/// packet and the failed links.
pub(crate) const PARTS: u64 = 256;

/// The value of a variable. One past the end is free.
pub(crate) fn value_at(values: &[Value], var: u64) -> Value {
    values.get(var as usize).copied().unwrap_or(Value::Free)
}
