//! The question of the counterexamples to an ask about two networks.

ghost use Rattle.std.specs.Prelude.{◌≡◌, ◌∷◌, [], IfOk};
ghost use Rattle.routings_beside.specs.Pairs.{question_of};

use mw_text::List;
use question_lang::Question;
use routings_beside::question::question_for;
use same_asks::Same;
use std::alloc::{AllocError, Global};

/// The question whether there is no stable routing at all, of the ask's packets and under its name, alone.
pub fn questions_for(alloc: Global, ask: &Same) -> Result<List<Question>, AllocError>
    ensures { IfOk result (λ questions. questions ≡ question_of ask.now ∷ []) }
{
    let mut questions = List::new(alloc);
    let question = question_for(alloc, ask)?;
    questions.items.push(question)?;
    Ok(questions)
}
