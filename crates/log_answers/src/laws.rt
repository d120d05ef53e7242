//! What the definitions of answers about logs say, in the words of logic. Each function only carries its law.

ghost use Rattle.std.specs.Prelude.{ℕ, List};
ghost use Rattle.log_checker.specs.declared.cause.Cause.{Cause};
ghost use Rattle.question_lang.specs.declared.question.Question.{Question};
ghost use Rattle.resolution_check.specs.declared.log.Clause.{Clause};
ghost use Rattle.log_answers.specs.Answers.{AreShown, AreWrongAfter};

/// A log that is the sections of the questions is not wrong, after no line and for no cause: by the same clauses the two
/// answers about a log exclude each other.
pub fn exact_law()
    ensures { (questions : List Question) (made : List (List Clause)) (log : List ℕ) (lines : ℕ) (cause : Cause) →
        AreShown questions made log → AreWrongAfter questions made log lines cause → ⊥ }
{}
