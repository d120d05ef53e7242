//! The law of verdicts and quiet states. The function only carries it.

ghost use Rattle.std.specs.Prelude.{List as ListOf};
ghost use Rattle.ios_ast.specs.declared.file.File.{File as FileOf};
ghost use Rattle.question_lang.specs.declared.question.Question.{Question as QuestionOf};
ghost use Rattle.question_lang.specs.Breaking.{IsUnbroken};
ghost use Rattle.machine_verdicts.specs.Covered.{CoversQuietStates};

/// Where a question holds of a network, no quiet state of a machine of that network breaks it: for no destination of the
/// question, after no list of events, with no more failed links than the question allows, and for no packet of its set.
pub fn covered_law()
    ensures { (files : ListOf FileOf) (question : QuestionOf) → IsUnbroken files question →
        CoversQuietStates files question }
{}
