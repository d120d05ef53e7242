//! Reads a questions file.

ghost use Rattle.std.specs.Prelude.{◌≡◌, ◌≢◌, ◌-◌, ◌<◌, ◌≤◌, ◌^◌, ◌++◌, ◌∷◌, All, IfOk, IfErr, Ok, Err, [], length};
ghost use Rattle.mw_text.specs.Reading.{in_turn};
ghost use Rattle.question_lang.specs.Asking as asking;
ghost use Rattle.question_lang.specs.Known.{AreKnown, IsKnown};

use crate::asking::read_question;
use crate::question::Question;
use ios_policy_reader::{Cause, Refused};
use mw_text::{Line, List, lines_of, says_nothing};
use net_model::Net;
use std::alloc::{AllocError, Global};

/// How many questions a file has at most.
pub const MOST_QUESTIONS: usize = 64;

const MEMORY: Refused = Refused {
    line: 0,
    cause: Cause::Memory,
};

/// The question of a line, and of a refusal its line.
fn ask_at(
    alloc: Global,
    net: &Net,
    questions: &[Question],
    line: &Line,
) -> Result<Question, Refused>
    requires words { length line.now.words < 2 ^ 32 - 1 }
    ensures ok { IfOk result (λ question. asking.question_at net.now.files questions.now line.now ≡ Ok question) }
    ensures refused { IfErr result (λ refused. refused.cause ≢ Cause.Memory → asking.question_at net.now.files questions.now line.now ≡ Err refused) }
    ensures known { IfOk result (λ question. IsKnown net.now.files question.kind) }
    ensures few { IfOk result (λ _. length questions.now < MOST_QUESTIONS) }
{
    match read_question(alloc, net, questions, line.words.as_slice()) {
        Ok(question) => Ok(question),
        Err(Cause::Memory) => Err(MEMORY),
        Err(cause) => Err(Refused {
            line: line.number,
            cause,
        }),
    }
}

fn with_question(
    mut questions: List<Question>,
    question: Question,
) -> Result<List<Question>, AllocError>
    ensures { IfOk result (λ next. next ≡ questions ++ question ∷ []) }
{
    questions.items.push(question)?;
    Ok(questions)
}

/// The questions with a line more.
#[tactic(auto, unfolding(crate::specs::Asking::next_asked))]
fn next_questions(
    alloc: Global,
    net: &Net,
    questions: List<Question>,
    line: &Line,
) -> Result<List<Question>, Refused>
    requires words { length line.now.words < 2 ^ 32 - 1 }
    requires known { AreKnown net.now.files questions }
    requires few { length questions ≤ MOST_QUESTIONS }
    ensures ok { IfOk result (λ next. asking.next_asked net.now.files questions line.now ≡ Ok next) }
    ensures refused { IfErr result (λ refused. refused.cause ≢ Cause.Memory → asking.next_asked net.now.files questions line.now ≡ Err refused) }
    ensures known { IfOk result (AreKnown net.now.files) }
    ensures few { IfOk result (λ next. length next ≤ MOST_QUESTIONS) }
{
    if says_nothing(line.words.as_slice()) {
        return Ok(questions);
    }
    let question = ask_at(alloc, net, questions.as_slice(), line)?;
    Ok(with_question(questions, question)?)
}

// The questions of all lines.
fn read_all(alloc: Global, net: &Net, lines: &[Line]) -> Result<List<Question>, Refused>
    requires words { All (λ line. length line.words < 2 ^ 32 - 1) lines.now }
    ensures ok { IfOk result (λ questions. in_turn (asking.next_asked net.now.files) [] lines.now ≡ Ok questions) }
    ensures refused { IfErr result (λ refused. refused.cause ≢ Cause.Memory → in_turn (asking.next_asked net.now.files) [] lines.now ≡ Err refused) }
    ensures known { IfOk result (AreKnown net.now.files) }
    ensures few { IfOk result (λ questions. length questions ≤ MOST_QUESTIONS) }
{
    let mut questions = List::new(alloc);
    for line in lines {
        questions = next_questions(alloc, net, questions, line)?;
    }
    Ok(questions)
}

/// The questions that a text asks over a network, one a line.
///
/// # Errors
///
/// A text is refused at its first line with a cause. Of several causes at a line the first counts in this order: unknown
/// kind (`UnknownCommand`), bad word, repeated name, unknown router, no external peer of the target's router
/// (`UnknownPeer`), a question too many, no such interface of the router (`Undefined`). Want of memory is at line 0.
pub fn read_questions(alloc: Global, bytes: &[u8], net: &Net) -> Result<List<Question>, Refused>
    requires { length bytes.now < 2 ^ 32 }
    ensures ok { IfOk result (λ questions. asking.asking net.now.files bytes.now ≡ Ok questions) }
    ensures refused { IfErr result (λ refused. refused.cause ≢ Cause.Memory → asking.asking net.now.files bytes.now ≡ Err refused) }
    ensures known { IfOk result (AreKnown net.now.files) }
    ensures few { IfOk result (λ questions. length questions ≤ MOST_QUESTIONS) }
{
    let lines = lines_of(alloc, bytes)?;
    read_all(alloc, net, lines.as_slice())
}
