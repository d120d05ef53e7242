//! A log against questions, section by section.

ghost use Rattle.std.specs.Prelude.{◌≤◌, IfOk, length};
ghost use Rattle.log_answers.specs.Answers.{IsEncodedBy, IsLogAnswer};
ghost use Rattle.log_answers.specs.Sections.{IsHeld};

use log_answers::{LogAnswer, ended, wrong_after};
use log_checker::{Checked, check_section};
use mw_text::List;
use net_model::Net;
use question_lang::Question;
use question_search::formula::formula_of;
use resolution_check::Clause;
use std::alloc::{AllocError, Global};

// Clauses that encode a question. The terms of which they are are not kept.
fn made_clauses(alloc: Global, net: &Net, question: &Question) -> Result<List<Clause>, AllocError>
    ensures { IfOk result (IsEncodedBy net.now.files question.now) }
{
    let formula = formula_of(alloc, net, question)?;
    let cnf = formula.cnf;
    Ok(cnf.clauses)
}

// Holds the section of a question, with which a log begins, against its clauses.
fn check_question(
    alloc: Global,
    net: &Net,
    question: &Question,
    bytes: &[u8],
) -> Result<Checked, AllocError>
    ensures held { IfOk result (IsHeld net.now.files question.now bytes.now) }
    ensures used { IfOk result (λ c. c.used ≤ length bytes.now) }
    ensures lines { IfOk result (λ c. c.lines ≤ c.used) }
{
    let clauses = made_clauses(alloc, net, question)?;
    check_section(alloc, question.name.as_slice(), clauses.as_slice(), bytes)
}

/// Whether a log shows that all questions hold: it is their sections, in their order, each of which refutes the clauses
/// that this call makes of its question. Else the first line that is wrong, and what is wrong with it. Beside the log it
/// holds the clauses of one question at a time.
pub fn check_log(
    alloc: Global,
    net: &Net,
    questions: &[Question],
    log: &[u8],
) -> Result<LogAnswer, AllocError>
    ensures { IfOk result (IsLogAnswer net.now.files questions.now log.now) }
{
    let mut rest = log;
    let mut lines = 0;
    for question in questions {
        let checked = check_question(alloc, net, question, rest)?;
        lines += checked.lines;
        match checked.wrong {
            Some(cause) => return Ok(wrong_after(lines, cause)),
            None => rest = rest.split_at(checked.used).1,
        }
    }
    Ok(ended(lines, rest))
}
