//! What a text reads as: a configuration, or questions.

use crate::page::Page;
use crate::setup::{LONGEST, Setup};
use crate::shown::show_file;
use crate::shown_questions::show_questions;
use ios_policy_reader::Cause;
use ios_reader::read_file;
use mw_text::List;
use net_model::Net;
use question_lang::{Question, read_questions};
use std::alloc::Global;

/// A cause that has no words beside its name.
fn cause_name(cause: Cause) -> &'static str {
    match cause {
        Cause::UnknownCommand => "UnknownCommand",
        Cause::BadWord { word: _ } => "BadWord",
        Cause::Repeated => "Repeated",
        Cause::OutOfPlace => "OutOfPlace",
        Cause::Limit => "Limit",
        Cause::NoHostname => "NoHostname",
        Cause::UnknownRouter => "UnknownRouter",
        Cause::UnknownPeer => "UnknownPeer",
        Cause::TooManyQuestions => "TooManyQuestions",
        Cause::Undefined => "Undefined",
        Cause::Memory => "Memory",
    }
}

/// The name of a cause, and the number of a bad word.
fn show_cause(out: &mut Page, cause: Cause) {
    out.put(" ");
    out.put(cause_name(cause));
    if let Cause::BadWord { word } = cause {
        out.number(" ", word)
    }
}

fn show_refusal(out: &mut Page, line: u32, cause: Cause) {
    out.number(" ", line);
    show_cause(out, cause)
}

/// The file of a text, each part with its line, or the line and the cause of its refusal.
pub fn show_read(out: &mut Page, text: &str) {
    if text.len() > LONGEST {
        return out.put(" too long");
    }
    match read_file(out.alloc(), text.as_bytes()) {
        Ok(file) => show_file(out, &file),
        Err(refused) => show_refusal(out, refused.line, refused.cause),
    }
}

/// The questions of a text, or the line and the cause of its refusal. Questions that are taken are kept.
pub fn show_asked(out: &mut Page, net: &Net, text: &str, kept: &mut List<Question>) {
    if text.len() > LONGEST {
        return out.put(" too long");
    }
    match read_questions(out.alloc(), text.as_bytes(), net) {
        Ok(questions) => {
            show_questions(out, questions.as_slice());
            *kept = questions
        }
        Err(refused) => show_refusal(out, refused.line, refused.cause),
    }
}

/// What becomes of a text.
#[derive(Clone, Copy)]
pub enum Outcome {
    Taken,
    Refused(u32, Cause),
    NotRead,
}

fn file_outcome(alloc: Global, text: &str) -> Outcome {
    if text.len() > LONGEST {
        return Outcome::NotRead;
    }
    match read_file(alloc, text.as_bytes()) {
        Ok(_) => Outcome::Taken,
        Err(refused) => Outcome::Refused(refused.line, refused.cause),
    }
}

fn questions_outcome(alloc: Global, net: &Net, text: &str) -> Outcome {
    if text.len() > LONGEST {
        return Outcome::NotRead;
    }
    match read_questions(alloc, text.as_bytes(), net) {
        Ok(_) => Outcome::Taken,
        Err(refused) => Outcome::Refused(refused.line, refused.cause),
    }
}

/// Reads a text of a kind, and forgets what it read.
pub fn read_outcome(alloc: Global, setup: &Setup, kind: &str, text: &str) -> Outcome {
    match &setup.net {
        Some(net) if kind == "questions" => questions_outcome(alloc, net, text),
        _ => file_outcome(alloc, text),
    }
}

/// Whether a text is taken, or where it is refused.
pub fn show_outcome(out: &mut Page, end: Outcome) {
    match end {
        Outcome::Taken => out.put(" taken"),
        Outcome::Refused(line, cause) => show_refusal(out, line, cause),
        Outcome::NotRead => out.put(" not read"),
    }
}
