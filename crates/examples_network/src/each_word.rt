//! A line that is read with a word that nothing takes in place of each of its words and behind the last, and cut short
//! after each of them.

use crate::page::Page;
use crate::reading::{Outcome, read_outcome};
use crate::setup::Setup;
use crate::words::cut;
use ios_policy_reader::Cause;

fn letter(cause: Cause) -> &'static str {
    match cause {
        Cause::UnknownCommand => " U",
        Cause::OutOfPlace => " P",
        Cause::UnknownRouter => " R",
        _ => " ?",
    }
}

fn show_cause(out: &mut Page, cause: Cause) {
    match cause {
        Cause::BadWord { word } => out.number(" ", word),
        _ => out.put(letter(cause)),
    }
}

/// A point where the text is taken, the number of its bad word, U for an unknown command, P for one out of place and R
/// for an unknown router.
fn show_end(out: &mut Page, end: Outcome) {
    match end {
        Outcome::Taken => out.put(" ."),
        Outcome::Refused(_, cause) => show_cause(out, cause),
        Outcome::NotRead => out.put(" not read"),
    }
}

/// A line behind a text, of a configuration or of questions.
#[derive(Clone, Copy)]
struct Tried<'a> {
    setup: &'a Setup,
    kind: &'a str,
    line: &'a str,
}

/// The text, and the blank that a line of a block begins with.
fn begin(out: &Page, tried: &Tried) -> Page {
    let mut text = Page::new(out.alloc());
    text.put(tried.setup.text.as_str());
    text.flag(" ", tried.line.starts_with(' '));
    text
}

/// The line with a bad word in place of the word at that place.
fn show_with_bad(out: &mut Page, tried: &Tried, bad: &str, at: usize) {
    let mut text = begin(out, tried);
    for (place, word) in tried.line.split_whitespace().enumerate() {
        text.put(if place == at { bad } else { word });
        text.put(" ");
    }
    text.flag(bad, at == tried.line.split_whitespace().count());
    show_text(out, tried, &text)
}

/// The first so many words of the line.
fn show_cut(out: &mut Page, tried: &Tried, count: usize) {
    let mut text = begin(out, tried);
    for word in tried.line.split_whitespace().take(count) {
        text.put(word);
        text.put(" ");
    }
    show_text(out, tried, &text)
}

fn show_text(out: &mut Page, tried: &Tried, text: &Page) {
    out.note(text.memory());
    show_end(
        out,
        read_outcome(text.alloc(), tried.setup, tried.kind, text.text()),
    )
}

/// `KIND LINE`: what the line reads as behind the text, with each word bad and cut after each word.
pub fn show_words(out: &mut Page, setup: &Setup, order: &str) {
    let (kind, line) = cut(order);
    let tried = Tried { setup, kind, line };
    // A question may have any printable name.
    let bad = if kind == "questions" { "?" } else { "\u{1}" };
    let count = line.split_whitespace().count();
    out.put(" bad");
    for at in 0..=count {
        show_with_bad(out, &tried, bad, at);
    }
    out.put("; cut");
    for at in 1..count {
        show_cut(out, &tried, at);
    }
}
