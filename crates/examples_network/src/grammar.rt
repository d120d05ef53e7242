//! The table by which questions are read, as the rows of docs/FORMATS.md: a state, what a word may be, the next state.

use crate::page::Page;
use ios_policy_reader::{Edge, Takes};
use question_lang::table::QUESTION;

fn put_keyword(out: &mut Page, word: &[u8]) {
    out.bytes("`", word.trim_ascii_end());
    out.put("`")
}

fn put_range(out: &mut Page, least: u32, greatest: u32) {
    out.number("", least);
    out.number("..", greatest)
}

/// What a word has to be. Of the kinds of words that no question has, `-`.
fn put_takes(out: &mut Page, takes: Takes) {
    match takes {
        Takes::End => out.put("the end of the line"),
        Takes::Key(word) => put_keyword(out, &word),
        Takes::Named(word, _) => put_keyword(out, &word),
        Takes::Any => out.put("R"),
        Takes::Range(least, greatest) => put_range(out, least, greatest),
        Takes::AnyName => out.put("NAME"),
        Takes::Interface => out.put("IF"),
        Takes::AnyAddress => out.put("A"),
        Takes::AnyPrefix => out.put("A/L"),
        Takes::AnyPorts => out.put("PORTS"),
        _ => out.put("-"),
    }
}

fn put_edge(out: &mut Page, edge: Edge) {
    out.number("| ", u32::from(edge.0));
    out.put(" | ");
    put_takes(out, edge.1);
    out.number(" | ", u32::from(edge.3));
    out.put(" |\n")
}

fn put_edges(out: &mut Page, table: &[Edge]) {
    for edge in table {
        put_edge(out, *edge);
    }
}

pub fn put_questions(out: &mut Page) {
    put_edges(out, &QUESTION)
}
