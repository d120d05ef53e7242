//! Where the lines of a text stand: at the top or in which block, or in a banner.

ghost use Rattle.std.specs.Prelude.{◌≡◌, ◌==◌};
ghost use Rattle.config_prepare.specs.Places.{at_start, block_by, banner_by, after_words, place_after, left_out_in, left_out_by};

use crate::kinds::{begins_with, find_left_out};
use ios_policy_reader::Context;
use ios_reader::banner::{contains_delimiter, delimiter_of_line, ends_on_its_line};
use ios_reader::draft::Delimiter;
use mw_text::{Line, List, says_nothing};

/// The block that is open.
#[derive(Clone, Copy)]
pub enum Block {
    /// One whose lines are of kinds of that context.
    In(Context),
    /// One that is left out, with its first line, by the kind at that place of the table.
    LeftOut(usize),
    /// Another one, or none.
    Other,
}

/// Where a line stands: the open block, and what ends the banner that is open.
#[derive(Clone, Copy)]
pub struct Place {
    pub block: Block,
    pub banner: Option<Delimiter>,
}

/// Where the first line of a text stands.
pub fn start() -> Place
    ensures { result ≡ at_start }
{
    Place {
        block: Block::Other,
        banner: None,
    }
}

/// The block that a top line of these words opens, where it is none that is left out.
fn opened_by(words: &[List<u8>]) -> Block
    ensures { result ≡ Rattle.config_prepare.specs.Places.opened_by words.now }
{
    if begins_with(b"interface", words) {
        Block::In(Context::InInterface)
    } else if begins_with(b"router ospf", words) {
        Block::In(Context::InOspf)
    } else if begins_with(b"router bgp", words) {
        Block::In(Context::InBgp)
    } else if begins_with(b"route-map", words) {
        Block::In(Context::InMap)
    } else {
        Block::Other
    }
}

/// The block that a top line of these words opens.
fn block_of(words: &[List<u8>]) -> Block
    ensures { result ≡ block_by words.now }
{
    match find_left_out(Context::Top, words) {
        Some(at) => Block::LeftOut(at),
        None => opened_by(words),
    }
}

/// What ends the banner that a top line opens, where it opens one.
fn banner_of(line: &Line) -> Option<Delimiter>
    ensures { result ≡ banner_by line.now }
{
    let raw = line.raw.as_slice();
    if begins_with(b"banner", line.words.as_slice()) && !ends_on_its_line(raw) {
        Some(delimiter_of_line(raw))
    } else {
        None
    }
}

/// Where the line after this one stands, which says something and stands in no banner.
fn after_line_of_words(place: Place, line: &Line) -> Place
    ensures { result ≡ after_words place line.now }
{
    if line.indented {
        return place;
    }
    Place {
        block: block_of(line.words.as_slice()),
        banner: banner_of(line),
    }
}

/// Where the line after this one stands.
pub fn after_line(place: Place, line: &Line) -> Place
    ensures { result ≡ place_after place line.now }
{
    if let Some(delimiter) = place.banner {
        return if contains_delimiter(delimiter, line.raw.as_slice()) {
            Place {
                block: place.block,
                banner: None,
            }
        } else {
            place
        };
    }
    if says_nothing(line.words.as_slice()) {
        return place;
    }
    after_line_of_words(place, line)
}

/// The kind by which a sub-line of these words in that block is left out.
fn left_out_of(block: Block, words: &[List<u8>]) -> Option<usize>
    ensures { result ≡ left_out_in block words.now }
{
    match block {
        Block::In(context) => find_left_out(context, words),
        Block::LeftOut(at) => Some(at),
        Block::Other => None,
    }
}

/// The kind by which a line is left out.
pub fn left_out(place: Place, line: &Line) -> Option<usize>
    ensures { result ≡ left_out_by place line.now }
{
    let words = line.words.as_slice();
    if place.banner.is_some() || says_nothing(words) {
        None
    } else if line.indented {
        left_out_of(place.block, words)
    } else {
        find_left_out(Context::Top, words)
    }
}
