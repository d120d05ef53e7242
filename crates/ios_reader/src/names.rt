//! Names that the words of a line say, and lengths.

ghost use Rattle.std.specs.Prelude.{◌≡◌, IfOk};
ghost use Rattle.ios_reader.specs.Names.{place_in, place_more, place_under, name_at, name_under, use_under, map_under, length_in, length_more, length_under};

use ios_ast::Use;
use ios_policy_reader::said::{is_said, is_under};
use ios_policy_reader::{Said, Tag, Value};
use mw_text::{Line, List, list_of};
use std::alloc::{AllocError, Global};

/// The place of the word that this is, if it is one.
fn place_of_value(value: Value, otherwise: u32) -> u32
    ensures { result ≡ place_in otherwise value }
{
    match value {
        Value::Word(at) => at,
        _ => otherwise,
    }
}

/// The place of the word that was said last under a tag.
fn place_said(tag: Tag, said: &[Said], otherwise: u32) -> u32
    ensures { result ≡ place_under tag said.now otherwise }
{
    let mut place = otherwise;
    for one in said {
        if is_under(tag, *one) {
            place = place_of_value(one.value, place);
        }
    }
    place
}

/// A copy of the word at that place, or no bytes where there is none.
fn word_at(alloc: Global, words: &[List<u8>], at: u32) -> Result<List<u8>, AllocError>
    ensures { IfOk result (λ name. name ≡ name_at words.now at) }
{
    match words.get(at as usize) {
        Some(word) => list_of(alloc, word.as_slice()),
        None => Ok(List::new(alloc)),
    }
}

/// The name that was said last under a tag.
pub fn name_said(
    alloc: Global,
    tag: Tag,
    said: &[Said],
    words: &[List<u8>],
) -> Result<List<u8>, AllocError>
    ensures { IfOk result (λ name. name ≡ name_under tag said.now words.now) }
{
    word_at(alloc, words, place_said(tag, said, 0))
}

/// The use of the name that was said last under a tag.
pub fn use_said(alloc: Global, tag: Tag, said: &[Said], line: &Line) -> Result<Use, AllocError>
    ensures { IfOk result (λ used. used ≡ use_under tag said.now line.now) }
{
    Ok(Use {
        line: line.number,
        name: name_said(alloc, tag, said, line.words.as_slice())?,
    })
}

/// The use of a route map, if one was said.
pub fn map_said(alloc: Global, said: &[Said], line: &Line) -> Result<Option<Use>, AllocError>
    ensures { IfOk result (λ used. used ≡ map_under said.now line.now) }
{
    if is_said(Tag::Map, said) {
        Ok(Some(use_said(alloc, Tag::Map, said, line)?))
    } else {
        Ok(None)
    }
}

/// The length of a mask that this is, if it is one.
fn length_of_value(value: Value, otherwise: u8) -> u8
    ensures { result ≡ length_in otherwise value }
{
    match value {
        Value::Length(len) => len,
        _ => otherwise,
    }
}

/// The length of the mask that was said last under a tag.
pub fn mask_length_said(tag: Tag, said: &[Said], otherwise: u8) -> u8
    ensures { result ≡ length_under tag said.now otherwise }
{
    let mut len = otherwise;
    for one in said {
        if is_under(tag, *one) {
            len = length_of_value(one.value, len);
        }
    }
    len
}
