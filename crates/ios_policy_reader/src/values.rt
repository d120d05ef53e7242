//! Names and numbers that the words of a line say.

ghost use Rattle.std.specs.Prelude.{◌≡◌, IfOk, decimal, map};
ghost use Rattle.std.specs.BTreeSet.{keys};
ghost use Rattle.ios_policy_reader.specs.Values.{name_in, is_naming, naming_value, name_of, uses_of, numbers_under, ascending};

use crate::said::{Said, Tag, Value, is_under, number_of_value};
use ios_ast::Use;
use mw_text::{List, list_of};
use std::alloc::{AllocError, Global};
use std::collections::BTreeSet;

/// A number as its digits.
fn digits_of(alloc: Global, number: u32) -> Result<List<u8>, AllocError>
    ensures { IfOk result (λ text. text ≡ decimal number) }
{
    let text = format!(in alloc; "{number}")?;
    Ok(List {
        items: text.into_bytes(),
    })
}

/// The word of a line at a place, counted from 0. No bytes where there is none.
pub fn word_at(words: &[List<u8>], at: u32) -> &[u8]
    ensures { result.now ≡ Rattle.ios_policy_reader.specs.Values.word_at words.now at }
{
    match words.get(at as usize) {
        Some(word) => word.as_slice(),
        None => &[],
    }
}

/// The name that a value is.
fn name_of_value(alloc: Global, words: &[List<u8>], value: Value) -> Result<List<u8>, AllocError>
    ensures { IfOk result (λ name. name ≡ name_in words.now value) }
{
    match value {
        Value::Number(number) => digits_of(alloc, number),
        Value::Word(at) => list_of(alloc, word_at(words, at)),
        _ => Ok(List::new(alloc)),
    }
}

fn names_list(said: Said) -> bool
    ensures { result ≡ is_naming said }
{
    is_under(Tag::Name, said) || is_under(Tag::Number, said)
}

/// What was said last as the name of a list.
fn last_naming(said: &[Said]) -> Value
    ensures { result ≡ naming_value said.now }
{
    let mut value = Value::Nothing;
    for one in said {
        if names_list(*one) {
            value = one.value;
        }
    }
    value
}

/// The name of the list that a line is about: a word as it stands, a number as its digits.
pub fn list_name(alloc: Global, words: &[List<u8>], said: &[Said]) -> Result<List<u8>, AllocError>
    ensures { IfOk result (λ name. name ≡ name_of words.now said.now) }
{
    name_of_value(alloc, words, last_naming(said))
}

/// The lists that a line uses, in the order of its words.
pub fn uses_said(
    alloc: Global,
    line: u32,
    words: &[List<u8>],
    said: &[Said],
) -> Result<List<Use>, AllocError>
    ensures { IfOk result (λ uses. uses ≡ uses_of line words.now said.now) }
{
    let mut uses = List::new(alloc);
    for one in said {
        if names_list(*one) {
            let name = name_of_value(alloc, words, one.value)?;
            uses.items.push(Use { line, name })?;
        }
    }
    Ok(uses)
}

/// The numbers that were said under a tag, in the order of the words.
pub fn numbers_said(alloc: Global, tag: Tag, said: &[Said]) -> Result<List<u32>, AllocError>
    ensures { IfOk result (λ numbers. numbers ≡ numbers_under tag said.now) }
{
    let mut numbers = List::new(alloc);
    for one in said {
        if is_under(tag, *one) {
            numbers.items.push(number_of_value(one.value, 0))?;
        }
    }
    Ok(numbers)
}

/// These numbers as a set.
fn set_of(alloc: Global, numbers: &[u32]) -> Result<BTreeSet<u32>, AllocError>
    ensures { IfOk result (λ set. keys set ≡ ascending numbers.now) }
{
    let mut set = BTreeSet::new(alloc);
    for number in numbers {
        let _ = set.insert(*number)?;
    }
    Ok(set)
}

/// These numbers, each once and ascending.
pub fn ascending_numbers(alloc: Global, numbers: &[u32]) -> Result<List<u32>, AllocError>
    ensures { IfOk result (λ list. list ≡ ascending numbers.now) }
{
    let set = set_of(alloc, numbers)?;
    Ok(List {
        items: set.into_iter().collect(alloc)?,
    })
}
