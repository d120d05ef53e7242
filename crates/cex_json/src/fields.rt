//! The fields of a text, as they are read.

ghost use Rattle.std.specs.Prelude.{◌≡◌, ◌≢◌, ◌≤◌, ◌++◌, [], Some, Ok, Err, IfSome, IfOk, IfErr, codes, nat_le, nat_lt, option_map, option_and_then};
ghost use Rattle.serde_json.specs.View.{view, items_view};
ghost use Rattle.serde_json.specs.Find.{get, as_array};
ghost use Rattle.cex_json.specs.Fields as fields;
ghost use Rattle.cex_json.specs.Fields.{Reads, in_order};

use crate::refused::CexRefused;
use mw_text::{Addr, List, list_of, read_addr};
use serde_json::Value;
use std::alloc::Global;

/// The refusal of the field of that name at a path.
pub fn bad_field(alloc: Global, at: &str, name: &str) -> CexRefused
    ensures { result ≢ CexRefused.Memory → result ≡ CexRefused.Field (at.now ++ name.now) }
{
    match format!(in alloc; "{at}{name}") {
        Err(_) => CexRefused::Memory,
        Ok(path) => match list_of(alloc, path.as_bytes()) {
            Err(_) => CexRefused::Memory,
            Ok(path) => CexRefused::Field { path },
        },
    }
}

/// The value of the field of that name, which is bad without one.
pub fn required<T: Drop>(
    alloc: Global,
    at: &str,
    name: &str,
    found: Option<T>,
) -> Result<T, CexRefused>
    ensures { Reads result (fields.required at.now name.now found) }
{
    match found {
        None => Err(bad_field(alloc, at, name)),
        Some(value) => Ok(value),
    }
}

/// A place, where a number of 32 bits can name it.
#[tactic(auto, unfolding(crate::specs::Fields::place_of))]
pub fn place_of(at: usize) -> Option<u32>
    ensures { result ≡ fields.place_of (Some at) }
{
    if at <= u32::MAX as usize {
        Some(at as u32)
    } else {
        None
    }
}

/// A text.
pub fn text_of(value: &Value) -> Option<&[u8]>
    ensures { option_map (λ s. s.now) result ≡ fields.text_in (Some (view value.entry.now)) }
{
    match value.as_str() {
        None => None,
        Some(text) => Some(text.as_bytes()),
    }
}

/// The text of a member.
pub fn text_in<'v>(part: &'v Value, name: &str) -> Option<&'v [u8]>
    ensures { option_map (λ s. s.now) result ≡ fields.text_in (get name.now (view part.entry.now)) }
{
    match part.get(name) {
        None => None,
        Some(value) => text_of(value),
    }
}

fn within(n: u64, most: u32) -> Option<u32>
    ensures value { result ≡ fields.passing (λ m. nat_le m most) (Some n) }
    ensures small { IfSome result (λ m. m ≤ most) }
{
    if n <= u64::from(most) {
        Some(n as u32)
    } else {
        None
    }
}

/// A number that is at most so great.
pub fn number_of(value: &Value, most: u32) -> Option<u32>
    ensures value { result ≡ fields.number_in most (Some (view value.now)) }
    ensures small { IfSome result (λ m. m ≤ most) }
{
    match value.as_u64() {
        None => None,
        Some(n) => within(n, most),
    }
}

/// The number of a member, where it is at most so great.
pub fn number_in(part: &Value, name: &str, most: u32) -> Option<u32>
    ensures value { result ≡ fields.number_in most (get name.now (view part.now)) }
    ensures small { IfSome result (λ m. m ≤ most) }
{
    match part.get(name) {
        None => None,
        Some(value) => number_of(value, most),
    }
}

/// An address.
pub fn addr_of(value: &Value) -> Option<Addr>
    ensures { result ≡ fields.addr_in (Some (view value.now)) }
{
    match text_of(value) {
        None => None,
        Some(text) => read_addr(text),
    }
}

/// The address of a member.
pub fn addr_in(part: &Value, name: &str) -> Option<Addr>
    ensures { result ≡ fields.addr_in (get name.now (view part.now)) }
{
    match part.get(name) {
        None => None,
        Some(value) => addr_of(value),
    }
}

/// The address of a member that may be absent.
pub fn addr_or_absent(part: &Value, name: &str) -> Option<Option<Addr>>
    ensures { result ≡ fields.absent_or fields.addr_in (get name.now (view part.now)) }
{
    match part.get(name) {
        None => Some(None),
        Some(value) => match addr_of(value) {
            None => None,
            Some(a) => Some(Some(a)),
        },
    }
}

fn list_in<'v>(part: &'v Value, name: &str) -> Option<&'v Vec<Value>>
    ensures { option_map (λ v. items_view v.now.items) result ≡ option_and_then as_array (get name.now (view part.entry.now)) }
{
    match part.get(name) {
        None => None,
        Some(value) => value.as_array(),
    }
}

/// The members of the list of that name.
pub fn members_in<'v>(
    alloc: Global,
    at: &str,
    name: &str,
    part: &'v Value,
) -> Result<&'v [Value], CexRefused>
    ensures ok { IfOk result (λ members. fields.members_in at.now name.now (view part.entry.now) ≡ Ok (items_view members.now)) }
    ensures refused { IfErr result (λ why. why ≢ CexRefused.Memory →
        fields.members_in at.now name.now (view part.entry.now) ≡ Err why) }
{
    match list_in(part, name) {
        None => Err(bad_field(alloc, at, name)),
        Some(members) => Ok(members.as_slice()),
    }
}

/// A number, where it is above the last of those so far.
pub fn if_above(so_far: &[u32], n: u32) -> Option<u32>
    ensures { result ≡ fields.passing (fields.is_above so_far.now) (Some n) }
{
    match so_far.last() {
        None => Some(n),
        Some(last) => { if *last < n { Some(n) } else { None } }
    }
}

fn next_above(so_far: &[u32], value: &Value) -> Option<u32>
    ensures { result ≡ fields.passing (fields.is_above so_far.now) (fields.number_in fields.greatest (Some (view value.now))) }
{
    match number_of(value, u32::MAX) {
        None => None,
        Some(n) => if_above(so_far, n),
    }
}

fn take_ascending(
    alloc: Global,
    at: &str,
    name: &str,
    members: &[Value],
) -> Result<List<u32>, CexRefused>
    ensures { Reads result (in_order (fields.ascending_step at.now name.now) 0 [] (items_view members.now)) }
{
    let mut numbers = List::new(alloc);
    for member in members {
        let number = required(alloc, at, name, next_above(numbers.as_slice(), member))?;
        numbers.items.push(number)?;
    }
    Ok(numbers)
}

/// Numbers that ascend, each once.
#[tactic(auto, unfolding(crate::specs::Fields::ascending_in))]
pub fn ascending_in(
    alloc: Global,
    at: &str,
    name: &str,
    part: &Value,
) -> Result<List<u32>, CexRefused>
    ensures { Reads result (fields.ascending_in at.now name.now (view part.now)) }
{
    let members = members_in(alloc, at, name, part)?;
    take_ascending(alloc, at, name, members)
}

fn asn_of(value: &Value) -> Option<u32>
    ensures { result ≡ fields.passing (nat_lt 0) (fields.number_in fields.greatest (Some (view value.now))) }
{
    match number_of(value, u32::MAX) {
        None => None,
        Some(n) => { if n > 0 { Some(n) } else { None } }
    }
}

fn take_path(
    alloc: Global,
    at: &str,
    name: &str,
    members: &[Value],
) -> Result<List<u32>, CexRefused>
    ensures { Reads result (in_order (fields.asn_step at.now name.now) 0 [] (items_view members.now)) }
{
    let mut numbers = List::new(alloc);
    for member in members {
        let number = required(alloc, at, name, asn_of(member))?;
        numbers.items.push(number)?;
    }
    Ok(numbers)
}

/// AS numbers.
#[tactic(auto, unfolding(crate::specs::Fields::path_in))]
pub fn path_in(alloc: Global, at: &str, name: &str, part: &Value) -> Result<List<u32>, CexRefused>
    ensures { Reads result (fields.path_in at.now name.now (view part.now)) }
{
    let members = members_in(alloc, at, name, part)?;
    take_path(alloc, at, name, members)
}

fn take_addrs(
    alloc: Global,
    at: &str,
    name: &str,
    members: &[Value],
) -> Result<List<Addr>, CexRefused>
    ensures { Reads result (in_order (fields.addr_step at.now name.now) 0 [] (items_view members.now)) }
{
    let mut addresses = List::new(alloc);
    for member in members {
        let a = required(alloc, at, name, addr_of(member))?;
        addresses.items.push(a)?;
    }
    Ok(addresses)
}

/// Addresses.
#[tactic(auto, unfolding(crate::specs::Fields::addrs_in))]
pub fn addrs_in(alloc: Global, at: &str, name: &str, part: &Value) -> Result<List<Addr>, CexRefused>
    ensures { Reads result (fields.addrs_in at.now name.now (view part.now)) }
{
    let members = members_in(alloc, at, name, part)?;
    take_addrs(alloc, at, name, members)
}
