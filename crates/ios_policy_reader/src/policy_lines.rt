//! What the lines of lists and route maps put into the policies of a file.

ghost use Rattle.std.specs.Prelude.{◌≡◌, ◌≢◌, OnOk, OnErr, IfErr, Ok, Err, option_map, length};
ghost use Rattle.std.specs.List.{find};
ghost use Rattle.mw_text.specs.Text.{same_text};
ghost use Rattle.ios_policy_reader.specs.Lists.{prefix_entries_of, next_number, has_number, map_entries_of, has_map_number};
ghost use Rattle.ios_policy_reader.specs.Policies.{is_extended, access_line, entry_line, open_line, sequence_of, numbered_line, prefix_line, community_line, path_line, map_line, clause_line, map_block_line};
ghost use Rattle.ios_policy_reader.specs.Clauses.{repeats, open_entry};

use crate::access_lists::{add_access_entry, add_entry_at, open_access_list, was_opened};
use crate::cause::Cause;
use crate::clauses::{MapClause, add_clause, clause_said, is_repeated, last_entry};
use crate::entries::{
    access_list_entry, as_path_entry, community_list_entry, prefix_list_entry, route_map_entry,
};
use crate::heads::Row;
use crate::lists::{add_community_entry, add_map_entry, add_path_entry, add_prefix_entry};
use crate::room::has_room_left;
use crate::said::{Said, Tag, is_said, number_said};
use ios_ast::{MapEntry, Policies, PrefixEntry, PrefixList, RouteMap};
use mw_text::{Line, List, same_bytes};
use std::alloc::Global;

/// Whether the access lists of that number are extended.
fn has_extended(number: u32) -> bool
    ensures { result ≡ is_extended number }
{
    (100 <= number && number <= 199) || (2000 <= number && number <= 2699)
}

/// An `access-list` line: an entry, or a remark.
#[tactic(auto, unfolding(crate::specs::Policies::access_line))]
pub fn put_access_line(
    alloc: Global,
    line: &Line,
    said: &[Said],
    name: List<u8>,
    policies: &mut Policies,
) -> Result<(), Cause>
    ensures ok { OnOk result (access_line line.now said.now name policies.old ≡ Ok policies.new) }
    ensures refused { IfErr result (λ cause. cause ≢ Cause.Memory → access_line line.now said.now name policies.old ≡ Err cause) }
    ensures unchanged { OnErr result (policies.new ≡ policies.old) }
{
    if !is_said(Tag::Action, said) {
        return Ok(());
    }
    if !has_room_left(policies) {
        return Err(Cause::Limit);
    }
    let extended = has_extended(number_said(Tag::Number, said, 0));
    let entry = access_list_entry(line.number, said);
    add_access_entry(alloc, &mut policies.access, name, extended, entry)?;
    Ok(())
}

/// A line in the block of the access list at a place: an entry, or a remark.
#[tactic(auto, unfolding(crate::specs::Policies::entry_line))]
pub fn put_entry_line(
    line: &Line,
    said: &[Said],
    at: u32,
    policies: &mut Policies,
) -> Result<(), Cause>
    ensures ok { OnOk result (entry_line line.now said.now at policies.old ≡ Ok policies.new) }
    ensures refused { IfErr result (λ cause. cause ≢ Cause.Memory → entry_line line.now said.now at policies.old ≡ Err cause) }
    ensures unchanged { OnErr result (policies.new ≡ policies.old) }
{
    if !is_said(Tag::Action, said) {
        return Ok(());
    }
    if !has_room_left(policies) {
        return Err(Cause::Limit);
    }
    let entry = access_list_entry(line.number, said);
    add_entry_at(&mut policies.access, at, entry)?;
    Ok(())
}

/// An `ip access-list` line, which opens the list of that name.
#[tactic(auto, unfolding(crate::specs::Policies::open_line))]
pub fn put_open_line(
    alloc: Global,
    extended: bool,
    name: List<u8>,
    policies: &mut Policies,
) -> Result<(), Cause>
    ensures ok { OnOk result (open_line extended name policies.old ≡ Ok policies.new) }
    ensures refused { IfErr result (λ cause. cause ≢ Cause.Memory → open_line extended name policies.old ≡ Err cause) }
    ensures unchanged { OnErr result (policies.new ≡ policies.old) }
{
    if was_opened(policies.access.as_slice(), name.as_slice()) {
        return Err(Cause::Repeated);
    }
    open_access_list(alloc, &mut policies.access, name, extended)?;
    Ok(())
}

/// The prefix list of that name.
fn find_prefix_list<'a>(lists: &'a [PrefixList], name: &[u8]) -> Option<&'a PrefixList>
    ensures { option_map (λ list. list.now) result ≡ find (λ list. same_text list.name name.now) lists.now }
{
    lists
        .iter()
        .find(|list| same_bytes(list.name.as_slice(), name))
}

/// The entries of the prefix list of that name.
fn entries_of_prefix_list<'a>(lists: &'a [PrefixList], name: &[u8]) -> &'a [PrefixEntry]
    ensures { result.now ≡ prefix_entries_of name.now lists.now }
{
    match find_prefix_list(lists, name) {
        Some(list) => list.entries.as_slice(),
        None => &[],
    }
}

/// The highest number of these entries plus 5.
fn number_after(entries: &[PrefixEntry]) -> u64
    ensures { result ≡ next_number entries.now }
{
    let mut highest = 0;
    for entry in entries {
        highest = entry.seq.max(highest);
    }
    u64::from(highest) + 5
}

/// Whether an entry of a prefix list has that number.
fn is_numbered(number: u64, entries: &[PrefixEntry]) -> bool
    ensures { result ≡ has_number number entries.now }
{
    entries.iter().any(|entry| u64::from(entry.seq) == number)
}

/// The number of a prefix-list entry, as written or after those of its list.
fn sequence_number(name: &[u8], said: &[Said], policies: &Policies) -> u64
    ensures { result ≡ sequence_of name.now said.now policies.now }
{
    if is_said(Tag::Sequence, said) {
        u64::from(number_said(Tag::Sequence, said, 0))
    } else {
        number_after(entries_of_prefix_list(policies.prefix_lists.as_slice(), name))
    }
}

/// An entry of a prefix list, with its number.
#[tactic(auto, unfolding(crate::specs::Policies::numbered_line))]
fn put_numbered_line(
    alloc: Global,
    line: &Line,
    said: &[Said],
    name: List<u8>,
    number: u64,
    policies: &mut Policies,
) -> Result<(), Cause>
    ensures ok { OnOk result (numbered_line line.now said.now name number policies.old ≡ Ok policies.new) }
    ensures refused { IfErr result (λ cause. cause ≢ Cause.Memory → numbered_line line.now said.now name number policies.old ≡ Err cause) }
    ensures unchanged { OnErr result (policies.new ≡ policies.old) }
{
    if number > 4_294_967_294 {
        return Err(Cause::BadWord { word: 4 });
    }
    let entries = entries_of_prefix_list(policies.prefix_lists.as_slice(), name.as_slice());
    if is_numbered(number, entries) {
        return Err(Cause::Repeated);
    }
    if !has_room_left(policies) {
        return Err(Cause::Limit);
    }
    let entry = prefix_list_entry(line.number, number as u32, said);
    add_prefix_entry(alloc, &mut policies.prefix_lists, name, entry)?;
    Ok(())
}

/// An `ip prefix-list` line: an entry, or a description.
#[tactic(auto, unfolding(crate::specs::Policies::prefix_line))]
pub fn put_prefix_line(
    alloc: Global,
    line: &Line,
    said: &[Said],
    name: List<u8>,
    policies: &mut Policies,
) -> Result<(), Cause>
    ensures ok { OnOk result (prefix_line line.now said.now name policies.old ≡ Ok policies.new) }
    ensures refused { IfErr result (λ cause. cause ≢ Cause.Memory → prefix_line line.now said.now name policies.old ≡ Err cause) }
    ensures unchanged { OnErr result (policies.new ≡ policies.old) }
{
    if !is_said(Tag::Action, said) {
        return Ok(());
    }
    let number = sequence_number(name.as_slice(), said, policies);
    put_numbered_line(alloc, line, said, name, number, policies)
}

/// An `ip community-list` line.
#[tactic(auto, unfolding(crate::specs::Policies::community_line))]
pub fn put_community_line(
    alloc: Global,
    line: &Line,
    said: &[Said],
    name: List<u8>,
    policies: &mut Policies,
) -> Result<(), Cause>
    ensures ok { OnOk result (community_line line.now said.now name policies.old ≡ Ok policies.new) }
    ensures refused { IfErr result (λ cause. cause ≢ Cause.Memory → community_line line.now said.now name policies.old ≡ Err cause) }
    ensures unchanged { OnErr result (policies.new ≡ policies.old) }
{
    if !has_room_left(policies) {
        return Err(Cause::Limit);
    }
    let entry = community_list_entry(alloc, line.number, said)?;
    add_community_entry(alloc, &mut policies.communities, name, entry)?;
    Ok(())
}

/// An `ip as-path access-list` line.
#[tactic(auto, unfolding(crate::specs::Policies::path_line))]
pub fn put_path_line(
    alloc: Global,
    line: &Line,
    said: &[Said],
    name: List<u8>,
    policies: &mut Policies,
) -> Result<(), Cause>
    ensures ok { OnOk result (path_line line.now said.now name policies.old ≡ Ok policies.new) }
    ensures refused { IfErr result (λ cause. cause ≢ Cause.Memory → path_line line.now said.now name policies.old ≡ Err cause) }
    ensures unchanged { OnErr result (policies.new ≡ policies.old) }
{
    if !has_room_left(policies) {
        return Err(Cause::Limit);
    }
    let entry = as_path_entry(line.number, said);
    add_path_entry(alloc, &mut policies.as_paths, name, entry)?;
    Ok(())
}

/// The route map of that name.
fn find_map<'a>(maps: &'a [RouteMap], name: &[u8]) -> Option<&'a RouteMap>
    ensures { option_map (λ map. map.now) result ≡ find (λ map. same_text map.name name.now) maps.now }
{
    maps.iter()
        .find(|map| same_bytes(map.name.as_slice(), name))
}

/// The entries of the route map of that name.
fn entries_of_map<'a>(maps: &'a [RouteMap], name: &[u8]) -> &'a [MapEntry]
    ensures { result.now ≡ map_entries_of name.now maps.now }
{
    match find_map(maps, name) {
        Some(map) => map.entries.as_slice(),
        None => &[],
    }
}

/// Whether an entry of a route map has that number.
fn is_map_numbered(number: u32, entries: &[MapEntry]) -> bool
    ensures { result ≡ has_map_number number entries.now }
{
    entries.iter().any(|entry| entry.seq == number)
}

/// A `route-map` line.
#[tactic(auto, unfolding(crate::specs::Policies::map_line))]
pub fn put_map_line(
    alloc: Global,
    line: &Line,
    said: &[Said],
    name: List<u8>,
    policies: &mut Policies,
) -> Result<(), Cause>
    ensures ok { OnOk result (map_line line.now said.now name policies.old ≡ Ok policies.new) }
    ensures refused { IfErr result (λ cause. cause ≢ Cause.Memory → map_line line.now said.now name policies.old ≡ Err cause) }
    ensures unchanged { OnErr result (policies.new ≡ policies.old) }
{
    let entries = entries_of_map(policies.maps.as_slice(), name.as_slice());
    if is_map_numbered(number_said(Tag::Sequence, said, 0), entries) {
        return Err(Cause::Repeated);
    }
    if !has_room_left(policies) {
        return Err(Cause::Limit);
    }
    let entry = route_map_entry(alloc, line.number, said);
    add_map_entry(alloc, &mut policies.maps, name, entry)?;
    Ok(())
}

/// Whether the open entry of the map at a place has a set line of that row already.
fn repeats_in_map(clause: &MapClause, at: u32, maps: &[RouteMap]) -> bool
    ensures { result ≡ Rattle.std.specs.Option.option_map_or (λ entry. repeats clause.now entry) (open_entry at maps.now) Rattle.std.specs.Prelude.false }
{
    match last_entry(maps, at) {
        Some(entry) => is_repeated(clause, entry),
        None => false,
    }
}

/// A match or set line in the open entry of the map at a place.
#[tactic(auto, unfolding(crate::specs::Policies::clause_line))]
fn put_clause_line(clause: MapClause, at: u32, policies: &mut Policies) -> Result<(), Cause>
    ensures ok { OnOk result (clause_line clause at policies.old ≡ Ok policies.new) }
    ensures refused { IfErr result (λ cause. cause ≢ Cause.Memory → clause_line clause at policies.old ≡ Err cause) }
    ensures unchanged { OnErr result (policies.new ≡ policies.old) }
{
    if repeats_in_map(&clause, at, policies.maps.as_slice()) {
        return Err(Cause::Repeated);
    }
    add_clause(&mut policies.maps, at, clause)?;
    Ok(())
}

/// A line in the block of the map at a place, which may be ignored.
#[tactic(auto, unfolding(crate::specs::Policies::map_block_line))]
pub fn put_map_block_line(
    alloc: Global,
    row: Row,
    line: &Line,
    said: &[Said],
    at: u32,
    policies: &mut Policies,
) -> Result<(), Cause>
    ensures ok { OnOk result (map_block_line row line.now said.now at policies.old ≡ Ok policies.new) }
    ensures refused { IfErr result (λ cause. cause ≢ Cause.Memory → map_block_line row line.now said.now at policies.old ≡ Err cause) }
    ensures unchanged { OnErr result (policies.new ≡ policies.old) }
{
    match clause_said(alloc, row, line.number, line.words.as_slice(), said)? {
        Some(clause) => put_clause_line(clause, at, policies),
        None => Ok(()),
    }
}
