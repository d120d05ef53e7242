//! The match and set lines of route maps.

ghost use Rattle.std.specs.Prelude.{◌≡◌, ◌==◌, ◌-◌, IfOk, OnOk, OnErr, length, option_map};
ghost use Rattle.std.specs.List.{list_any};
ghost use Rattle.ios_policy_reader.specs.Lists.{changed_at};
ghost use Rattle.ios_policy_reader.specs.Clauses.{match_of, community_act, act_of, clause_of, act_number, repeats, with_clause, open_entry, maps_with};

use crate::growing::add_to;
use crate::heads::Row;
use crate::said::{Said, Tag, is_said, number_said};
use crate::values::{ascending_numbers, numbers_said, uses_said};
use ios_ast::{MapEntry, Match, RouteMap, SetAct};
use mw_text::List;
use std::alloc::{AllocError, Global};

/// A line of an entry of a route map.
#[derive(Drop)]
pub enum MapClause {
    Matching(Match),
    Setting(SetAct),
}

/// What a match line says.
#[tactic(auto, unfolding(crate::specs::Clauses::match_of))]
fn match_said(
    alloc: Global,
    row: Row,
    line: u32,
    words: &[List<u8>],
    said: &[Said],
) -> Result<Option<Match>, AllocError>
    ensures { IfOk result (λ one. one ≡ match_of row line words.now said.now) }
{
    Ok(match row {
        Row::MatchAddress => Some(Match::Access(uses_said(alloc, line, words, said)?)),
        Row::MatchPrefixList => Some(Match::Prefixes(uses_said(alloc, line, words, said)?)),
        Row::MatchCommunity => Some(Match::Communities(uses_said(alloc, line, words, said)?)),
        Row::MatchPath => Some(Match::Paths(uses_said(alloc, line, words, said)?)),
        _ => None,
    })
}

/// The communities that a line sets.
fn communities_said(alloc: Global, said: &[Said]) -> Result<SetAct, AllocError>
    ensures { IfOk result (λ act. act ≡ community_act said.now) }
{
    if !is_said(Tag::Community, said) {
        return Ok(SetAct::NoCommunity);
    }
    let numbers = numbers_said(alloc, Tag::Community, said)?;
    let values = ascending_numbers(alloc, numbers.as_slice())?;
    Ok(SetAct::Community(values, number_said(Tag::Number, said, 0) == 1))
}

/// What a set line says.
#[tactic(auto, unfolding(crate::specs::Clauses::act_of))]
fn act_said(alloc: Global, row: Row, said: &[Said]) -> Result<Option<SetAct>, AllocError>
    ensures { IfOk result (λ act. act ≡ act_of row said.now) }
{
    let number = number_said(Tag::Number, said, 0);
    Ok(match row {
        Row::SetPreference => Some(SetAct::LocalPref(number)),
        Row::SetMetric => Some(SetAct::Metric(number)),
        Row::SetWeight => Some(SetAct::Weight(number)),
        Row::SetCommunity => Some(communities_said(alloc, said)?),
        Row::SetOrigin => Some(SetAct::Origin(number == 1)),
        Row::SetPrepend => Some(SetAct::Prepend(numbers_said(alloc, Tag::Number, said)?)),
        Row::SetMetricType => Some(SetAct::Type1(number == 1)),
        _ => None,
    })
}

/// What a line in the block of a route map says. None where it is ignored.
pub fn clause_said(
    alloc: Global,
    row: Row,
    line: u32,
    words: &[List<u8>],
    said: &[Said],
) -> Result<Option<MapClause>, AllocError>
    ensures { IfOk result (λ clause. clause ≡ clause_of row line words.now said.now) }
{
    if let Some(one) = match_said(alloc, row, line, words, said)? {
        return Ok(Some(MapClause::Matching(one)));
    }
    match act_said(alloc, row, said)? {
        Some(act) => Ok(Some(MapClause::Setting(act))),
        None => Ok(None),
    }
}

/// The row of a set line among the rows of set lines.
fn number_of_act(act: &SetAct) -> u8
    ensures { result ≡ act_number act.now }
{
    match act {
        SetAct::LocalPref(_) => 0,
        SetAct::Metric(_) => 1,
        SetAct::Weight(_) => 2,
        SetAct::NoCommunity | SetAct::Community(_, _) => 3,
        SetAct::Origin(_) => 4,
        SetAct::Prepend(_) => 5,
        SetAct::Type1(_) => 6,
    }
}

/// Whether a set line of that row is among these.
fn has_act(acts: &[SetAct], number: u8) -> bool
    ensures { result ≡ list_any (λ old. act_number old == number) acts.now }
{
    acts.iter().any(|old| number_of_act(old) == number)
}

/// Whether the entry has a set line of that row already.
pub fn is_repeated(clause: &MapClause, entry: &MapEntry) -> bool
    ensures { result ≡ repeats clause.now entry.now }
{
    match clause {
        MapClause::Matching(_) => false,
        MapClause::Setting(act) => has_act(entry.sets.as_slice(), number_of_act(act)),
    }
}

/// Puts a line at the end of an entry's lines of its kind.
fn add_to_entry(entry: &mut MapEntry, clause: MapClause) -> Result<(), AllocError>
    ensures ok { OnOk result (entry.new ≡ with_clause clause entry.old) }
    ensures unchanged { OnErr result (entry.new ≡ entry.old) }
{
    match clause {
        MapClause::Matching(one) => add_to(&mut entry.matches, one),
        MapClause::Setting(act) => add_to(&mut entry.sets, act),
    }
}

/// Puts a line into the last of these entries.
fn add_to_last(entries: &mut List<MapEntry>, clause: MapClause) -> Result<(), AllocError>
    ensures ok { OnOk result (entries.new ≡ changed_at (with_clause clause) (length entries.old - 1) entries.old) }
    ensures unchanged { OnErr result (entries.new ≡ entries.old) }
{
    match entries.items.last_mut() {
        Some(entry) => add_to_entry(entry, clause),
        None => Ok(()),
    }
}

/// Puts a line into the last entry of the map at a place.
pub fn add_clause(maps: &mut List<RouteMap>, at: u32, clause: MapClause) -> Result<(), AllocError>
    ensures ok { OnOk result (maps.new ≡ maps_with clause at maps.old) }
    ensures unchanged { OnErr result (maps.new ≡ maps.old) }
{
    match maps.items.get_mut(at as usize) {
        Some(map) => add_to_last(&mut map.entries, clause),
        None => Ok(()),
    }
}

/// The last entry of the map at a place.
pub fn last_entry(maps: &[RouteMap], at: u32) -> Option<&MapEntry>
    ensures { option_map (λ entry. entry.now) result ≡ open_entry at maps.now }
{
    maps.get(at as usize)?.entries.items.last()
}
