//! Prefix lists, community lists and AS-path lists.

ghost use Rattle.std.specs.Prelude.{◌≡◌, ◌==◌, nat_le, Bool, if◌then◌else◌, List, Option, Some};
ghost use Rattle.ios_ast.specs.Prefixes.{prefix_taken, prefix_permitted};
ghost use Rattle.ios_ast.specs.Communities.{communities_taken, communities_permitted};
ghost use Rattle.ios_ast.specs.Paths.{first_of, last_of, pattern_matches, path_permitted};
ghost use Rattle.ios_ast.specs.Deciding.{sooner};

use ios_ast::{AsPathList, CommunityEntry, CommunityList, Pattern, PrefixEntry, PrefixList};
use mw_text::{Prefix, contains};

/// Whether the prefix lies inside the entry's one and has one of its lengths.
fn takes_prefix(entry: &PrefixEntry, p: &Prefix) -> bool
    ensures { result ≡ prefix_taken entry.now p.now }
{
    entry.prefix.len <= p.len
        && contains(&entry.prefix, p.addr)
        && entry.low <= p.len
        && p.len <= entry.high
}

/// Which entry decides where one more stands before those that `later` was found among.
fn decider(entry: PrefixEntry, takes: bool, later: Option<PrefixEntry>) -> Option<PrefixEntry>
    ensures { result ≡ (if takes then Some (sooner (λ e. e.seq) entry later) else later) }
{
    match later {
        _ if !takes => later,
        Some(other) if other.seq < entry.seq => later,
        _ => Some(entry),
    }
}

/// Whether the prefix list permits the prefix: of its entries that take it the one with the least sequence number
/// decides, and the end denies.
pub fn prefix_list(list: &PrefixList, p: &Prefix) -> bool
    ensures { result ≡ prefix_permitted list.now.entries p.now }
{
    let entries = list.entries.as_slice();
    let mut found = None;
    for i in (0..entries.len()).rev() {
        let takes = takes_prefix(&entries[i], p);
        found = decider(entries[i], takes, found);
    }
    found.is_some_and(|entry| entry.permit)
}

/// Whether a route with these communities carries all values of the entry.
fn takes_communities(entry: &CommunityEntry, communities: &[u32]) -> bool
    ensures { result ≡ communities_taken entry.now communities.now }
{
    entry
        .values
        .as_slice()
        .iter()
        .all(|value| communities.contains(value))
}

/// Whether the community list permits a route with these communities: its first entry that takes them decides, and the
/// end denies.
pub fn community_list(list: &CommunityList, communities: &[u32]) -> bool
    ensures { result ≡ communities_permitted list.now.entries communities.now }
{
    for entry in list.entries.as_slice() {
        if takes_communities(entry, communities) {
            return entry.permit;
        }
    }
    false
}

/// The first number of a path, 0 where it is empty.
fn first_number(path: &[u32]) -> u32
    ensures { result ≡ first_of path.now }
{
    path.first().copied().unwrap_or(0)
}

/// The last number of a path, 0 where it is empty.
fn last_number(path: &[u32]) -> u32
    ensures { result ≡ last_of path.now }
{
    path.last().copied().unwrap_or(0)
}

/// Whether the path matches the pattern.
fn matches_path(pattern: Pattern, path: &[u32]) -> bool
    ensures { result ≡ pattern_matches pattern path.now }
{
    match pattern {
        Pattern::Empty => path.is_empty(),
        Pattern::Any => true,
        Pattern::Only(number) => path.len() == 1 && first_number(path) == number,
        Pattern::First(number) => !path.is_empty() && first_number(path) == number,
        Pattern::Last(number) => !path.is_empty() && last_number(path) == number,
        Pattern::Has(number) => path.contains(&number),
    }
}

/// Whether the AS-path list permits the path: its first entry that takes it decides, and the end denies.
pub fn as_path_list(list: &AsPathList, path: &[u32]) -> bool
    ensures { result ≡ path_permitted list.now.entries path.now }
{
    for entry in list.entries.as_slice() {
        if matches_path(entry.pattern, path) {
            return entry.permit;
        }
    }
    false
}
