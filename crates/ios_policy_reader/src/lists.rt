//! Puts entries into lists and route maps.

ghost use Rattle.std.specs.Prelude.{◌≡◌, OnOk, OnErr, position};
ghost use Rattle.mw_text.specs.Text.{same_text};
ghost use Rattle.ios_policy_reader.specs.Lists.{place_of, with_prefix_entry, with_community_entry, with_path_entry, with_map_entry};

use crate::growing::{add_to, list_of_one};
use ios_ast::{
    AsPathEntry, AsPathList, CommunityEntry, CommunityList, MapEntry, PrefixEntry, PrefixList,
    RouteMap,
};
use mw_text::{List, same_bytes};
use std::alloc::{AllocError, Global};

/// The place of the prefix list of that name.
fn place_of_prefix_list(lists: &[PrefixList], name: &[u8]) -> Option<usize>
    ensures { result ≡ position (λ list. same_text list.name name.now) lists.now }
{
    lists
        .iter()
        .position(|list| same_bytes(list.name.as_slice(), name))
}

/// Puts an entry at the end of the prefix list of that name.
pub fn add_prefix_entry(
    alloc: Global,
    lists: &mut List<PrefixList>,
    name: List<u8>,
    entry: PrefixEntry,
) -> Result<(), AllocError>
    ensures ok { OnOk result (lists.new ≡ with_prefix_entry name entry lists.old) }
    ensures unchanged { OnErr result (lists.new ≡ lists.old) }
{
    match place_of_prefix_list(lists.as_slice(), name.as_slice()) {
        Some(at) => add_to(&mut lists.items[at].entries, entry),
        None => {
            let entries = list_of_one(alloc, entry)?;
            add_to(lists, PrefixList { name, entries })
        }
    }
}

/// The place of the community list of that name.
fn place_of_community_list(lists: &[CommunityList], name: &[u8]) -> Option<usize>
    ensures { result ≡ position (λ list. same_text list.name name.now) lists.now }
{
    lists
        .iter()
        .position(|list| same_bytes(list.name.as_slice(), name))
}

/// Puts an entry at the end of the community list of that name.
pub fn add_community_entry(
    alloc: Global,
    lists: &mut List<CommunityList>,
    name: List<u8>,
    entry: CommunityEntry,
) -> Result<(), AllocError>
    ensures ok { OnOk result (lists.new ≡ with_community_entry name entry lists.old) }
    ensures unchanged { OnErr result (lists.new ≡ lists.old) }
{
    match place_of_community_list(lists.as_slice(), name.as_slice()) {
        Some(at) => add_to(&mut lists.items[at].entries, entry),
        None => {
            let entries = list_of_one(alloc, entry)?;
            add_to(lists, CommunityList { name, entries })
        }
    }
}

/// The place of the AS-path list of that name.
fn place_of_path_list(lists: &[AsPathList], name: &[u8]) -> Option<usize>
    ensures { result ≡ position (λ list. same_text list.name name.now) lists.now }
{
    lists
        .iter()
        .position(|list| same_bytes(list.name.as_slice(), name))
}

/// Puts an entry at the end of the AS-path list of that name.
pub fn add_path_entry(
    alloc: Global,
    lists: &mut List<AsPathList>,
    name: List<u8>,
    entry: AsPathEntry,
) -> Result<(), AllocError>
    ensures ok { OnOk result (lists.new ≡ with_path_entry name entry lists.old) }
    ensures unchanged { OnErr result (lists.new ≡ lists.old) }
{
    match place_of_path_list(lists.as_slice(), name.as_slice()) {
        Some(at) => add_to(&mut lists.items[at].entries, entry),
        None => {
            let entries = list_of_one(alloc, entry)?;
            add_to(lists, AsPathList { name, entries })
        }
    }
}

/// The place of the route map of that name.
fn place_of_map(maps: &[RouteMap], name: &[u8]) -> Option<usize>
    ensures { result ≡ position (λ map. same_text map.name name.now) maps.now }
{
    maps.iter()
        .position(|map| same_bytes(map.name.as_slice(), name))
}

/// Puts an entry at the end of the route map of that name.
pub fn add_map_entry(
    alloc: Global,
    maps: &mut List<RouteMap>,
    name: List<u8>,
    entry: MapEntry,
) -> Result<(), AllocError>
    ensures ok { OnOk result (maps.new ≡ with_map_entry name entry maps.old) }
    ensures unchanged { OnErr result (maps.new ≡ maps.old) }
{
    match place_of_map(maps.as_slice(), name.as_slice()) {
        Some(at) => add_to(&mut maps.items[at].entries, entry),
        None => {
            let entries = list_of_one(alloc, entry)?;
            add_to(maps, RouteMap { name, entries })
        }
    }
}

/// Where the route map of that name stands, or a new one would.
#[tactic(auto, unfolding(crate::specs::Lists::place_of))]
pub fn map_place(maps: &[RouteMap], name: &[u8]) -> u32
    ensures { result ≡ place_of (λ map. same_text map.name name.now) maps.now }
{
    let place = place_of_map(maps, name).unwrap_or(maps.len());
    place.min(0xffff_ffff) as u32
}
