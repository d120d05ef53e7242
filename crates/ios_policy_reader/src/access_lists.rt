//! Puts entries into access lists, and opens them.

ghost use Rattle.std.specs.Prelude.{◌≡◌, OnOk, OnErr, position};
ghost use Rattle.mw_text.specs.Text.{same_text};
ghost use Rattle.ios_policy_reader.specs.Lists.{place_of, with_access_entry, is_opened, with_opened, with_entry_at};

use crate::growing::{add_to, list_of_one};
use ios_ast::{AccessEntry, AccessList};
use mw_text::{List, same_bytes};
use std::alloc::{AllocError, Global};

/// The place of the access list of that name.
fn place_of_access_list(lists: &[AccessList], name: &[u8]) -> Option<usize>
    ensures { result ≡ position (λ list. same_text list.name name.now) lists.now }
{
    lists
        .iter()
        .position(|list| same_bytes(list.name.as_slice(), name))
}

/// Where the access list of that name stands, or a new one would.
#[tactic(auto, unfolding(crate::specs::Lists::place_of))]
pub fn access_list_place(lists: &[AccessList], name: &[u8]) -> u32
    ensures { result ≡ place_of (λ list. same_text list.name name.now) lists.now }
{
    let place = place_of_access_list(lists, name).unwrap_or(lists.len());
    place.min(0xffff_ffff) as u32
}

/// Puts an entry at the end of the access list of that name.
pub fn add_access_entry(
    alloc: Global,
    lists: &mut List<AccessList>,
    name: List<u8>,
    extended: bool,
    entry: AccessEntry,
) -> Result<(), AllocError>
    ensures ok { OnOk result (lists.new ≡ with_access_entry name extended entry lists.old) }
    ensures unchanged { OnErr result (lists.new ≡ lists.old) }
{
    match place_of_access_list(lists.as_slice(), name.as_slice()) {
        Some(at) => add_to(&mut lists.items[at].entries, entry),
        None => {
            let entries = list_of_one(alloc, entry)?;
            add_to(
                lists,
                AccessList {
                    name,
                    extended,
                    named: false,
                    entries,
                },
            )
        }
    }
}

/// Whether an `ip access-list` line opened the list of that name.
pub fn was_opened(lists: &[AccessList], name: &[u8]) -> bool
    ensures { result ≡ is_opened name.now lists.now }
{
    lists.iter().any(|list| same_bytes(list.name.as_slice(), name) && list.named)
}

/// Opens the access list of that name, or a new one.
pub fn open_access_list(
    alloc: Global,
    lists: &mut List<AccessList>,
    name: List<u8>,
    extended: bool,
) -> Result<(), AllocError>
    ensures ok { OnOk result (lists.new ≡ with_opened name extended lists.old) }
    ensures unchanged { OnErr result (lists.new ≡ lists.old) }
{
    match place_of_access_list(lists.as_slice(), name.as_slice()) {
        Some(at) => lists.items[at].named = true,
        None => lists.items.push(AccessList {
            name,
            extended,
            named: true,
            entries: List::new(alloc),
        })?,
    }
    Ok(())
}

/// Puts an entry at the end of the access list at a place.
pub fn add_entry_at(
    lists: &mut List<AccessList>,
    at: u32,
    entry: AccessEntry,
) -> Result<(), AllocError>
    ensures ok { OnOk result (lists.new ≡ with_entry_at at entry lists.old) }
    ensures unchanged { OnErr result (lists.new ≡ lists.old) }
{
    match lists.items.get_mut(at as usize) {
        Some(list) => add_to(&mut list.entries, entry),
        None => Ok(()),
    }
}
