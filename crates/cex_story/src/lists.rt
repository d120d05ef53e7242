//! The access list that denies a packet, and its entry that does.

use crate::page::Page;
use crate::places::put_line;
use crate::scenes::Scene;
use ios_ast::{AccessEntry, AccessList, File, Use};
use mw_text::{List, same_bytes};
use policy_eval::access_list;
use route_record::Packet;
use std::alloc::{AllocError, Global};

/// The access list of that name.
fn list_named<'a>(file: &'a File, named: &Use) -> Option<&'a AccessList> {
    file.policies.access.as_slice().iter().find(|list| same_bytes(
        list.name.as_slice(),
        named.name.as_slice(),
    ))
}

/// Whether an entry takes the packet: a list that permits what it takes, and nothing else, permits it.
fn takes(alloc: Global, entry: &AccessEntry, packet: &Packet) -> Result<bool, AllocError> {
    let mut entries = Vec::new(alloc);
    entries.push(AccessEntry {
        permit: true,
        ..*entry
    })?;
    let alone = AccessList {
        name: List::new(alloc),
        extended: true,
        named: true,
        entries: List { items: entries },
    };
    Ok(access_list(&alone, packet))
}

/// The line of the first entry that takes the packet.
fn taking_line(
    alloc: Global,
    list: &AccessList,
    packet: &Packet,
) -> Result<Option<u32>, AllocError> {
    for entry in list.entries.as_slice() {
        if takes(alloc, entry, packet)? {
            return Ok(Some(entry.line));
        }
    }
    Ok(None)
}

/// Puts the entry of a list that takes the packet.
fn put_entry(page: &mut Page, scene: &Scene<'_>, router: u32, list: &AccessList) {
    match taking_line(page.alloc, list, &scene.cex.packet) {
        Err(_) => page.full = true,
        Ok(None) => page.bytes(b" since no entry takes it"),
        Ok(Some(line)) => {
            page.bytes(b" by its entry");
            put_line(page, scene, router, line)
        }
    }
}

/// Puts a list that a line of a router's file uses, and its entry that takes the packet.
pub fn put_list(page: &mut Page, scene: &Scene<'_>, router: u32, file: &File, named: &Use) {
    page.put(&[b": list ", named.name.as_slice()]);
    put_line(page, scene, router, named.line);
    page.bytes(b" denies it");
    if let Some(list) = list_named(file, named) {
        put_entry(page, scene, router, list);
    }
}

/// Whether the list that a line uses denies the packet.
pub fn denies(file: &File, named: &Use, packet: &Packet) -> bool {
    match list_named(file, named) {
        None => false,
        Some(list) => !access_list(list, packet),
    }
}
