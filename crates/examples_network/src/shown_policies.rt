//! Lists and route maps as text, each entry with its line after an `@`.

use crate::page::Page;
use crate::shown::show_uses;
use ios_ast::{
    AccessEntry, AccessList, AsPathEntry, AsPathList, CommunityEntry, CommunityList, MapEntry,
    Match, Pattern, Policies, Ports, PrefixEntry, PrefixList, RouteMap, SetAct, Wild,
};
use mw_text::Addr;

fn show_action(out: &mut Page, permit: bool) {
    out.put(if permit { " permit" } else { " deny" })
}

/// The lengths that an entry takes stand after its prefix.
fn show_prefix_entry(out: &mut Page, entry: &PrefixEntry) {
    out.number("\n  entry@", entry.line);
    out.number(" ", entry.seq);
    show_action(out, entry.permit);
    out.prefix(" ", entry.prefix);
    out.number(" ", u32::from(entry.low));
    out.number("..", u32::from(entry.high));
}

fn show_prefix_list(out: &mut Page, list: &PrefixList) {
    out.bytes("\n prefix-list ", list.name.as_slice());
    for entry in list.entries.as_slice() {
        show_prefix_entry(out, entry);
    }
}

fn show_community_entry(out: &mut Page, entry: &CommunityEntry) {
    out.number("\n  entry@", entry.line);
    show_action(out, entry.permit);
    out.numbers(entry.values.as_slice());
}

fn show_community_list(out: &mut Page, list: &CommunityList) {
    out.bytes("\n community-list ", list.name.as_slice());
    for entry in list.entries.as_slice() {
        show_community_entry(out, entry);
    }
}

fn show_pattern(out: &mut Page, pattern: Pattern) {
    match pattern {
        Pattern::Empty => out.put(" empty"),
        Pattern::Any => out.put(" any"),
        Pattern::Only(number) => out.number(" only ", number),
        Pattern::First(number) => out.number(" first ", number),
        Pattern::Last(number) => out.number(" last ", number),
        Pattern::Has(number) => out.number(" has ", number),
    }
}

fn show_path_entry(out: &mut Page, entry: &AsPathEntry) {
    out.number("\n  entry@", entry.line);
    show_action(out, entry.permit);
    show_pattern(out, entry.pattern);
}

fn show_path_list(out: &mut Page, list: &AsPathList) {
    out.bytes("\n as-path ", list.name.as_slice());
    for entry in list.entries.as_slice() {
        show_path_entry(out, entry);
    }
}

fn show_wild(out: &mut Page, before: &str, wild: Wild) {
    out.address(before, wild.addr);
    out.address(" ", Addr(wild.wild))
}

/// No text where every port is taken.
fn show_ports(out: &mut Page, ports: Ports) {
    match ports {
        Ports::Any => {}
        Ports::Range(low, high) => {
            out.number(" ports ", u32::from(low));
            out.number("..", u32::from(high))
        }
        Ports::Not(port) => out.number(" ports but ", u32::from(port)),
        Ports::Empty => out.put(" no port"),
    }
}

fn show_access_entry(out: &mut Page, entry: &AccessEntry) {
    out.number("\n  entry@", entry.line);
    show_action(out, entry.permit);
    out.number_if(" protocol ", entry.proto.map(u32::from));
    show_wild(out, " from ", entry.src);
    show_ports(out, entry.sport);
    show_wild(out, " to ", entry.dst);
    show_ports(out, entry.dport);
}

fn show_access_list(out: &mut Page, list: &AccessList) {
    out.bytes("\n access-list ", list.name.as_slice());
    out.flag(" extended", list.extended);
    out.flag(" named", list.named);
    for entry in list.entries.as_slice() {
        show_access_entry(out, entry);
    }
}

fn show_match(out: &mut Page, rule: &Match) {
    out.put("\n   match");
    match rule {
        Match::Access(uses) => show_uses(out, " access ", uses.as_slice()),
        Match::Prefixes(uses) => show_uses(out, " prefixes ", uses.as_slice()),
        Match::Communities(uses) => show_uses(out, " communities ", uses.as_slice()),
        Match::Paths(uses) => show_uses(out, " paths ", uses.as_slice()),
    }
}

fn show_communities(out: &mut Page, values: &[u32], additive: bool) {
    out.put(" communities");
    out.numbers(values);
    out.flag(" additive", additive)
}

fn show_prepend(out: &mut Page, numbers: &[u32]) {
    out.put(" prepend");
    out.numbers(numbers)
}

fn show_set(out: &mut Page, act: &SetAct) {
    out.put("\n   set");
    match act {
        SetAct::LocalPref(number) => out.number(" preference ", *number),
        SetAct::Metric(number) => out.number(" metric ", *number),
        SetAct::Weight(number) => out.number(" weight ", *number),
        SetAct::NoCommunity => out.put(" no community"),
        SetAct::Community(values, additive) => {
            show_communities(out, values.as_slice(), *additive)
        }
        SetAct::Origin(igp) => out.put(if *igp { " igp" } else { " incomplete" }),
        SetAct::Prepend(numbers) => show_prepend(out, numbers.as_slice()),
        SetAct::Type1(first) => out.put(if *first { " type 1" } else { " type 2" }),
    }
}

fn show_map_entry(out: &mut Page, entry: &MapEntry) {
    out.number("\n  entry@", entry.line);
    out.number(" ", entry.seq);
    show_action(out, entry.permit);
    for rule in entry.matches.as_slice() {
        show_match(out, rule);
    }
    for act in entry.sets.as_slice() {
        show_set(out, act);
    }
}

fn show_map(out: &mut Page, map: &RouteMap) {
    out.bytes("\n route-map ", map.name.as_slice());
    for entry in map.entries.as_slice() {
        show_map_entry(out, entry);
    }
}

/// All lists and then the maps.
pub fn show_policies(out: &mut Page, policies: &Policies) {
    for list in policies.prefix_lists.as_slice() {
        show_prefix_list(out, list);
    }
    for list in policies.communities.as_slice() {
        show_community_list(out, list);
    }
    for list in policies.as_paths.as_slice() {
        show_path_list(out, list);
    }
    for list in policies.access.as_slice() {
        show_access_list(out, list);
    }
    for map in policies.maps.as_slice() {
        show_map(out, map);
    }
}
