//! What every file that was read keeps: so many interfaces and neighbours at most, OSPF costs in their range, the
//! lengths of prefix lists in their order, each neighbour named once, and addresses by different lines.

ghost use Rattle.std.specs.Prelude.{◌≡◌};
ghost use Rattle.std.specs.List.{list_all};
ghost use Rattle.net_interfaces.specs.Limits as limits;

use ios_ast::{File, Iface, MOST_INTERFACES, MOST_NEIGHBOURS, Neighbour, PrefixEntry, PrefixList};

/// The highest cost that a bandwidth gives.
pub const MOST_COST: u64 = 65_535;

fn has_cost_in_range(iface: &Iface) -> bool
    ensures { result ≡ limits.has_cost_in_range iface.now }
{
    match iface.cost {
        None => true,
        Some(cost) => 0 < cost && u64::from(cost) <= MOST_COST,
    }
}

fn have_costs_in_range(interfaces: &[Iface]) -> bool
    ensures { result ≡ list_all limits.has_cost_in_range interfaces.now }
{
    interfaces.iter().all(|iface| has_cost_in_range(iface))
}

fn has_few_neighbours(file: &File) -> bool
    ensures { result ≡ limits.has_few_neighbours file.now }
{
    match &file.bgp {
        None => true,
        Some(bgp) => bgp.neighbours.as_slice().len() <= MOST_NEIGHBOURS,
    }
}

fn has_few_interfaces(file: &File) -> bool
    ensures { result ≡ limits.has_few_interfaces file.now }
{
    file.interfaces.as_slice().len() <= MOST_INTERFACES
}

fn has_lengths_in_order(entry: &PrefixEntry) -> bool
    ensures { result ≡ limits.has_lengths_in_order entry.now }
{
    entry.prefix.len <= entry.low && entry.low <= entry.high && entry.high <= 32
}

fn are_in_order(entries: &[PrefixEntry]) -> bool
    ensures { result ≡ list_all limits.has_lengths_in_order entries.now }
{
    entries.iter().all(|entry| has_lengths_in_order(entry))
}

fn have_lengths_in_order(lists: &[PrefixList]) -> bool
    ensures { result ≡ limits.have_lengths_in_order lists.now }
{
    lists
        .iter()
        .all(|list| are_in_order(list.entries.as_slice()))
}

fn is_named_by_none(neighbour: &Neighbour, others: &[Neighbour]) -> bool
    ensures { result ≡ list_all (limits.have_two_addresses neighbour.now) others.now }
{
    others.iter().all(|other| neighbour.addr != other.addr)
}

fn are_named_once(neighbours: &[Neighbour]) -> bool
    ensures { result ≡ limits.each_pair limits.have_two_addresses neighbours.now }
{
    for (at, neighbour) in neighbours.iter().enumerate() {
        if !is_named_by_none(neighbour, &neighbours[at + 1..]) {
            return false;
        }
    }
    true
}

fn names_neighbours_once(file: &File) -> bool
    ensures { result ≡ limits.names_neighbours_once file.now }
{
    match &file.bgp {
        None => true,
        Some(bgp) => are_named_once(bgp.neighbours.as_slice()),
    }
}

fn have_two_lines(iface: &Iface, other: &Iface) -> bool
    ensures { result ≡ limits.have_two_lines iface.now other.now }
{
    match (&iface.address, &other.address) {
        (Some(own), Some(address)) => own.line != address.line,
        _ => true,
    }
}

fn has_own_line(iface: &Iface, others: &[Iface]) -> bool
    ensures { result ≡ list_all (limits.have_two_lines iface.now) others.now }
{
    others.iter().all(|other| have_two_lines(iface, other))
}

fn have_lines_apart(interfaces: &[Iface]) -> bool
    ensures { result ≡ limits.each_pair limits.have_two_lines interfaces.now }
{
    for (at, iface) in interfaces.iter().enumerate() {
        if !has_own_line(iface, &interfaces[at + 1..]) {
            return false;
        }
    }
    true
}

fn keeps_limits(file: &File) -> bool
    ensures { result ≡ limits.keeps_limits file.now }
{
    has_few_interfaces(file)
        && has_few_neighbours(file)
        && have_costs_in_range(file.interfaces.as_slice())
        && have_lengths_in_order(file.policies.prefix_lists.as_slice())
        && names_neighbours_once(file)
        && have_lines_apart(file.interfaces.as_slice())
}

/// Whether each file keeps the limits of a file, as every file that was read does.
pub fn keep_limits(files: &[File]) -> bool
    ensures { result ≡ list_all limits.keeps_limits files.now }
{
    files.iter().all(|file| keeps_limits(file))
}
