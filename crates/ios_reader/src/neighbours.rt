//! Puts the lines on a neighbour into a BGP process.

ghost use Rattle.std.specs.Prelude.{◌≡◌, ◌≢◌, ◌==◌, ◌<◌, IfOk, IfErr, IfSome, Ok, Err, length, position};
ghost use Rattle.ios_reader.specs.Neighbours.{place_of, use_of, with_new, with_flag, with_prefix_list, with_map, with_filter, used_by, changed_by, with_changed, with_neighbour};

use crate::bgp::neighbour_named;
use ios_ast::{MOST_NEIGHBOURS, Neighbour, Use};
use ios_policy_reader::growing::add_to;
use ios_policy_reader::said::{address_said_under, is_said, number_said};
use ios_policy_reader::values::list_name;
use ios_policy_reader::{Cause, Said, Tag};
use mw_text::{Addr, Line, List};
use std::alloc::{AllocError, Global};

/// The place of the neighbour with that address.
pub fn place_of_neighbour(neighbours: &[Neighbour], address: Addr) -> Option<usize>
    ensures value { result ≡ place_of address neighbours.now }
    ensures within { IfSome result (λ at. at < length neighbours.now) }
{
    neighbours.iter().position(|one| one.addr.0 == address.0)
}

/// Puts a `remote-as` line: a neighbour with another address than each before.
fn put_new(line: u32, said: &[Said], neighbours: &mut List<Neighbour>) -> Result<(), Cause>
    ensures ok { IfOk result (λ _. with_new line said.now neighbours.old ≡ Ok neighbours.new) }
    ensures refused { IfErr result (λ cause. cause ≢ Cause.Memory → with_new line said.now neighbours.old ≡ Err cause) }
{
    let address = address_said_under(Tag::Address, said, Addr(0));
    if place_of_neighbour(neighbours.as_slice(), address).is_some() {
        return Err(Cause::Repeated);
    }
    if neighbours.items.len() >= MOST_NEIGHBOURS {
        return Err(Cause::Limit);
    }
    add_to(neighbours, neighbour_named(line, said))?;
    Ok(())
}

/// Sets what a line without a name says of a neighbour.
fn set_flag(said: &[Said], neighbour: &mut Neighbour)
    ensures { neighbour.new ≡ with_flag said.now neighbour.old }
{
    if is_said(Tag::NextHopSelf, said) {
        neighbour.next_hop_self = true;
    } else if is_said(Tag::Client, said) {
        neighbour.client = true;
    } else if is_said(Tag::SendCommunity, said) {
        neighbour.send_community = true;
    } else if is_said(Tag::Weight, said) {
        neighbour.weight = number_said(Tag::Number, said, 0);
    } else if is_said(Tag::Shutdown, said) {
        neighbour.shutdown = true;
    }
}

/// Sets the prefix list, the route map or the filter list of a direction, or the interface whose address is used.
fn set_use(said: &[Said], used: Use, neighbour: &mut Neighbour)
    ensures { neighbour.new ≡ used_by said.now used neighbour.old }
{
    let is_in = number_said(Tag::Direction, said, 0) == 1;
    if is_said(Tag::PrefixList, said) {
        if is_in {
            neighbour.prefix_in = Some(used);
        } else {
            neighbour.prefix_out = Some(used);
        }
    } else if is_said(Tag::Map, said) {
        if is_in {
            neighbour.map_in = Some(used);
        } else {
            neighbour.map_out = Some(used);
        }
    } else if is_said(Tag::FilterList, said) {
        if is_in {
            neighbour.filter_in = Some(used);
        } else {
            neighbour.filter_out = Some(used);
        }
    } else if is_said(Tag::UpdateSource, said) {
        neighbour.source = Some(used);
    }
}

/// Changes a neighbour as a line on it says.
fn change(
    alloc: Global,
    line: &Line,
    said: &[Said],
    neighbour: &mut Neighbour,
) -> Result<(), AllocError>
    ensures { IfOk result (λ _. neighbour.new ≡ changed_by line.now said.now neighbour.old) }
{
    let name = list_name(alloc, line.words.as_slice(), said)?;
    let used = Use {
        line: line.number,
        name,
    };
    set_flag(said, neighbour);
    set_use(said, used, neighbour);
    Ok(())
}

/// Puts a line on a neighbour that a `remote-as` line named.
fn put_changed(
    alloc: Global,
    line: &Line,
    said: &[Said],
    neighbours: &mut List<Neighbour>,
) -> Result<(), Cause>
    ensures ok { IfOk result (λ _. with_changed line.now said.now neighbours.old ≡ Ok neighbours.new) }
    ensures refused { IfErr result (λ cause. cause ≢ Cause.Memory → with_changed line.now said.now neighbours.old ≡ Err cause) }
{
    let address = address_said_under(Tag::Address, said, Addr(0));
    let Some(at) = place_of_neighbour(neighbours.as_slice(), address) else {
        return Err(Cause::OutOfPlace);
    };
    change(alloc, line, said, &mut neighbours.items[at])?;
    Ok(())
}

/// Puts a line on a neighbour.
pub fn put_neighbour(
    alloc: Global,
    line: &Line,
    said: &[Said],
    neighbours: &mut List<Neighbour>,
) -> Result<(), Cause>
    ensures ok { IfOk result (λ _. with_neighbour line.now said.now neighbours.old ≡ Ok neighbours.new) }
    ensures refused { IfErr result (λ cause. cause ≢ Cause.Memory → with_neighbour line.now said.now neighbours.old ≡ Err cause) }
{
    if is_said(Tag::Remote, said) {
        put_new(line.number, said, neighbours)
    } else {
        put_changed(alloc, line, said, neighbours)
    }
}
