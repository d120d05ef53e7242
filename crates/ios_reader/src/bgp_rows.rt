//! Puts the lines of a BGP block into the process.

ghost use Rattle.std.specs.Prelude.{◌≡◌, ◌≢◌, IfOk, IfErr, Ok, Err};
ghost use Rattle.ios_reader.specs.BgpRows.{names_remote, is_unnamed, with_router_id, with_network, with_redistribution, on_neighbours, bgp_row};

use crate::bgp::{bgp_network, redistribution};
use crate::neighbours::{place_of_neighbour, put_neighbour};
use ios_ast::{Bgp, Neighbour};
use ios_policy_reader::growing::add_to;
use ios_policy_reader::said::address_said_under;
use ios_policy_reader::words::is_word;
use ios_policy_reader::{Cause, Row, Said, Tag};
use mw_text::{Addr, Line, List, read_addr};
use std::alloc::Global;

/// Whether the line goes on with `remote-as` after its address.
fn has_remote_as(words: &[List<u8>]) -> bool
    ensures { result ≡ names_remote words.now }
{
    match words.get(2) {
        Some(word) => is_word(word.as_slice(), b"remote-as"),
        None => false,
    }
}

/// Whether a line on a neighbour stands before the `remote-as` line of its address.
pub fn is_unnamed_neighbour(words: &[List<u8>], neighbours: &[Neighbour]) -> bool
    ensures { result ≡ is_unnamed words.now neighbours.now }
{
    let Some(word) = words.get(1) else {
        return false;
    };
    match read_addr(word.as_slice()) {
        None => false,
        Some(address) => {
            place_of_neighbour(neighbours, address).is_none() && !has_remote_as(words)
        }
    }
}

/// Sets the router id, which is written once.
fn put_router_id(said: &[Said], bgp: &mut Bgp) -> Result<(), Cause>
    ensures ok { IfOk result (λ _. with_router_id said.now bgp.old ≡ Ok bgp.new) }
    ensures refused { IfErr result (λ cause. with_router_id said.now bgp.old ≡ Err cause) }
{
    if bgp.router_id.is_some() {
        return Err(Cause::Repeated);
    }
    bgp.router_id = Some(address_said_under(Tag::Address, said, Addr(0)));
    Ok(())
}

fn put_network(alloc: Global, line: &Line, said: &[Said], bgp: &mut Bgp) -> Result<(), Cause>
    ensures ok { IfOk result (λ _. bgp.new ≡ with_network line.now said.now bgp.old) }
    ensures refused { IfErr result (λ cause. cause ≡ Cause.Memory) }
{
    let network = bgp_network(alloc, line, said)?;
    add_to(&mut bgp.networks, network)?;
    Ok(())
}

fn put_redistribution(alloc: Global, line: &Line, said: &[Said], bgp: &mut Bgp) -> Result<(), Cause>
    ensures ok { IfOk result (λ _. bgp.new ≡ with_redistribution line.now said.now bgp.old) }
    ensures refused { IfErr result (λ cause. cause ≡ Cause.Memory) }
{
    let redist = redistribution(alloc, line, said)?;
    add_to(&mut bgp.redistribute, redist)?;
    Ok(())
}

/// Puts a line of a BGP block.
pub fn put_in_bgp(
    alloc: Global,
    row: Row,
    line: &Line,
    said: &[Said],
    bgp: &mut Bgp,
) -> Result<(), Cause>
    ensures ok { IfOk result (λ _. bgp_row row line.now said.now bgp.old ≡ Ok bgp.new) }
    ensures refused { IfErr result (λ cause. cause ≢ Cause.Memory → bgp_row row line.now said.now bgp.old ≡ Err cause) }
{
    match row {
        Row::RouterId => return put_router_id(said, bgp),
        Row::BgpNetwork => return put_network(alloc, line, said, bgp),
        Row::BgpRedistribute => return put_redistribution(alloc, line, said, bgp),
        Row::Neighbor => return put_neighbour(alloc, line, said, &mut bgp.neighbours),
        Row::AlwaysCompareMed => bgp.always_compare = true,
        Row::CompareRouterId => bgp.compare_routerid = true,
        _ => (),
    }
    Ok(())
}
