//! Access lists at interfaces, as terms.

ghost use Rattle.std.specs.Prelude.{◌≡◌, ℕ, ◌+◌, ◌<◌, ◌≤◌, Bool, true, false, IfOk};
ghost use Rattle.std.specs.List.{find};
ghost use Rattle.std.specs.Option.{option_copied};
ghost use Rattle.mw_text.specs.Text.{same_text};
ghost use Rattle.net_parts.specs.Sending.{permitted_by_list};
ghost use Rattle.question_lang.specs.Hops as hops;
ghost use Rattle.sym_policy.specs.Records.{packet_end};
ghost use Rattle.sym_policy.specs.Packets.{packet_of};
ghost use Rattle.term_store.specs.Terms.{Reading, size, at};
ghost use Rattle.term_store.specs.Reading.{Reads, Builds, Gives};

use ios_ast::{AccessList, File, Use};
use mw_text::same_bytes;
use net_model::{IfaceId, Net};
use std::alloc::{AllocError, Global};
use sym_policy::{SymPacket, sym_access_list};
use term_arith::gates::constant_node;
use term_store::{NodeId, Terms};

fn find_list<'a>(file: &'a File, name: &[u8]) -> Option<&'a AccessList>
    ensures { option_copied result ≡ find (λ l. same_text l.name name.now) file.now.policies.access }
{
    file.policies
        .access
        .as_slice()
        .iter()
        .find(|list| same_bytes(list.name.as_slice(), name))
}

// Whether the access list of that name in the file permits the packet. One that is not there denies.
#[tactic(auto, unfolding(net_parts::specs::Sending::permitted_by_list))]
fn sym_list_permits(
    alloc: Global,
    terms: &mut Terms,
    file: &File,
    named: &Use,
    packet: &SymPacket,
) -> Result<NodeId, AllocError>
    requires { packet_end packet.now ≤ size terms.old }
    ensures builds { Builds terms.old terms.new }
    ensures within { IfOk result (λ r. r.0 < size terms.new) }
    ensures value { Gives terms.new result (λ w r. at w r ≡ permitted_by_list file.now named.now (packet_of w
        packet.now)) }
{
    match find_list(file, named.name.as_slice()) {
        None => constant_node(terms, false),
        Some(list) => sym_access_list(alloc, terms, list, packet),
    }
}

// An interface without a list permits every packet.
fn sym_permits(
    alloc: Global,
    terms: &mut Terms,
    file: &File,
    list: &Option<Use>,
    packet: &SymPacket,
) -> Result<NodeId, AllocError>
    requires { packet_end packet.now ≤ size terms.old }
    ensures builds { Builds terms.old terms.new }
    ensures within { IfOk result (λ r. r.0 < size terms.new) }
    ensures value { Gives terms.new result (λ w r. at w r ≡ hops.permits file.now (packet_of w packet.now) list.now) }
{
    match list {
        None => constant_node(terms, true),
        Some(named) => sym_list_permits(alloc, terms, file, named, packet),
    }
}

/// Whether the in list of the interface permits the packet.
#[tactic(auto, unfolding(question_lang::specs::Hops::permits_in))]
pub fn sym_permits_in(
    alloc: Global,
    terms: &mut Terms,
    net: &Net,
    packet: &SymPacket,
    i: IfaceId,
) -> Result<NodeId, AllocError>
    requires { packet_end packet.now ≤ size terms.old }
    ensures builds { Builds terms.old terms.new }
    ensures within { IfOk result (λ r. r.0 < size terms.new) }
    ensures value { Gives terms.new result (λ w r. at w r ≡ hops.permits_in net.now.files (packet_of w packet.now) i) }
{
    match net.routers().get(i.router as usize) {
        None => constant_node(terms, true),
        Some(file) => match file.interfaces.as_slice().get(i.at as usize) {
            None => constant_node(terms, true),
            Some(iface) => sym_permits(alloc, terms, file, &iface.list_in, packet),
        },
    }
}

/// Whether the out list of the interface permits the packet.
#[tactic(auto, unfolding(question_lang::specs::Hops::permits_out))]
pub fn sym_permits_out(
    alloc: Global,
    terms: &mut Terms,
    net: &Net,
    packet: &SymPacket,
    i: IfaceId,
) -> Result<NodeId, AllocError>
    requires { packet_end packet.now ≤ size terms.old }
    ensures builds { Builds terms.old terms.new }
    ensures within { IfOk result (λ r. r.0 < size terms.new) }
    ensures value { Gives terms.new result (λ w r. at w r ≡ hops.permits_out net.now.files (packet_of w packet.now) i) }
{
    match net.routers().get(i.router as usize) {
        None => constant_node(terms, true),
        Some(file) => match file.interfaces.as_slice().get(i.at as usize) {
            None => constant_node(terms, true),
            Some(iface) => sym_permits(alloc, terms, file, &iface.list_out, packet),
        },
    }
}
