//! Access lists at interfaces.

ghost use Rattle.std.specs.Prelude.{◌≡◌};
ghost use Rattle.std.specs.List.{find};
ghost use Rattle.std.specs.Option.{option_copied};
ghost use Rattle.mw_text.specs.Text.{same_text};
ghost use Rattle.net_parts.specs.Sending.{permitted_by_list};
ghost use Rattle.question_lang.specs.Hops as hops;

use ios_ast::{AccessList, File, Use};
use mw_text::same_bytes;
use net_model::{IfaceId, Net};
use policy_eval::access_list;
use question_lang::{End, Hop};
use route_record::Packet;

fn find_list<'a>(file: &'a File, name: &[u8]) -> Option<&'a AccessList>
    ensures { option_copied result ≡ find (λ l. same_text l.name name.now) file.now.policies.access }
{
    file.policies
        .access
        .as_slice()
        .iter()
        .find(|list| same_bytes(list.name.as_slice(), name))
}

// Whether the access list of that name in the file permits the packet. One that is not there denies.
#[tactic(auto, unfolding(net_parts::specs::Sending::permitted_by_list))]
fn list_permits(file: &File, named: &Use, packet: &Packet) -> bool
    ensures { result ≡ permitted_by_list file.now named.now packet.now }
{
    match find_list(file, named.name.as_slice()) {
        None => false,
        Some(list) => access_list(list, packet),
    }
}

// An interface without a list permits every packet.
fn permits(file: &File, packet: &Packet, list: &Option<Use>) -> bool
    ensures { result ≡ hops.permits file.now packet.now list.now }
{
    match list {
        None => true,
        Some(named) => list_permits(file, named, packet),
    }
}

/// Whether the in list of the interface permits the packet.
#[tactic(auto, unfolding(question_lang::specs::Hops::permits_in))]
pub fn permits_in(net: &Net, packet: &Packet, i: IfaceId) -> bool
    ensures { result ≡ hops.permits_in net.now.files packet.now i }
{
    match net.routers().get(i.router as usize) {
        None => true,
        Some(file) => match file.interfaces.as_slice().get(i.at as usize) {
            None => true,
            Some(iface) => permits(file, packet, &iface.list_in),
        },
    }
}

#[tactic(auto, unfolding(question_lang::specs::Hops::permits_out))]
fn permits_out(net: &Net, packet: &Packet, i: IfaceId) -> bool
    ensures { result ≡ hops.permits_out net.now.files packet.now i }
{
    match net.routers().get(i.router as usize) {
        None => true,
        Some(file) => match file.interfaces.as_slice().get(i.at as usize) {
            None => true,
            Some(iface) => permits(file, packet, &iface.list_out),
        },
    }
}

/// What becomes of a packet that comes in at an interface: its in list tests it.
pub fn arrive(net: &Net, packet: &Packet, i: IfaceId) -> Hop
    ensures { result ≡ hops.arrive net.now.files packet.now i }
{
    if permits_in(net, packet, i) {
        Hop::To(i)
    } else {
        Hop::Ends(End::DeniedIn(i))
    }
}

/// What becomes of a packet that goes out of an interface: its out list tests it before this hop.
pub fn depart(net: &Net, packet: &Packet, out: IfaceId, hop: Hop) -> Hop
    ensures { result ≡ hops.depart net.now.files packet.now out hop }
{
    if permits_out(net, packet, out) {
        hop
    } else {
        Hop::Ends(End::DeniedOut)
    }
}
