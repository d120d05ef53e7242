//! The fates that packets can have in a network.

ghost use Rattle.std.specs.Prelude.{◌≡◌, ◌⊎◌, IfOk, OnOk};
ghost use Rattle.std.specs.BTreeSet.{insert_key};
ghost use Rattle.leaving_addresses.specs.Leaving.{leaving};
ghost use Rattle.packet_fates.specs.Ends.{AreThose};
ghost use Rattle.packet_fates.specs.Order.{fate_order};
ghost use Rattle.possible_fates.specs.Possible.{EachFate, HasPossible, IsPossible};
ghost use Rattle.possible_fates.specs.Putting as putting;

use leaving_addresses::leaving_addresses;
use mw_text::{Addr, List, list_of};
use net_model::Net;
use packet_fates::{Fate, put_fate};
use std::alloc::{AllocError, Global};

fn put_delivered(alloc: Global, out: &mut List<Fate>, name: &[u8]) -> Result<(), AllocError>
    ensures { OnOk result (out.new ≡ insert_key fate_order out.old (Fate.Delivered name.now)) }
{
    put_fate(out, Fate::Delivered(list_of(alloc, name)?))
}

fn put_left(alloc: Global, out: &mut List<Fate>, name: &[u8], a: Addr) -> Result<(), AllocError>
    ensures { OnOk result (out.new ≡ insert_key fate_order out.old (Fate.Left name.now a)) }
{
    put_fate(out, Fate::Left(list_of(alloc, name)?, a))
}

// Puts the fates of packets that leave the network at the router of that name.
fn put_leaving(
    alloc: Global,
    out: &mut List<Fate>,
    name: &[u8],
    addresses: &[Addr],
) -> Result<(), AllocError>
    ensures { OnOk result (out.new ≡ putting.put_all out.old (putting.left_at name.now addresses.now)) }
{
    for a in addresses {
        put_left(alloc, out, name, *a)?;
    }
    Ok(())
}

// Puts the fates of packets that end at the router, which has that name.
fn put_router(
    alloc: Global,
    out: &mut List<Fate>,
    net: &Net,
    router: u32,
    name: &[u8],
) -> Result<(), AllocError>
    ensures { OnOk result (out.new
        ≡ putting.put_all out.old (putting.fates_at name.now (leaving net.now.files router))) }
{
    let addresses = leaving_addresses(alloc, net, router)?;
    put_delivered(alloc, out, name)?;
    put_leaving(alloc, out, name, addresses.as_slice())
}

fn put_routers(alloc: Global, out: &mut List<Fate>, net: &Net) -> Result<(), AllocError>
    ensures { OnOk result (out.new
        ≡ putting.put_all out.old (putting.fates_from net.now.files 0 net.now.files)) }
{
    let files = net.routers();
    for (router, file) in files.iter().enumerate() {
        put_router(alloc, out, net, router as u32, file.hostname.as_slice())?;
    }
    Ok(())
}

// Puts all fates that packets can have in the network.
fn put_possible(alloc: Global, out: &mut List<Fate>, net: &Net) -> Result<(), AllocError>
    ensures { OnOk result (out.new ≡ putting.put_all out.old (putting.fates_in net.now.files)) }
{
    put_fate(out, Fate::BlackHole)?;
    put_fate(out, Fate::Loop)?;
    put_routers(alloc, out, net)
}

// What is known of a network: its files keep their limits, and it tracks what they name. So its packets have no other
// fates than the possible ones.
fn know_fates(net: &Net)
    ensures { EachFate net.now.files (IsPossible net.now.files) }
{
    let _files = net.routers();
    let _tracked = net.tracked();
}

/// The fates that packets can have in the network, each once and in their order: to be delivered at one of its routers, to
/// leave it at one to an address to which packets can leave there, to be lost, and to come back. Whichever router a packet
/// begins at, whatever the external peers announce and whatever links fail: in a stable routing its fates are among them.
///
/// # Errors
/// Memory was refused.
pub fn possible_fates(alloc: Global, net: &Net) -> Result<List<Fate>, AllocError>
    ensures those { IfOk result (AreThose (IsPossible net.now.files)) }
    ensures whole { IfOk result (HasPossible net.now.files) }
{
    know_fates(net);
    let mut out = List::new(alloc);
    put_possible(alloc, &mut out, net)?;
    Ok(out)
}

/// The fates that packets can have in one of two networks, each once and in their order: in a stable routing of either the
/// fates of each packet are among them.
///
/// # Errors
/// Memory was refused.
pub fn all_possible(alloc: Global, left: &Net, right: &Net) -> Result<List<Fate>, AllocError>
    ensures those { IfOk result (AreThose (λ fate.
        IsPossible left.now.files fate ⊎ IsPossible right.now.files fate)) }
    ensures left { IfOk result (HasPossible left.now.files) }
    ensures right { IfOk result (HasPossible right.now.files) }
{
    know_fates(left);
    know_fates(right);
    let mut out = List::new(alloc);
    put_possible(alloc, &mut out, left)?;
    put_possible(alloc, &mut out, right)?;
    Ok(out)
}
