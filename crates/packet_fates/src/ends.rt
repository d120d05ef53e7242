//! The fates of the packet of a world.

ghost use Rattle.std.specs.Prelude.{◌≡◌, ◌<◌, ◌^◌, IfOk, OnOk, fold, length};
ghost use Rattle.packet_fates.specs.Ends as ends;
ghost use Rattle.packet_fates.specs.Fates as fates;
ghost use Rattle.packet_fates.specs.Reaching as reaching;

use crate::fate::Fate;
use crate::ordered::put_fate;
use crate::reaching::reached_from;
use crate::rounds::some_round;
use ios_ast::File;
use mw_text::{List, list_of};
use net_model::Net;
use question_lang::{End, Hop};
use route_record::World;
use std::alloc::{AllocError, Global};
use walk_def::hops::all_hops;
use walk_def::marks::is_known;

// The fate that a hop of the router of that name is.
fn fate_by(alloc: Global, name: &[u8], hop: &Hop) -> Result<Option<Fate>, AllocError>
    ensures { IfOk result (λ fate. fate ≡ fates.fate_by name.now hop.now) }
{
    match hop {
        Hop::Ends(End::Delivered) => Ok(Some(Fate::Delivered(list_of(alloc, name)?))),
        Hop::Ends(End::Left(a)) => Ok(Some(Fate::Left(list_of(alloc, name)?, *a))),
        Hop::Ends(End::NoRoute) => Ok(Some(Fate::BlackHole)),
        Hop::Ends(End::Discarded) => Ok(Some(Fate::BlackHole)),
        _ => Ok(None),
    }
}

fn put_hop(alloc: Global, out: &mut List<Fate>, name: &[u8], hop: &Hop) -> Result<(), AllocError>
    ensures { OnOk result (out.new ≡ ends.put_hop name.now out.old hop.now) }
{
    match fate_by(alloc, name, hop)? {
        None => Ok(()),
        Some(fate) => put_fate(out, fate),
    }
}

// Puts the fates that these hops of the router of that name are.
fn put_hops(alloc: Global, out: &mut List<Fate>, name: &[u8], own: &[Hop]) -> Result<(), AllocError>
    ensures { OnOk result (out.new ≡ fold (ends.put_hop name.now) out.old own.now) }
{
    for hop in own {
        put_hop(alloc, out, name, hop)?;
    }
    Ok(())
}

// The fates that the ends of the marked routers are.
fn ends_of(
    alloc: Global,
    files: &[File],
    all: &[List<Hop>],
    marks: &[bool],
) -> Result<List<Fate>, AllocError>
    requires few { length all.now < 2 ^ 32 }
    requires same { length all.now ≡ length files.now }
    ensures { IfOk result (ends.AreThose (ends.IsEndOf files.now all.now marks.now)) }
{
    let mut out = List::new(alloc);
    for (at, file) in files.iter().enumerate() {
        if is_known(marks, at as u32) {
            put_hops(
                alloc,
                &mut out,
                file.hostname.as_slice(),
                all[at].as_slice(),
            )?;
        }
    }
    Ok(out)
}

// The same, and that of a walk which comes back to where it stood.
fn fates_over(
    alloc: Global,
    files: &[File],
    all: &[List<Hop>],
    marks: &[bool],
) -> Result<List<Fate>, AllocError>
    requires few { length all.now < 2 ^ 32 }
    requires inside { reaching.AreInside all.now }
    requires same { length all.now ≡ length files.now }
    ensures { IfOk result (ends.AreThose (ends.IsFateOf files.now all.now marks.now)) }
{
    let mut out = ends_of(alloc, files, all, marks)?;
    if some_round(alloc, all, marks)? {
        put_fate(&mut out, Fate::Loop)?;
    }
    Ok(out)
}

/// The fates of all walks of the world's packet from the router, each once: at which routers it is delivered, in the
/// order of their names; from which it leaves the network and to which address, in the order of both; whether it is
/// lost without a route or at Null0; whether it comes back to where it stood. A walk that a list of an interface denies
/// adds none.
///
/// # Errors
/// Memory was refused.
pub fn fates(alloc: Global, net: &Net, world: &World, start: u32) -> Result<List<Fate>, AllocError>
    requires { start < length net.now.files }
    ensures { IfOk result (fates.AreFates net.now.files world.now start) }
{
    let hops = all_hops(alloc, net, world)?;
    let marks = reached_from(alloc, hops.as_slice(), start)?;
    fates_over(alloc, net.routers(), hops.as_slice(), marks.as_slice())
}
