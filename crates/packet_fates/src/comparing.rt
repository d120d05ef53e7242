//! The fates of a packet in two networks.

ghost use Rattle.std.specs.Prelude.{◌≡◌, ◌<◌, IfOk, IfSome, None, length};
ghost use Rattle.packet_fates.specs.Fates.{HasFate};
ghost use Rattle.packet_fates.specs.Sides as sides;

use crate::apart::{Apart, first_apart};
use crate::ends::fates;
use net_model::Net;
use route_record::World;
use std::alloc::{AllocError, Global};

/// The first fate, in their order, that the packet of a world has in the left network from the one router, and that
/// of a world of the right one does not have from the other, or the other way round. None where the fates are the
/// same.
///
/// # Errors
/// Memory was refused.
#[tactic(auto, using(crate::proofs::Firsts::apart_for, crate::proofs::Firsts::same_for))]
pub fn fate_apart(
    alloc: Global,
    left: &Net,
    right: &Net,
    one: &World,
    other: &World,
    start: u32,
    other_start: u32,
) -> Result<Option<Apart>, AllocError>
    requires left { start < length left.now.files }
    requires right { other_start < length right.now.files }
    ensures some { IfOk result (λ found. IfSome found (λ a.
        sides.IsFirstApart (HasFate left.now.files one.now start) (HasFate right.now.files other.now other_start)
        a.side a.fate)) }
    ensures none { IfOk result (λ found. found ≡ None →
        sides.AreSame (HasFate left.now.files one.now start) (HasFate right.now.files other.now other_start)) }
{
    let own = fates(alloc, left, one, start)?;
    let others = fates(alloc, right, other, other_start)?;
    Ok(first_apart(own, others))
}
