//! Whether two routings, one of each network, answer an ask alike.

ghost use Rattle.std.specs.Prelude.{◌≡◌, IfOk, IfSome, None};
ghost use Rattle.compared_nets.specs.Compared.{AreBeside, AreDifferent, FatesBeside, FatesIn};
ghost use Rattle.packet_fates.specs.Sides.{AreSame};
ghost use Rattle.route_record.specs.declared.Environment.{Environment};
ghost use Rattle.same_asks.specs.Asking.{IsKnown};

use net_model::Net;
use packet_fates::{Apart, fate_apart};
use route_record::World;
use same_asks::Same;
use std::alloc::{AllocError, Global};

/// The first fate, in their order, that packets have in one of two routings alone, where they begin at the router of an
/// ask. Where the two stand side by side, under one packet, one environment and one set of failed links, they are what
/// makes the networks differ. None where the fates are the same.
///
/// # Errors
/// Memory was refused.
pub fn difference(
    alloc: Global,
    left: &Net,
    right: &Net,
    ask: &Same,
    one: &World,
    other: &World,
) -> Result<Option<Apart>, AllocError>
    requires known { IsKnown left.now.files right.now.files ask.now }
    ensures some { IfOk result (λ found. IfSome found (λ a. (around : Environment) (about : Environment) →
        AreBeside left.now.files right.now.files ask.now one.now other.now around about →
        AreDifferent left.now.files right.now.files ask.now one.now other.now a.side a.fate)) }
    ensures none { IfOk result (λ found. found ≡ None →
        AreSame (FatesIn left.now.files one.now ask.now) (FatesBeside right.now.files other.now ask.now)) }
{
    fate_apart(alloc, left, right, one, other, ask.left, ask.right)
}
