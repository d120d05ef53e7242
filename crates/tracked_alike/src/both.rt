//! What two networks track, given to both.

ghost use Rattle.std.specs.Prelude.{◌≡◌, ◌⊎◌, ◌≤◌, None, OnErr, OnOk, length};
ghost use Rattle.net_parts.specs.Tracked.{united_tracked};
ghost use Rattle.paired_nets.specs.Refusals.{pair_refusal};
ghost use Rattle.tracked_alike.specs.United.{AreUnited};

use net_model::Net;
use std::alloc::{AllocError, Global};

/// Has two networks that are compared track the same values: all that either tracks. Neither tracks more cluster
/// identifiers than it has routers, as every network does that was built of files. Where there is no memory for it, the
/// right network stays as it was, and the left one tracks what it did or all.
///
/// # Errors
/// Memory was refused.
pub fn track_both(alloc: Global, left: &mut Net, right: &mut Net) -> Result<(), AllocError>
    requires compared { pair_refusal left.old right.old ≡ None }
    requires left_clusters { length left.old.tracked.clusters ≤ length left.old.files }
    requires right_clusters { length right.old.tracked.clusters ≤ length right.old.files }
    ensures left { OnOk result
        (left.new ≡ record left.old { tracked = united_tracked left.old.tracked right.old.tracked }) }
    ensures right { OnOk result (right.new ≡ record right.old { tracked = left.new.tracked }) }
    ensures united { OnOk result (AreUnited left.old.tracked right.old.tracked left.new.tracked) }
    ensures left_stays { OnErr result ((left.new ≡ left.old)
        ⊎ (left.new ≡ record left.old { tracked = united_tracked left.old.tracked right.old.tracked })) }
    ensures right_stays { OnErr result (right.new ≡ right.old) }
{
    let _routers = left.routers().len();
    let _others = right.routers().len();
    let _known = left.tracked();
    left.track_more(alloc, right.tracked())?;
    right.track_more(alloc, left.tracked())
}
