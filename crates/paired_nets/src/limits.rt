//! The values that two networks track together.

ghost use Rattle.std.specs.Prelude.{◌≡◌, IfOk};
ghost use Rattle.paired_nets.specs.Refusals as refusals;

use net_parts::tracking::united_tracked;
use route_record::{MOST_TRACKED, Tracked};
use std::alloc::{AllocError, Global};

fn is_over(all: &Tracked) -> bool
    ensures { result ≡ refusals.is_over all.now }
{
    all.communities.as_slice().len() > MOST_TRACKED || all.numbers.as_slice().len() > MOST_TRACKED
}

/// Whether the communities or the AS numbers that both track are too many.
pub fn passes_limit(alloc: Global, left: &Tracked, right: &Tracked) -> Result<bool, AllocError>
    ensures { IfOk result (λ passes. passes ≡ refusals.passes_limit left.now right.now) }
{
    let all = united_tracked(alloc, left, right)?;
    Ok(is_over(&all))
}
