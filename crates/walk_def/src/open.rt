//! Interfaces that are up while some links have failed.

ghost use Rattle.std.specs.Prelude.{◌≡◌, ◌==◌, ◌&&◌, IfOk};
ghost use Rattle.net_parts.specs.Routing.{up_interfaces};
ghost use Rattle.net_parts.specs.World as world;
ghost use Rattle.question_lang.specs.Hops as hops;

use net_model::{Addressed, Net};
use route_record::Failures;
use std::alloc::{AllocError, Global};

/// All interfaces that have an address and are up.
pub fn all_up(alloc: Global, net: &Net, failures: &Failures) -> Result<Vec<Addressed>, AllocError>
    ensures { IfOk result (λ up. up.items ≡ hops.all_up net.now.files failures.now) }
{
    net.addresses()
        .iter()
        .copied()
        .filter(|x| net.is_up_with(failures, x))
        .collect(alloc)
}

fn is_up_on(net: &Net, failures: &Failures, router: u32, x: &Addressed) -> bool
    ensures { result ≡ ((x.now.id.router == router) && world.is_up net.now.files failures.now x.now) }
{
    x.id.router == router && net.is_up_with(failures, x)
}

/// The interfaces of a router that have an address and are up.
pub fn own_up(
    alloc: Global,
    net: &Net,
    failures: &Failures,
    router: u32,
) -> Result<Vec<Addressed>, AllocError>
    ensures { IfOk result (λ up. up.items ≡ up_interfaces net.now.files failures.now router) }
{
    net.addresses()
        .iter()
        .copied()
        .filter(|x| is_up_on(net, failures, router, x))
        .collect(alloc)
}
