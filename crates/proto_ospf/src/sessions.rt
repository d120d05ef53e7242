//! Which BGP sessions are up (RFC 4271, section 8.2).

ghost use Rattle.std.specs.Prelude.{◌≡◌, ◌&&◌, ◌<◌, IfOk, Some, length, map, option_map, slice_get};
ghost use Rattle.net_parts.specs.Resolution as resolution;
ghost use Rattle.net_parts.specs.Sessions.{ends_of};
ghost use Rattle.proto_ospf.specs.Reached.{all_reached};

use crate::reached::{Reached, all_distances, resolve_over};
use mw_text::List;
use net_model::{Far, Net, SessionEnd};
use net_parts::ends::neighbour_of;
use route_record::Failures;
use std::alloc::{AllocError, Global};

fn resolves_neighbour(net: &Net, failures: &Failures, all: &[Reached], end: &SessionEnd) -> bool
    requires all { all.now ≡ all_reached net.now.files failures.now }
    ensures { result ≡ resolution.resolves_neighbour net.now.files failures.now end.now }
{
    match neighbour_of(net.routers(), end) {
        None => false,
        Some(neighbour) => resolve_over(net, failures, all, end.router, neighbour.addr).is_some(),
    }
}

fn resolve_each_other(
    net: &Net,
    failures: &Failures,
    all: &[Reached],
    end: &SessionEnd,
    far: &SessionEnd,
) -> bool
    requires all { all.now ≡ all_reached net.now.files failures.now }
    ensures { result ≡ (resolution.resolves_neighbour net.now.files failures.now end.now
        && resolution.resolves_neighbour net.now.files failures.now far.now) }
{
    resolves_neighbour(net, failures, all, end) && resolves_neighbour(net, failures, all, far)
}

fn is_up_between(
    net: &Net,
    failures: &Failures,
    all: &[Reached],
    end: &SessionEnd,
    far: &SessionEnd,
) -> bool
    requires all { all.now ≡ all_reached net.now.files failures.now }
    ensures { result ≡ resolution.is_up_between net.now.files failures.now end.now far.now }
{
    net.is_up(failures, end.own)
        && net.is_up(failures, far.own)
        && (end.shared || resolve_each_other(net, failures, all, end, far))
}

/// Whether the session of an end is up, over these distances: towards an external peer where the router's own interface
/// is; towards another router where both interfaces are, and, over no shared subnet, where both resolve each other.
#[tactic(auto, unfolding(net_parts::specs::Resolution::session_up))]
pub fn is_up_at_end(net: &Net, failures: &Failures, all: &[Reached], end: &SessionEnd) -> bool
    requires all { all.now ≡ all_reached net.now.files failures.now }
    ensures { result ≡ resolution.session_up net.now.files failures.now end.now }
{
    match end.far {
        Far::Outside => net.is_up(failures, end.own),
        Far::Inside(at) => match net.ends().get(at as usize) {
            None => false,
            Some(far) => is_up_between(net, failures, all, end, far),
        },
    }
}

/// Which sessions are up, by their ends.
pub fn sessions_up(
    alloc: Global,
    net: &Net,
    failures: &Failures,
    all: &[Reached],
) -> Result<List<bool>, AllocError>
    requires all { all.now ≡ all_reached net.now.files failures.now }
    ensures { IfOk result (λ up. up ≡ map (resolution.session_up net.now.files failures.now) (ends_of net.now.files)) }
{
    let mut up = List::new(alloc);
    for end in net.ends() {
        up.items.push(is_up_at_end(net, failures, all, end))?;
    }
    Ok(up)
}

/// Whether the session of the end at that place is up: towards an external peer where the router's own interface is;
/// towards another router where both interfaces are, and, over no shared subnet, where both routers resolve each other. Of
/// all ends `sessions_up` answers the same over one table.
pub fn session_up(
    alloc: Global,
    net: &Net,
    failures: &Failures,
    end: u32,
) -> Result<bool, AllocError>
    requires within { end < length (ends_of net.now.files) }
    ensures { IfOk result (λ up. option_map (resolution.session_up net.now.files failures.now) (slice_get (ends_of net.now.files) end) ≡ Some up) }
{
    let all = all_distances(alloc, net, failures)?;
    let ends = net.ends();
    Ok(is_up_at_end(net, failures, all.as_slice(), &ends[end as usize]))
}
