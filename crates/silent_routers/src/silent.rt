//! Which routers are silent.

ghost use Rattle.std.specs.Prelude.{◌≡◌, false};
ghost use Rattle.std.specs.List.{list_all};
ghost use Rattle.std.specs.Option.{option_copied, option_map_or};
ghost use Rattle.net_parts.specs.Sessions as sessions;
ghost use Rattle.silent_routers.specs.Silent as silent;

use ios_ast::{Bgp, File, Neighbour};
use net_parts::ends::process_of;
use net_parts::{Far, SessionEnd};

// An internal peer that is no client of the process.
fn is_plain_peer(process: &Bgp, neighbour: &Neighbour) -> bool
    ensures { result ≡ silent.is_plain_peer process.now neighbour.now }
{
    process.asn == neighbour.asn && !neighbour.client
}

fn has_plain_peers(process: &Bgp) -> bool
    ensures { result ≡ list_all (silent.is_plain_peer process.now) process.now.neighbours }
{
    process
        .neighbours
        .as_slice()
        .iter()
        .all(|neighbour| is_plain_peer(process, neighbour))
}

// Whether all neighbours of a process are such, and it originates nothing.
fn is_silent_process(process: &Bgp) -> bool
    ensures { result ≡ silent.is_silent_process process.now }
{
    has_plain_peers(process)
        && (process.networks.as_slice().len() == 0 && process.redistribute.as_slice().len() == 0)
}

/// Whether a router runs BGP, has internal peers alone of which none is its client, and originates nothing: what it holds
/// goes to no other router (RFC 4271, section 9.2; RFC 4456, section 5).
pub fn is_silent(files: &[File], router: u32) -> bool
    ensures { result ≡ silent.is_silent files.now router }
{
    match process_of(files, router) {
        None => false,
        Some(process) => is_silent_process(process),
    }
}

fn is_silent_end(files: &[File], far: Option<&SessionEnd>) -> bool
    ensures { result ≡ option_map_or (λ end. silent.is_silent files.now end.router) (option_copied far.entry) false }
{
    match far {
        None => false,
        Some(end) => is_silent(files, end.router),
    }
}

/// Whether a silent router lies at the far side of a session.
pub fn is_behind_silent(files: &[File], ends: &[SessionEnd], end: &SessionEnd) -> bool
    requires { ends.now ≡ sessions.ends_of files.now }
    ensures { result ≡ silent.is_behind_silent files.now end.now }
{
    match end.far {
        Far::Outside => false,
        Far::Inside(at) => is_silent_end(files, ends.get(at as usize)),
    }
}
