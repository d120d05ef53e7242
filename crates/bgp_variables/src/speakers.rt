//! At which places BGP can have a route.

ghost use Rattle.std.specs.Prelude.{◌≡◌, ◌==◌, false, length, nat_lt};
ghost use Rattle.std.specs.List.{list_any};
ghost use Rattle.std.specs.Option.{option_copied, option_map_or};
ghost use Rattle.net_parts.specs.Sessions as sessions;
ghost use Rattle.bgp_variables.specs.Brought as brought;

use ios_ast::{Bgp, File};
use net_model::Net;
use net_parts::ends::{is_outside, process_of};
use plan_places::Place;

fn redistributes(process: &Bgp) -> bool
    ensures { result ≡ nat_lt 0 (length process.now.redistribute) }
{
    process.redistribute.as_slice().len() > 0
}

fn has_network(process: &Bgp, len: u8) -> bool
    ensures { result ≡ list_any (λ line. line.prefix.len == len) process.now.networks }
{
    let networks = process.networks.as_slice();
    networks.iter().any(|line| line.prefix.len == len)
}

// Whether lines of a process may give a route of that length.
fn may_originate(process: &Bgp, len: u8) -> bool
    ensures { result ≡ brought.may_originate len process.now }
{
    redistributes(process) || has_network(process, len)
}

fn file_originates(file: &File, len: u8) -> bool
    ensures { result ≡ option_map_or (brought.may_originate len) file.now.bgp false }
{
    match &file.bgp {
        None => false,
        Some(process) => may_originate(process, len),
    }
}

fn has_peers(net: &Net) -> bool
    ensures { result ≡ list_any (λ end. sessions.is_outside end.far) (sessions.ends_of net.now.files) }
{
    net.ends().iter().any(|end| is_outside(end))
}

fn some_originates(files: &[File], len: u8) -> bool
    ensures { result ≡ list_any (λ file. option_map_or (brought.may_originate len) file.bgp false) files.now }
{
    files.iter().any(|file| file_originates(file, len))
}

// Whether some router of the network may hold a BGP route of that length.
fn brings_bgp(net: &Net, len: u8) -> bool
    ensures { result ≡ brought.brings_bgp net.now.files len }
{
    has_peers(net) || some_originates(net.routers(), len)
}

/// The BGP process of the router at a place, where its slot there can hold a route: an external peer may announce one of
/// any length, and lines of the network's processes give some (RFC 4271, sections 3.1 and 9.4).
pub fn speaker_at(net: &Net, p: Place) -> Option<&Bgp>
    ensures { option_copied result ≡ brought.speaker_at net.now.files p.router p.len }
{
    if brings_bgp(net, p.len) {
        process_of(net.routers(), p.router)
    } else {
        None
    }
}
