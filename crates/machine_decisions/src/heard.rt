//! What was last heard over OSPF adjacencies.

ghost use Rattle.std.specs.Prelude.{◌≡◌, IfOk, map};
ghost use Rattle.machine_laws.specs.Channels as channels;

use machine_laws::Channel;
use route_record::OspfRec;
use std::alloc::{AllocError, Global};

fn last_record(channel: &Channel<OspfRec>, len: u8) -> Option<OspfRec>
    ensures { result ≡ channels.last_received channel.now len }
{
    match channel.received.as_slice().get(len as usize) {
        None => None,
        Some(rec) => *rec,
    }
}

/// What was last heard for a length over each adjacency, by its place. None is a withdrawal, or nothing.
pub fn heard_records(
    alloc: Global,
    adjacencies: &[Channel<OspfRec>],
    len: u8,
) -> Result<Vec<Option<OspfRec>>, AllocError>
    ensures { IfOk result (λ made. made.items ≡ map (λ c. channels.last_received c len) adjacencies.now) }
{
    let mut made = Vec::new(alloc);
    for channel in adjacencies {
        made.push(last_record(channel, len))?;
    }
    Ok(made)
}
