//! Links that two networks have in common.

ghost use Rattle.std.specs.Prelude.{◌≡◌, IfOk, OnOk};
ghost use Rattle.paired_nets.specs.Links as pairs;

use mw_text::List;
use net_model::Net;
use std::alloc::{AllocError, Global};

/// The places of a link that two networks have, among the links of each.
#[derive(Clone, Copy)]
pub struct LinkPair {
    pub one: u32,
    pub other: u32,
}

// Puts the pair of two places, where there is a second one.
fn put_pair(out: &mut List<LinkPair>, one: u32, other: Option<u32>) -> Result<(), AllocError>
    ensures { OnOk result (out.new ≡ pairs.with_pair out.old one other) }
{
    if let Some(other) = other {
        out.items.push(LinkPair { one, other })?;
    }
    Ok(())
}

/// The places of all links that both networks have: those on one subnet.
pub fn common_links(alloc: Global, left: &Net, right: &Net) -> Result<List<LinkPair>, AllocError>
    ensures { IfOk result (pairs.ArePairs left.now.files right.now.files) }
{
    let mut out = List::new(alloc);
    for (at, link) in left.links().iter().enumerate() {
        put_pair(&mut out, at as u32, right.link_at(&link.prefix))?;
    }
    Ok(out)
}
