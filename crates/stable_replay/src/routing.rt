//! Tables that are to be a stable routing, and all by which it is told whether they are.

use net_model::Net;
use route_candidates::Underlay;
use route_record::{Environment, Failures, Tables};

/// The tables of a network, while these links have failed and the external peers announce this; and what is up and how far
/// routers are from one another then.
#[derive(Clone, Copy)]
pub struct Routing<'a> {
    pub net: &'a Net,
    pub failures: &'a Failures,
    pub env: &'a Environment,
    pub tables: &'a Tables,
    pub underlay: &'a Underlay,
}
