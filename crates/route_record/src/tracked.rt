//! What is kept of a BGP route's lists, and of what values.

use mw_text::Addr;

/// How many values of one kind are tracked at most: one bit of a set for each.
pub const MOST_TRACKED: usize = 128;

/// The communities, AS numbers and cluster ids that the policies and routers of a network name. Nothing else of a
/// route's lists makes a difference there, but their lengths and the ends of the path.
#[derive(Drop)]
pub struct Tracked {
    pub communities: mw_text::List<u32>,
    pub numbers: mw_text::List<u32>,
    pub clusters: mw_text::List<Addr>,
}

/// What is kept of a route's lists. The first and the last number of an empty path are 0. A set has bit `i` where the
/// tracked value at position `i` stands in the list.
#[derive(Clone, Copy)]
pub struct Shape {
    pub len: u32,
    pub first: u32,
    pub last: u32,
    pub numbers: u128,
    pub communities: u128,
    pub cluster_len: u32,
    pub clusters: u128,
}
