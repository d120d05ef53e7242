//! The parts of a route as terms: what route maps see and may set, and what they leave.

ghost use Rattle.std.specs.Prelude.{◌≡◌, length};

use term_arith::Bits;
use term_store::NodeId;

/// A path by its shape: its length, its ends, and one node for each tracked number.
#[derive(Drop)]
pub struct SymPath {
    pub len: Bits,
    pub first: Bits,
    pub last: Bits,
    pub numbers: Bits,
    pub ghost len_wide: { length len.nodes.items ≡ 32 },
    pub ghost first_wide: { length first.nodes.items ≡ 32 },
    pub ghost last_wide: { length last.nodes.items ≡ 32 },
}

/// The numbers by which routes are preferred.
#[derive(Drop)]
pub struct SymPreferences {
    pub weight: Bits,
    pub local_pref: Bits,
    pub med: Bits,
    pub origin: Bits,
    pub ghost weight_wide: { length weight.nodes.items ≡ 32 },
    pub ghost local_pref_wide: { length local_pref.nodes.items ≡ 32 },
    pub ghost med_wide: { length med.nodes.items ≡ 32 },
    pub ghost origin_wide: { length origin.nodes.items ≡ 2 },
}

/// What route maps see of a route: beside its path one node for each tracked community, and whether it is redistributed
/// as one of type 1.
#[derive(Drop)]
pub struct SymRoute {
    pub preferences: SymPreferences,
    pub path: SymPath,
    pub communities: Bits,
    pub type1: NodeId,
}

/// What a route map makes of a route: the route, where `valid` is true.
#[derive(Drop)]
pub(crate) struct SymMade {
    pub valid: NodeId,
    pub route: SymRoute,
}

/// What route maps never set of a record.
#[derive(Drop)]
pub struct SymRest {
    pub next_hop: Bits,
    pub originator: Bits,
    pub from: Bits,
    pub cluster_len: Bits,
    pub clusters: Bits,
    pub ghost next_hop_wide: { length next_hop.nodes.items ≡ 32 },
    pub ghost originator_wide: { length originator.nodes.items ≡ 33 },
    pub ghost from_wide: { length from.nodes.items ≡ 33 },
    pub ghost cluster_len_wide: { length cluster_len.nodes.items ≡ 32 },
}
