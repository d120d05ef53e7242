//! Packets and records of routes as terms.

ghost use Rattle.std.specs.Prelude.{◌≡◌, length};

use mw_text::List;
use term_arith::Bits;
use term_store::NodeId;

/// A packet as terms.
#[derive(Debug, Drop)]
pub struct SymPacket {
    pub src: Bits,
    pub dst: Bits,
    pub proto: Bits,
    pub sport: Bits,
    pub dport: Bits,
    pub ghost src_wide: { length src.nodes.items ≡ 32 },
    pub ghost dst_wide: { length dst.nodes.items ≡ 32 },
    pub ghost proto_wide: { length proto.nodes.items ≡ 8 },
    pub ghost sport_wide: { length sport.nodes.items ≡ 16 },
    pub ghost dport_wide: { length dport.nodes.items ≡ 16 },
}

/// A BGP route as terms, which is there where `valid` is true. The lists stand by their shape: a set has one node for
/// each tracked value. The highest bits of `originator` and `from` say that there is an address.
#[derive(Debug, Drop)]
pub struct SymBgp {
    pub valid: NodeId,
    pub weight: Bits,
    pub local_pref: Bits,
    pub origin: Bits,
    pub med: Bits,
    pub next_hop: Bits,
    pub originator: Bits,
    pub from: Bits,
    pub len: Bits,
    pub first: Bits,
    pub last: Bits,
    pub numbers: Bits,
    pub communities: Bits,
    pub cluster_len: Bits,
    pub clusters: Bits,
    pub ghost weight_wide: { length weight.nodes.items ≡ 32 },
    pub ghost local_pref_wide: { length local_pref.nodes.items ≡ 32 },
    pub ghost origin_wide: { length origin.nodes.items ≡ 2 },
    pub ghost med_wide: { length med.nodes.items ≡ 32 },
    pub ghost next_hop_wide: { length next_hop.nodes.items ≡ 32 },
    pub ghost originator_wide: { length originator.nodes.items ≡ 33 },
    pub ghost from_wide: { length from.nodes.items ≡ 33 },
    pub ghost len_wide: { length len.nodes.items ≡ 32 },
    pub ghost first_wide: { length first.nodes.items ≡ 32 },
    pub ghost last_wide: { length last.nodes.items ≡ 32 },
    pub ghost cluster_len_wide: { length cluster_len.nodes.items ≡ 32 },
}

/// An OSPF route as terms, which is there where `valid` is true. Its kind is 0 for internal, 1 and 2 for the external
/// types.
#[derive(Debug, Drop)]
pub struct SymOspf {
    pub valid: NodeId,
    pub kind: Bits,
    pub metric: Bits,
    pub cost: Bits,
    pub ghost kind_wide: { length kind.nodes.items ≡ 2 },
    pub ghost metric_wide: { length metric.nodes.items ≡ 32 },
    pub ghost cost_wide: { length cost.nodes.items ≡ 32 },
}

/// The failed links, by their positions, and the interior distances, by router and then by advertised prefix.
#[derive(Debug, Drop)]
pub struct SymNet {
    pub down: List<NodeId>,
    pub igp: List<SymOspf>,
}

/// What a route map acts on as terms.
#[derive(Debug, Drop)]
pub struct SymMapRec {
    pub bgp: SymBgp,
    pub type1: NodeId,
}
