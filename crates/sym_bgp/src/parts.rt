//! Candidates as terms, and what the steps of the decision process compare of them.

ghost use Rattle.std.specs.Prelude.{◌≡◌, [], ◌∷◌, length};

use sym_policy::SymBgp;
use term_arith::Bits;
use term_store::NodeId;

/// A candidate of the decision process, which is there where its route is: whether it was learnt over an external
/// session, the cost to its next hop, and the identifier of the peer from which it came.
#[derive(Drop)]
pub struct SymCand {
    pub rec: SymBgp,
    pub external: NodeId,
    pub cost: Bits,
    pub peer_id: Bits,
    pub ghost cost_wide: { length cost.nodes.items ≡ 32 },
    pub ghost peer_id_wide: { length peer_id.nodes.items ≡ 32 },
}

/// A mark, as a node and as a number of one bit.
#[derive(Drop)]
pub(crate) struct SymMark {
    pub node: NodeId,
    pub bit: Bits,
    pub ghost is: { bit.nodes.items ≡ node ∷ [] },
}

/// What the first steps compare.
#[derive(Drop)]
pub(crate) struct SymRank {
    pub weight: Bits,
    pub local_pref: Bits,
    pub local: SymMark,
    pub len: Bits,
    pub ghost weight_wide: { length weight.nodes.items ≡ 32 },
    pub ghost local_pref_wide: { length local_pref.nodes.items ≡ 32 },
    pub ghost len_wide: { length len.nodes.items ≡ 32 },
}

/// What the next steps compare.
#[derive(Drop)]
pub(crate) struct SymReach {
    pub origin: Bits,
    pub first: Bits,
    pub med: Bits,
    pub external: SymMark,
    pub ghost origin_wide: { length origin.nodes.items ≡ 2 },
    pub ghost first_wide: { length first.nodes.items ≡ 32 },
    pub ghost med_wide: { length med.nodes.items ≡ 32 },
}

/// What the last steps compare.
#[derive(Drop)]
pub(crate) struct SymTie {
    pub cost: Bits,
    pub id: Bits,
    pub clusters: Bits,
    pub address: Bits,
    pub ghost cost_wide: { length cost.nodes.items ≡ 32 },
    pub ghost id_wide: { length id.nodes.items ≡ 32 },
    pub ghost clusters_wide: { length clusters.nodes.items ≡ 32 },
    pub ghost address_wide: { length address.nodes.items ≡ 32 },
}

/// All that the steps compare of a candidate.
#[derive(Drop)]
pub(crate) struct SymKey {
    pub rank: SymRank,
    pub reach: SymReach,
    pub tie: SymTie,
}

/// An address that may be missing: whether it is there, and its number.
#[derive(Drop)]
pub(crate) struct SymAddress {
    pub there: NodeId,
    pub number: Bits,
    pub ghost wide: { length number.nodes.items ≡ 32 },
}

/// The best of some numbers, where there is one.
#[derive(Drop)]
pub(crate) struct SymBest {
    pub there: NodeId,
    pub number: Bits,
}

/// What is left beside a held route: whether nothing was better than it so far, and the flags of what is as good.
#[derive(Drop)]
pub(crate) struct SymBeside {
    pub unbeaten: NodeId,
    pub flags: Bits,
}

/// How a route goes on that was learnt over an end that is known: whether it may go, whether it gets the own address as
/// next hop over an internal session, whether it is reflected, and the identifier of the peer from which it came.
#[derive(Clone, Copy)]
pub(crate) struct Way {
    pub may: bool,
    pub own_hop: bool,
    pub reflected: bool,
    pub peer: u32,
}

/// How a route goes on, as terms.
#[derive(Drop)]
pub(crate) struct SymCrossing {
    pub may: NodeId,
    pub own_hop: NodeId,
    pub reflected: NodeId,
    pub peer: Bits,
    pub ghost peer_wide: { length peer.nodes.items ≡ 32 },
}
