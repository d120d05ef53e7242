//! What nodes of links say of failed links. Each function only carries its law.

ghost use Rattle.std.specs.Prelude.{◌≡◌, ◌↔◌, ℕ, Contains, List as ListOf, true};
ghost use Rattle.std.specs.List.{list_all};
ghost use Rattle.joined_terms.specs.Joining.{behind};
ghost use Rattle.paired_nets.specs.declared.links.LinkPair.{LinkPair as PairOf};
ghost use Rattle.sym_policy.specs.declared.records.SymNet.{SymNet as NetOf};
ghost use Rattle.sym_policy.specs.Held.{failures_of};
ghost use Rattle.term_store.specs.declared.NodeId.{NodeId as NodeIdOf};
ghost use Rattle.term_store.specs.Terms.{Reading};
ghost use Rattle.ties_beside.specs.Links.{fail_alike, fails};

/// The link at a place has failed by its node exactly where it is one of the failed links that are read.
pub fn failures_law()
    ensures { (w : Reading) (net : NetOf) (at : ℕ) →
        fails w net.down at ≡ true ↔ Contains (failures_of w net).links at }
{}

/// Of all pairs both links have failed or neither exactly where of each pair the one is among the failed links that are
/// read of the first network where the other is among those of the second.
pub fn alike_law()
    ensures { (w : Reading) (places : ListOf NodeIdOf) (a b : NetOf) (pairs : ListOf PairOf) →
        list_all (fail_alike w places a.down b.down) pairs ≡ true
        ↔ ((pair : PairOf) → Contains pairs pair → Contains (failures_of w a).links pair.one
        ↔ Contains (failures_of (behind places w) b).links pair.other) }
{}
