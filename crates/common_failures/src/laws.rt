//! What two sets of failed links say that are tied and counted. Each function only carries its law.

ghost use Rattle.std.specs.Prelude.{◌≡◌, ◌+◌, ◌≤◌, ◌↔◌, ℕ, List as ListOf, count_by, length, nat_le, true};
ghost use Rattle.common_failures.specs.Failing.{FailAlike, own_failed};
ghost use Rattle.ios_ast.specs.declared.file.File.{File as FileOf};
ghost use Rattle.joined_terms.specs.Joining.{behind};
ghost use Rattle.net_parts.specs.World.{IsFailureSet};
ghost use Rattle.paired_nets.specs.Common.{AreCommonFailures};
ghost use Rattle.paired_nets.specs.Links.{ArePairs};
ghost use Rattle.paired_nets.specs.declared.links.LinkPair.{LinkPair as PairOf};
ghost use Rattle.route_record.specs.declared.Failures.{Failures as FailuresOf};
ghost use Rattle.sym_policy.specs.Held.{failures_of};
ghost use Rattle.sym_policy.specs.declared.records.SymNet.{SymNet as NetOf};
ghost use Rattle.term_store.specs.Terms.{Reading, at};
ghost use Rattle.term_store.specs.declared.NodeId.{NodeId as NodeIdOf};
ghost use Rattle.ties_beside.specs.Count.{own_from};

/// Two sets of failed links, one of each of two networks, are the networks' parts of one set of at most k prefixes of
/// links exactly where of each pair of common links both have failed or neither, and where the failed links of the first
/// network, with those of the second one that no pair has, are at most k.
pub fn counted_law()
    ensures from { (left right : ListOf FileOf) (pairs : ListOf PairOf) (k : ℕ) (one other : FailuresOf) →
        ArePairs left right pairs → IsFailureSet left k one → IsFailureSet right k other → FailAlike pairs one other →
        length one.links + length (own_failed pairs other.links) ≤ k → AreCommonFailures left right k one other }
    ensures to { (left right : ListOf FileOf) (pairs : ListOf PairOf) (k : ℕ) (one other : FailuresOf) →
        ArePairs left right pairs → AreCommonFailures left right k one other →
        FailAlike pairs one other × (length one.links + length (own_failed pairs other.links) ≤ k)
        × IsFailureSet left k one × IsFailureSet right k other }
{}

/// Of the nodes of the first network's links, with those of the second one's links that no pair has, at most so many are
/// true exactly where at most so many links are read as failed: those of the first network, with those of the second one
/// that no pair has.
pub fn read_law()
    ensures { (w : Reading) (places : ListOf NodeIdOf) (a b : NetOf) (pairs : ListOf PairOf) (most : ℕ) →
        nat_le (count_by (at w) a.down + count_by (at (behind places w)) (own_from pairs 0 b.down)) most ≡ true
        ↔ length (failures_of w a).links + length (own_failed pairs (failures_of (behind places w) b).links) ≤ most }
{}
