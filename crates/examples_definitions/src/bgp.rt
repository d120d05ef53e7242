//! BGP: sessions, export and import, the decision process.

ghost use Rattle.std.specs.Prelude.{◌≡◌, true, false, [], ◌∷◌, Some, None, length, map, replicate, slice_get};
ghost use Rattle.std.specs.Option.{option_and_then, option_map};
ghost use Rattle.net_parts.specs.Decisions.{survivors};
ghost use Rattle.net_parts.specs.Exports.{exported, imported};
ghost use Rattle.net_parts.specs.Resolution.{session_up};
ghost use Rattle.net_parts.specs.Sessions.{ends_of};
ghost use Rattle.held_values.specs.Values.{firsts_of, meds_of, next_hops_of, ospf_bits, preferences_of, weights_of};
ghost use Rattle.slot_places.specs.Values.{once};
ghost use Rattle.examples_definitions.specs.Networks.{address, candidate, edge, failed, learnt, message, pair, prefix};

/// E1 has an end towards the external peer, and each router has one towards the other. The session between loopbacks is up
/// while the link between the routers is.
pub fn sessions_of_an_edge()
    ensures ends { map (λ end. end.internal) (ends_of edge) ≡ false ∷ true ∷ true ∷ [] }
    ensures up { option_map (session_up edge (failed [])) (slice_get (ends_of edge) 1) ≡ Some true }
    ensures down { option_map (session_up edge (failed (0 ∷ []))) (slice_get (ends_of edge) 1) ≡ Some false }
    ensures peer_stays { option_map (session_up edge (failed (0 ∷ []))) (slice_get (ends_of edge) 0) ≡ Some true }
{}

/// A path with the own AS is refused, and a message whose originator is the router itself; another originator is kept.
pub fn imports_at_an_edge()
    ensures own_as { option_and_then (λ end. imported edge end (prefix 0 0) (message (65001 ∷ 65000 ∷ []) 3221225986 None)) (slice_get (ends_of edge) 0) ≡ None }
    ensures own_originator { option_and_then (λ end. imported edge end (prefix 0 0) (message (65009 ∷ []) 184483842 (Some (address 184483841)))) (slice_get (ends_of edge) 1) ≡ None }
    ensures other_originator { option_and_then (λ end. imported edge end (prefix 0 0) (message (65009 ∷ []) 184483842 (Some (address 184483849)))) (slice_get (ends_of edge) 1) ≡ Some (learnt 184483842 (65009 ∷ []) 184483842 (Some (address 184483849))) }
    ensures longest { option_map (λ rec. length rec.path) (option_and_then (λ end. imported edge end (prefix 0 0) (message (replicate 255 65001) 3221225986 None)) (slice_get (ends_of edge) 0)) ≡ Some 255 }
    ensures too_long { option_map (λ rec. length rec.path) (option_and_then (λ end. imported edge end (prefix 0 0) (message (replicate 256 65001) 3221225986 None)) (slice_get (ends_of edge) 0)) ≡ None }
{}

/// A route is not sent back on its session, nor to another internal peer; over an external session the own AS is put in
/// front.
pub fn exports_at_an_edge()
    ensures not_back { option_and_then (λ end. exported edge end (prefix 0 0) (learnt 184483841 (65009 ∷ []) 184483841 None)) (slice_get (ends_of edge) 2) ≡ None }
    ensures own_as_in_front { option_map (λ sent. sent.path) (option_and_then (λ end. exported edge end (prefix 0 0) (learnt 184483842 (65009 ∷ []) 184483842 None)) (slice_get (ends_of edge) 0)) ≡ Some (65000 ∷ 65009 ∷ []) }
    ensures path_of_256 { option_map (λ sent. length sent.path) (option_and_then (λ end. exported edge end (prefix 0 0) (learnt 184483842 (replicate 255 65009) 184483842 None)) (slice_get (ends_of edge) 0)) ≡ Some 256 }
{}

/// Held routes at the edge have the weight of a neighbour or of a local route, and next hops that are neighbours; the first
/// AS number of a path is the external peer's, and none is said of the two internal neighbours. No line says a MED; an OSPF
/// route costs at most 1 and, for each of the two routers, 1 more. Where a line redistributes BGP routes the default metric
/// of 20 counts too.
pub fn values_at_an_edge()
    ensures weights { once (weights_of edge) ≡ 0 ∷ 32768 ∷ [] }
    ensures preferences { once (preferences_of edge) ≡ 100 ∷ [] }
    ensures meds { once (meds_of edge) ≡ 0 ∷ [] }
    ensures metrics { ospf_bits edge ≡ 2 }
    ensures brought { ospf_bits pair ≡ 5 }
    ensures next_hops { once (next_hops_of edge) ≡ 0 ∷ 3221225986 ∷ 184483842 ∷ 184483841 ∷ [] }
    ensures firsts { once (firsts_of edge) ≡ 0 ∷ 65001 ∷ [] }
{}

/// Three routes of which pairs would go round: the MED removes the third, which has the first one's neighbouring AS, and
/// then the identifier the first. Without the comparison of identifiers the first two are left.
pub fn decision_without_pairs()
    ensures by_identifier { survivors false true (candidate 65001 10 50529027 ∷ candidate 65002 5 33686018 ∷ candidate 65001 20 16843009 ∷ []) ≡ candidate 65002 5 33686018 ∷ [] }
    ensures by_age { survivors false false (candidate 65001 10 50529027 ∷ candidate 65002 5 33686018 ∷ candidate 65001 20 16843009 ∷ []) ≡ candidate 65001 10 50529027 ∷ candidate 65002 5 33686018 ∷ [] }
    ensures always_compared { survivors true false (candidate 65001 10 50529027 ∷ candidate 65002 5 33686018 ∷ candidate 65001 20 16843009 ∷ []) ≡ candidate 65002 5 33686018 ∷ [] }
{}
