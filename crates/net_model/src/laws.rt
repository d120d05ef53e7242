//! Laws about the definitions of a network. Each function only carries its law.

ghost use Rattle.std.specs.Prelude.{◌≡◌, ◌≢◌, ◌<◌, ℕ, All, Bool, true, Contains, Some, [], slice_get, List as ListOf, Option as OptionOf};
ghost use Rattle.std.specs.List.{find};
ghost use Rattle.mw_text.specs.declared.address.Addr.{Addr as AddrOf};
ghost use Rattle.mw_text.specs.declared.address.Prefix.{Prefix as PrefixOf};
ghost use Rattle.mw_text.specs.Address.{covers};
ghost use Rattle.ios_ast.specs.declared.file.File.{File as FileOf};
ghost use Rattle.ios_ast.specs.declared.file.StaticRoute.{StaticRoute as RouteOf};
ghost use Rattle.route_record.specs.declared.Failures.{Failures as FailuresOf};
ghost use Rattle.net_interfaces.specs.declared.interfaces.Addressed.{Addressed as AddressedOf};
ghost use Rattle.net_interfaces.specs.Connected.{next_hop};
ghost use Rattle.net_parts.specs.Decisions.{Candidate, survivors};
ghost use Rattle.net_parts.specs.Distances.{AreDistances, IsInteriorDistance, interior_distance};
ghost use Rattle.net_interfaces.specs.Interfaces.{LiesOnOne, addressed, subnet_of};
ghost use Rattle.net_refusals.specs.Network.{IsNetwork};
ghost use Rattle.net_parts.specs.Ospf.{adjacencies, advertised};

/// The interior distance from a router to a prefix is the least sum of all walks of adjacencies that are up, whatever
/// their length, to a router that originates the prefix; and there is none exactly where there is no such walk (RFC 2328,
/// section 16.1).
#[tactic(auto, using(net_parts::proofs::LeastWalks::is_interior))]
pub fn interior_distance_law()
    ensures { (files : ListOf FileOf) (failures : FailuresOf) (p : PrefixOf) (router : ℕ) →
        IsInteriorDistance files failures p router (interior_distance files failures router p) }
{}

/// The equations of interior distances have no other solution, since each adjacency costs something: distances of which
/// each is the least of the router's own cost and of what its adjacencies lead to are the interior distances.
pub fn distance_equations_law()
    ensures { (files : ListOf FileOf) (failures : FailuresOf) (p : PrefixOf) (d : ℕ → OptionOf ℕ) →
        All (λ a. 0 < a.cost) (adjacencies files) → AreDistances files failures p d → (router : ℕ) →
        d router ≡ interior_distance files failures router p }
{}

/// The decision process leaves some candidate where there is one, with and without the age rule: so a router that has a
/// candidate holds a route (RFC 4271, section 9.1.2.2).
#[tactic(auto, using(net_parts::proofs::Survivors::some_survive))]
pub fn survivors_law()
    ensures { (always compare_id : Bool) (candidates : ListOf Candidate) → candidates ≢ [] →
        survivors always compare_id candidates ≢ [] }
{}

/// The subnets of a network's interfaces that cover an address are one, so the first that does is the only one, and so
/// the longest; and of one router's interfaces at most one has the address on its subnet.
pub fn subnets_law()
    ensures one { (files : ListOf FileOf) → IsNetwork files → (a : AddrOf) (x y : AddressedOf) →
        Contains (addressed files) x → Contains (addressed files) y →
        covers x.subnet a ≡ true → covers y.subnet a ≡ true → x.subnet ≡ y.subnet }
    ensures first { (files : ListOf FileOf) → IsNetwork files → (a : AddrOf) (x : AddressedOf) →
        Contains (addressed files) x → covers x.subnet a ≡ true → subnet_of files a ≡ Some x.subnet }
    ensures own { (files : ListOf FileOf) → IsNetwork files → (a : AddrOf) (x y : AddressedOf) →
        Contains (addressed files) x → Contains (addressed files) y → x.id.router ≡ y.id.router →
        covers x.subnet a ≡ true → covers y.subnet a ≡ true → x ≡ y }
{}

/// The advertised prefixes of a network that cover an address are one, so the first that does is the only one, and so
/// the longest.
pub fn advertised_law()
    ensures one { (files : ListOf FileOf) → IsNetwork files → (a : AddrOf) (p q : PrefixOf) →
        Contains (advertised files) p → Contains (advertised files) q →
        covers p a ≡ true → covers q a ≡ true → p ≡ q }
    ensures first { (files : ListOf FileOf) → IsNetwork files → (a : AddrOf) (p : PrefixOf) →
        Contains (advertised files) p → covers p a ≡ true → find (λ q. covers q a) (advertised files) ≡ Some p }
{}

/// The next hop of a static route of a network lies on the subnet of exactly one interface of its router.
pub fn next_hops_law()
    ensures { (files : ListOf FileOf) → IsNetwork files → (router : ℕ) (file : FileOf) (route : RouteOf) (a : AddrOf) →
        slice_get files router ≡ Some file → Contains file.statics route → next_hop route.via ≡ Some a →
        LiesOnOne files router a }
{}
