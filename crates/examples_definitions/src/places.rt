//! Where slots stand, and what OSPF routes can stand in them.

ghost use Rattle.std.specs.Prelude.{◌≡◌, ◌++◌, true, false, [], ◌∷◌, Some, None, length, replicate};
ghost use Rattle.std.specs.List.{range_with_len};
ghost use Rattle.route_record.specs.declared.OspfKind.TheVariants.{Internal, Ext2};
ghost use Rattle.slot_places.specs.declared.fields.Field.TheVariants.{Among};
ghost use Rattle.slot_places.specs.Origins.{origins_at};
ghost use Rattle.plan_places.specs.Places.{places_of};
ghost use Rattle.plan_places.specs.Plans.{lens_of};
ghost use Rattle.slot_places.specs.Rooms.{can_be_used, room_at};
ghost use Rattle.slot_places.specs.Values.{field_of, field_width, once};
ghost use Rattle.examples_definitions.specs.Networks.{depot, outside, pair, plan, prefix, route, triangle};

/// Slices stand at the first lengths of their class: of two routers with a link of length 30 at six, of three routers in a
/// triangle at seven, so that these have 21 slots; and where all lengths are one class, at as many as it has slices.
pub fn lengths_of_plans()
    ensures two_routers { lens_of (plan (0 ∷ replicate 29 1 ++ 2 ∷ 3 ∷ 4 ∷ []) (1 ∷ 2 ∷ 1 ∷ 1 ∷ 1 ∷ [])) ≡ 0 ∷ 1 ∷ 2 ∷ 30 ∷ 31 ∷ 32 ∷ [] }
    ensures triangle { length (places_of (plan (0 ∷ replicate 29 1 ++ 2 ∷ 3 ∷ 4 ∷ []) (1 ∷ 3 ∷ 1 ∷ 1 ∷ 1 ∷ [])) 3) ≡ 21 }
    ensures one_class { lens_of (plan (replicate 33 0) (2 ∷ [])) ≡ 0 ∷ 1 ∷ [] }
    ensures no_slices { lens_of (plan (replicate 33 0) []) ≡ [] }
{}

/// In the triangle routes to 10.9.0.3 come of the loopback alone, and each of its six interfaces brings in a subnet. A
/// route to the loopback is internal and costs at most 4: the loopback's 1 and an interface of each router.
pub fn rooms_in_a_triangle()
    ensures loopback { origins_at triangle (prefix 168361987 32) 32 ≡ route Internal 0 1 ∷ [] }
    ensures elsewhere { origins_at triangle (prefix 168361987 32) 30 ≡ [] }
    ensures links { length (origins_at triangle (prefix 0 0) 30) ≡ 6 }
    ensures room { room_at triangle (prefix 168361987 32) 32 ≡ Some (record { kind = Among (0 ∷ []); metric = Among (0 ∷ []); cost = 3 }) }
    ensures no_room { room_at triangle (prefix 168361987 32) 30 ≡ None }
{}

/// The depot brings in the warehouse's prefix with the metric that its map sets, its own subnet, and the default route; the
/// lab's prefix, which its map drops, stands in its table alone.
pub fn rooms_of_a_depot()
    ensures warehouse { origins_at depot (prefix 0 0) 16 ≡ route Ext2 30 0 ∷ [] }
    ensures subnet { origins_at depot (prefix 0 0) 24 ≡ route Internal 0 1 ∷ [] }
    ensures default_route { origins_at depot (prefix 0 0) 0 ≡ route Ext2 1 0 ∷ [] }
    ensures lab { origins_at depot (prefix 3232248320 24) 24 ≡ [] }
    ensures lab_is_used { can_be_used depot (prefix 3232248320 24) 0 24 ≡ true }
    ensures nothing { can_be_used depot (prefix 3232248320 24) 0 25 ≡ false }
{}

/// A BGP route that is redistributed has metric 1 whatever its MED, at every length but 0; a network without BGP has none.
pub fn routes_from_bgp()
    ensures metric { origins_at pair outside 24 ≡ route Ext2 1 0 ∷ [] }
    ensures any_length { origins_at pair outside 7 ≡ route Ext2 1 0 ∷ [] }
    ensures no_default { origins_at pair outside 0 ≡ [] }
{}

/// Up to 32 values are told by their place, by as many bits as that takes.
pub fn fields_of_values()
    ensures one { field_width (field_of (once (20 ∷ 20 ∷ []))) ≡ 0 }
    ensures three { field_of (once (20 ∷ 30 ∷ 20 ∷ 1 ∷ [])) ≡ Among (20 ∷ 30 ∷ 1 ∷ []) }
    ensures width_of_three { field_width (field_of (20 ∷ 30 ∷ 1 ∷ [])) ≡ 2 }
    ensures nine { field_width (field_of (1 ∷ 2 ∷ 3 ∷ 4 ∷ 5 ∷ 6 ∷ 7 ∷ 8 ∷ 300 ∷ [])) ≡ 4 }
    ensures many { field_width (field_of (300 ∷ range_with_len 0 32)) ≡ 9 }
{}
