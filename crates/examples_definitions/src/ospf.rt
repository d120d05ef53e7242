//! OSPF: distances, resolution, preference, redistribution.

ghost use Rattle.std.specs.Prelude.{◌≡◌, true, false, [], ◌∷◌, Some, None};
ghost use Rattle.route_record.specs.declared.OspfKind.TheVariants.{Internal, Ext1, Ext2};
ghost use Rattle.net_parts.specs.Distances.{interior_distance};
ghost use Rattle.net_parts.specs.OspfRoutes.{extended, is_as_good};
ghost use Rattle.net_parts.specs.Origins.{redistributed};
ghost use Rattle.net_parts.specs.Resolution.{resolved};
ghost use Rattle.examples_definitions.specs.Networks.{address, connected, connected_routes, failed, ospf, prefix, route, router, triangle};

/// From the first router of the triangle to the loopback of the third, 10.9.0.3/32: directly; by the second router where
/// the direct link has failed; not at all where both links of the first have.
pub fn distances_in_a_triangle()
    ensures direct { interior_distance triangle (failed []) 0 (prefix 168361987 32) ≡ Some 2 }
    ensures around { interior_distance triangle (failed (1 ∷ [])) 0 (prefix 168361987 32) ≡ Some 3 }
    ensures cut_off { interior_distance triangle (failed (0 ∷ 1 ∷ [])) 0 (prefix 168361987 32) ≡ None }
{}

/// An address on an own subnet costs nothing, one that is advertised its distance, and another is not resolved.
pub fn resolution_in_a_triangle()
    ensures own_subnet { resolved triangle (failed []) 0 (address 167775234) ≡ Some 0 }
    ensures advertised { resolved triangle (failed []) 0 (address 168361987) ≡ Some 2 }
    ensures unknown { resolved triangle (failed []) 0 (address 3221225985) ≡ None }
{}

/// Of two routes of type 2 the metric decides, and then the cost; type 1 is better whatever it costs.
pub fn preference_of_routes()
    ensures by_cost { is_as_good (route Ext2 5 9) (route Ext2 5 8) ≡ false }
    ensures by_metric { is_as_good (route Ext2 5 9) (route Ext2 6 1) ≡ true }
    ensures by_kind { is_as_good (route Ext2 5 9) (route Ext1 0 70000) ≡ false }
    ensures internal_first { is_as_good (route Internal 0 9) (route Ext1 0 1) ≡ true }
{}

/// Over an adjacency the cost rises and the metric stays; a cost of 2^32 is no offer.
pub fn extension_of_routes()
    ensures type1 { extended 10 (route Ext1 0 20) ≡ Some (route Ext1 0 30) }
    ensures largest { extended 5 (route Internal 0 4294967290) ≡ Some (route Internal 0 4294967295) }
    ensures too_large { extended 6 (route Internal 0 4294967290) ≡ None }
{}

/// Without `subnets` a connected network of class C is redistributed, a subnet of a class A network and the default are
/// not.
pub fn redistribution_of_connected_routes()
    ensures class_c { redistributed (router [] [] None None) (ospf (connected_routes ∷ [])) (prefix 3221225984 24) connected ≡ route Ext2 20 0 ∷ [] }
    ensures subnet { redistributed (router [] [] None None) (ospf (connected_routes ∷ [])) (prefix 169082880 24) connected ≡ [] }
    ensures default_route { redistributed (router [] [] None None) (ospf (connected_routes ∷ [])) (prefix 0 0) connected ≡ [] }
{}
