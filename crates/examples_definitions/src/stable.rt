//! The equations of a stable routing: two routers whose routes for 203.0.113.0/24 rest on each other.

ghost use Rattle.std.specs.Prelude.{◌≡◌, true, false, [], ◌∷◌, Some, None, map};
ghost use Rattle.std.specs.Option.{option_map};
ghost use Rattle.route_record.specs.declared.OspfKind.TheVariants.{Ext2};
ghost use Rattle.route_record.specs.declared.RibSource.TheVariants as source;
ghost use Rattle.net_parts.specs.Decisions.{candidates};
ghost use Rattle.net_parts.specs.Entries.{table_entry};
ghost use Rattle.net_parts.specs.Stable.{held_ospf};
ghost use Rattle.examples_definitions.specs.Networks.{empty, failed, learnt_route, local_route, nobody, outside, pair, route, slot_of_x, slot_of_y, supporting, tables_at_24, x, y};

/// Each equation of the two slots holds: X has Y's route from OSPF and brings it into BGP, and Y has X's route from BGP and
/// brings it into OSPF.
pub fn routes_that_support_each_other()
    ensures ospf_of_x { held_ospf pair (failed []) supporting 0 x outside ≡ Some (route Ext2 1 1) }
    ensures ospf_of_y { held_ospf pair (failed []) supporting 1 y outside ≡ Some (route Ext2 1 0) }
    ensures bgp_of_x { option_map (λ process. map (λ c. c.rec) (candidates pair (failed []) nobody supporting 0 x process outside)) x.bgp ≡ Some (local_route ∷ []) }
    ensures bgp_of_y { option_map (λ process. map (λ c. c.rec) (candidates pair (failed []) nobody supporting 1 y process outside)) y.bgp ≡ Some (learnt_route ∷ []) }
    ensures entry_of_x { table_entry pair (failed []) 0 x outside slot_of_x ≡ Some (record { source = source.Ospf; distance = 110 }) }
    ensures entry_of_y { table_entry pair (failed []) 1 y outside slot_of_y ≡ Some (record { source = source.Ebgp; distance = 20 }) }
{}

/// Without any route the equations hold as well; and without the entry of X nothing is left for its BGP part.
pub fn routes_that_are_not_there()
    ensures ospf_of_x { held_ospf pair (failed []) (tables_at_24 empty empty) 0 x outside ≡ None }
    ensures bgp_of_y { option_map (λ process. candidates pair (failed []) nobody (tables_at_24 empty empty) 1 y process outside) y.bgp ≡ Some [] }
    ensures entry_of_x { table_entry pair (failed []) 0 x outside empty ≡ None }
    ensures without_entry { option_map (λ process. candidates pair (failed []) nobody (tables_at_24 (record slot_of_x { rib = None }) slot_of_y) 0 x process outside) x.bgp ≡ Some [] }
{}
