//! Worked cases of the definitions of a stable routing: what they say of small networks, worked out by hand. Each function
//! only carries its clauses, which are computed.
#![tactic(auto, unfolding(announced_shapes::specs::Paths::rebuilt_path, announced_shapes::specs::Paths::is_path_shape, net_parts::specs::World::links_of, net_parts::specs::Sessions::peerings, net_parts::specs::Sessions::sessions, net_parts::specs::Sessions::ends_of, net_parts::specs::Ospf::ospf_interfaces, net_parts::specs::Ospf::advertised, net_parts::specs::Ospf::adjacencies, net_parts::specs::Ospf::up_adjacencies, net_parts::specs::Distances::own_cost, net_parts::specs::Distances::distance_within, net_parts::specs::Distances::interior_distance, net_parts::specs::Resolution::resolved, net_parts::specs::Resolution::session_up, net_parts::specs::Exports::router_id, net_parts::specs::Exports::exported, net_parts::specs::Exports::imported, net_parts::specs::Decisions::survivors, net_parts::specs::Origins::redistributed, net_parts::specs::Origins::local_routes, net_parts::specs::OspfRoutes::own_origins, net_parts::specs::OspfRoutes::held_from, net_parts::specs::OspfRoutes::held_by_ospf, net_parts::specs::Decisions::arriving, net_parts::specs::Decisions::candidates_from, net_parts::specs::Decisions::candidates, net_parts::specs::Entries::entry_with, plan_places::specs::Plans::lens_below, plan_places::specs::Places::places_below, slot_places::specs::Origins::origins_at, slot_places::specs::Rooms::room_at, slot_places::specs::Rooms::rooms_below, slot_places::specs::Values::field_of, slot_places::specs::Values::width_from, held_values::specs::Values::values_of, held_values::specs::Values::ospf_bits, plan_places::specs::Plans::numbers_below, sliced_routings::specs::Cuts::is_cut_by, sliced_routings::specs::Cuts::is_cut, length_classes::specs::Lists::cuts_to))]

pub mod announced;
pub mod bgp;
pub mod classes;
pub mod ospf;
pub mod places;
pub mod stable;
