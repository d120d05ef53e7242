//! What the lists and route maps of a configuration answer for a prefix, a route or a packet.
#![tactic(auto)]

mod lists;
mod maps;
mod matches;
mod packets;
mod routes;
mod sets;

pub use lists::{as_path_list, community_list, prefix_list};
pub use maps::{copy_list, copy_route, deciding_entry, route_map};
pub use matches::{paths_permit, prefixes_permit};
pub use packets::access_list;
pub use routes::{map_named, map_rec, record_through_map, through_map};
