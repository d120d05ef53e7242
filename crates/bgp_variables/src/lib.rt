//! The variables of BGP: routes that routers hold and what external peers announce, by their shapes.
#![tactic(auto)]

mod announcements;
pub mod environments;
pub mod laws;
mod marks;
mod parts;
mod rooms;
mod routes;
mod speakers;

pub use announcements::sym_is_announced;
pub use environments::{open_announced, open_ids};
pub use rooms::{BgpRoom, PathRoom, PreferencesRoom, announcement_room, held_room};
pub use routes::open_bgp;
pub use speakers::speaker_at;
