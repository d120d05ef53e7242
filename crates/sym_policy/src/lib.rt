//! What lists and route maps answer, as terms over Boolean variables.
//!
//! A reading of the store turns a symbolic value into a plain one (`specs/Records.antt`), so a call here stands for the
//! plain one of `policy_eval`: under every reading its result is what the definition says of the values read.
#![tactic(auto)]

mod bare;
mod copies;
mod decisions;
mod entries;
mod lines;
mod lists;
mod maps;
mod named;
mod order;
mod packets;
mod parts;
mod prefixes;
mod records;
mod routes;
mod sets;
mod through;

pub use bare::{bare_rest, no_path};
pub use copies::{joined, path_of, preferences_of, rest_of, route_of};
pub use lines::{Grounds, sym_takes};
pub use lists::sym_marked;
pub use maps::sym_route_map;
pub use named::{sym_paths_named, sym_prefixes_named};
pub use order::ordered;
pub use packets::sym_access_list;
pub use parts::{SymPath, SymPreferences, SymRest, SymRoute};
pub use prefixes::sym_prefix_list;
pub use records::{SymBgp, SymMapRec, SymNet, SymOspf, SymPacket};
pub use sets::{sym_longer, sym_marks_with, sym_prepended};
pub use through::sym_through;
