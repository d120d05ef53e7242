//! OSPF routes, interior distances and the state of sessions as terms over Boolean variables.
//!
//! A reading of the store turns a symbolic value into a plain one, so a call here stands for the plain one: under every
//! reading its result is what the definitions of `net_model` say of the values read.
#![tactic(auto)]

mod distances;
mod equations;
mod parts;
mod resolution;
mod routes;
mod sessions;

pub use equations::sym_igp;
pub use resolution::sym_resolve;
pub use routes::{known_ospf, sym_best, sym_better, sym_same_record, sym_transfer};
pub use sessions::sym_session_up;
pub use sym_interfaces::{sym_up, sym_up_at};
