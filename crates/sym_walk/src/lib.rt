//! Whether a walk of a packet breaks a question, as a term over Boolean variables.
#![tactic(auto)]

mod adjacent;
mod breaks;
mod entries;
pub mod laws;
mod longest;
mod offers;
mod routers;
mod stop;

pub use breaks::{SymWorld, sym_breaks, sym_ends_at, world_table};
pub use routers::sym_table;
pub use sym_forwarding::{
    SymAim, SymBeginning, SymEdge, SymForwarding, sym_begin, sym_bgp_hops, sym_broken,
    sym_connected, sym_here, sym_loops, sym_own, sym_permits_in, sym_permits_out, sym_send_over,
    sym_static, sym_statics,
};
pub use sym_rib::slot_for;
