//! The parts of a conflict-driven search over watched clauses: its trail, propagation, decisions, learning and rounds.
#![tactic(auto)]

mod assigned;
mod compacting;
mod deciding;
mod holding;
mod laws;
mod learning;
mod searching;
mod starting;
mod stepping;
mod visiting;
mod walking;

pub use assigned::Assigned;
pub use compacting::compact;
pub use deciding::{ROUND, choose, decide, end_round, restart};
pub use holding::hold;
pub use laws::{additions_are_of_sets, totals_hold, watches_settle};
pub use learning::{assert_clause, learn};
pub use searching::find_conflict;
pub use starting::{hold_input, hold_inputs, refute};
pub use stepping::{assign, back_to};
pub use visiting::{Visited, move_watch, pass_watch, visit};
pub use walking::{propagate, visit_watches};
