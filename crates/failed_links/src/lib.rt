//! The failed links of a question over Boolean variables: as terms, and as the values of their variables say.
#![tactic(auto)]

mod failures;
mod links;
mod values;

pub use failures::{downs_size, failures_at};
pub use links::{downs_at, none_down, put_unmarked};
pub use values::{number_at, value_at};
