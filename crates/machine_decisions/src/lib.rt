//! What a router of the machine decides for one prefix: by its slot as it stands, and by what it last received over its
//! sessions and heard over its adjacencies.
#![tactic(auto)]

mod deciding;
mod decision;
mod heard;
mod kept;
mod known;
mod learnt;
mod settled;
mod touched;

pub use deciding::decided;
pub use known::{look_again, look_at_all};
pub use settled::{first_unsettled, is_unsettled};
pub use touched::{Touched, touched_by};
