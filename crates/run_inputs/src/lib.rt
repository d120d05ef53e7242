//! What the words of a run ask for: the files that they name, read and parsed in their order, or the line of the first
//! refusal. The events of a simulation have happened then.
#![tactic(auto)]

pub mod events;
pub mod load;
pub mod ring;
pub mod text;
pub mod told;
pub mod work;

pub use load::Stop;
pub use work::{Work, work_of};
