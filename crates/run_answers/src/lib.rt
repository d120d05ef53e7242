//! What a run prints and logs: verdicts with their lines and the frames of their sections, answers of replays, about logs
//! and of simulations, and the statuses that runs end with.
#![tactic(auto)]

pub mod halt;
pub mod replaying;
pub mod section;
pub mod seen;
pub mod simulating;
pub mod size;
pub mod status;
pub mod verdict;

pub use halt::Halt;
pub use replaying::put_replay;
pub use seen::Seen;
pub use simulating::put_simulated;
pub use size::put_size;
pub use status::{Status, number_of};
pub use verdict::{Verdict, verdict_lines};
