//! What the commands of the second program begin with: the network of the files that are named, or the first refusal; its
//! line; and how a command ends.
#![tactic(auto)]

pub mod causes;
pub mod ended;
pub mod loading;
pub mod refused;

pub use ended::{Ended, number_of};
pub use loading::load;
pub use refused::{LoadRefused, refusal_text};
