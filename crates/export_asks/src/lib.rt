//! Asks whether routes go out to an external peer: their lines, and whether a routing exports such a route.
#![tactic(auto)]

pub mod ask;
pub mod asking;
pub mod exporting;
pub mod forms;
pub mod laws;
pub mod peers;
pub mod reader;
pub mod table;
pub mod tracing;

pub use ask::{Ask, AskPeer};
pub use exporting::exported;
pub use reader::{MOST_ASKS, read_asks};
