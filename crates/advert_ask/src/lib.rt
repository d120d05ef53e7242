//! The command `advert`: whether routes go out to external peers.
#![tactic(auto)]

pub mod answers;
pub mod loading;
pub mod running;

pub use ask_search::sym_exported;
pub use ask_search::verdict::AskVerdict;
pub use export_asks::{Ask, AskPeer, exported, read_asks};
pub use running::run_advert;
