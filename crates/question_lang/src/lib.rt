//! Questions about a network, and what walk of a packet breaks one.
#![tactic(auto)]

pub mod asking;
pub mod forms;
pub mod laws;
pub mod named;
pub mod packets;
pub mod question;
pub mod reader;
pub mod table;
pub mod walk;

pub use question::{Kind, PacketSet, Question, Start, Target};
pub use reader::{MOST_QUESTIONS, read_questions};
pub use table::{MOST_FAILURES, MOST_HOPS};
pub use walk::{End, Hop, Walk};
