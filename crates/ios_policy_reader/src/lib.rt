//! The reader of lists and route maps, and the grammar of configuration lines.
#![tactic(auto)]

pub mod access_lists;
pub mod cause;
pub mod clauses;
pub mod edges;
pub mod entries;
pub mod growing;
pub mod head_table;
pub mod heads;
pub mod laws;
pub mod lists;
pub mod masks;
pub mod names;
pub mod patterns;
pub mod policies;
pub mod policy_laws;
pub mod policy_lines;
pub mod room;
pub mod router_laws;
pub mod router_tables;
pub mod rows;
pub mod said;
pub mod tables;
pub mod tail;
pub mod values;
pub mod words;

pub use cause::{Cause, Refused};
pub use edges::{Edge, Takes};
pub use heads::{Context, Found, Row, find_row};
pub use policies::{PolicyBlock, policy_line};
pub use rows::read_row;
pub use said::{Said, Tag, Value};
pub use tail::read_tail;
