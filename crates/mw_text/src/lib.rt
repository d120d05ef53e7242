//! The texts of the product: lists that contracts see as lists, addresses, prefixes, lines and words.
#![tactic(auto)]

pub mod address;
pub mod digits;
pub mod list;
pub mod words;

pub use address::{Addr, Prefix, contains, mask, prefix_of};
pub use digits::{read_addr, read_number, read_prefix};
pub use list::{List, list_of, same_bytes};
pub use words::{Line, lines_of, says_nothing};
