//! The reader of configuration files.
#![tactic(auto)]

pub mod banner;
pub mod bgp;
pub mod bgp_rows;
pub mod draft;
pub mod interface_rows;
pub mod interfaces;
pub mod laws;
pub mod lines;
pub mod names;
pub mod neighbours;
pub mod ospf;
pub mod ospf_rows;
pub mod reader;
pub mod sub_rows;
pub mod top_rows;

pub use ios_policy_reader::{Cause, Refused};
pub use reader::read_file;
