//! What lies outside the program: files that are read, and sinks that are written to.
//!
//! Each keeps a count of its faults, so that a fault is answered only where one came, and may tell what it holds or
//! has taken, so that the program's clauses can speak of bytes.
#![tactic(auto)]

mod faults;
mod files;
mod folder;
mod machine;
mod no_sink;
mod sink;
mod test_files;
mod test_sink;
mod whole;
mod writers;

pub use files::{Failed, Files};
pub use folder::{Folder, Stamp};
pub use machine::DirFiles;
pub use no_sink::NoSink;
pub use sink::Sink;
pub use test_files::{TestFile, TestFiles};
pub use test_sink::TestSink;
pub use whole::{ReadRefused, read_whole};
pub use writers::{FileSink, OutSink};
