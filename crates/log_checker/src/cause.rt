//! What is wrong with a line of a log.

use resolution_check::{Bad, Clause};

/// What is wrong with a line of a log.
#[derive(Drop)]
pub enum Cause {
    /// It is no entry's line, or opens no section where one is to be opened.
    BadLine,
    /// It is an input and not the clause of its number, which is this one; none where there is no such clause.
    InputDiffers(Option<Clause>),
    /// Its entry does not follow from those before it.
    Refused(Bad),
    /// It ends a section that does not add the empty clause.
    NotRefuted,
    /// It is not there, and a section or its end is missing.
    Missing,
}
