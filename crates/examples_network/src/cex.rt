//! The text of a counterexample, read and written again.

use crate::page::Page;
use cex_json::{CexRefused, Counterexample, read_cex, write_cex};
use net_model::Net;
use question_lang::Question;

/// The text of a counterexample.
pub fn show_written(out: &mut Page, net: &Net, questions: &[Question], cex: &Counterexample) {
    match write_cex(out.alloc(), net, questions, cex) {
        Ok(written) => out.bytes(" ", written.as_slice()),
        Err(wanting) => out.note(Err(wanting)),
    }
}

/// Why a text is refused.
pub fn show_refused(out: &mut Page, refused: &CexRefused) {
    match refused {
        CexRefused::NotJson => out.put(" NotJson"),
        CexRefused::Field { path } => out.bytes(" Field ", path.as_slice()),
        CexRefused::Memory => out.put(" Memory"),
    }
}

/// The text as it is written again, or where its first bad field stands.
pub fn show_again(out: &mut Page, net: &Net, questions: &[Question], text: &str) {
    match read_cex(out.alloc(), net, questions, text.as_bytes()) {
        Ok(cex) => show_written(out, net, questions, &cex),
        Err(refused) => show_refused(out, &refused),
    }
}
