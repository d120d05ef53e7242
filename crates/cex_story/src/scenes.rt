//! What a story is told of.

use cex_json::Counterexample;
use net_model::Net;
use question_lang::Question;

/// A network with the names of its files, a question about it, and a counterexample to that.
#[derive(Clone, Copy)]
pub struct Scene<'a> {
    pub net: &'a Net,
    pub names: &'a [&'a [u8]],
    pub question: &'a Question,
    pub cex: &'a Counterexample,
}
