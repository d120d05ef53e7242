//! What a script has set up.

use ios_ast::{File, Policies};
use ios_reader::read_file;
use mw_text::List;
use net_model::{Net, keep_limits};
use question_lang::{Question, read_questions};
use std::alloc::{AllocError, Global};
use std::mem;

/// Longer texts are not read.
const LONGEST: usize = 100_000;

/// The text so far, the routers of the next network, the network, and questions about it.
#[derive(Drop)]
pub struct Setup {
    pub text: String,
    pub files: List<File>,
    pub net: Option<Net>,
    pub questions: List<Question>,
}

impl Setup {
    pub fn new(alloc: Global) -> Setup {
        Setup {
            text: String::new(alloc),
            files: List::new(alloc),
            net: None,
            questions: List::new(alloc),
        }
    }
}

/// The lists and maps of the last router.
pub fn policies(net: &Net) -> Option<&Policies> {
    match net.routers().last() {
        Some(file) => Some(&file.policies),
        None => None,
    }
}

/// A line of the text.
pub fn add_line(text: &mut String, line: &str) -> Result<(), AllocError> {
    text.push_str(line)?;
    text.push_str("\n")
}

/// Reads the text as a router's. One that is refused is left out.
pub fn end_router(
    alloc: Global,
    text: &mut String,
    files: &mut List<File>,
) -> Result<(), AllocError> {
    if text.len() <= LONGEST {
        if let Ok(file) = read_file(alloc, text.as_bytes()) {
            files.items.push(file)?;
        }
    }
    text.clear();
    Ok(())
}

fn built(alloc: Global, files: List<File>) -> Option<Net> {
    if keep_limits(files.as_slice()) {
        Net::build(alloc, files).ok()
    } else {
        None
    }
}

/// The network of the routers so far. None where they form none.
pub fn make_network(alloc: Global, setup: &mut Setup) {
    let files = mem::replace(&mut setup.files, List::new(alloc));
    setup.net = built(alloc, files)
}

/// The questions that the text asks about the network. A text that is refused asks none.
pub fn make_questions(alloc: Global, setup: &mut Setup) {
    if let Some(net) = &setup.net {
        if setup.text.len() <= LONGEST {
            if let Ok(questions) = read_questions(alloc, setup.text.as_bytes(), net) {
                setup.questions = questions
            }
        }
    }
    setup.text.clear()
}
