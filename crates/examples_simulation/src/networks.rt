//! The routers of a script, and their network.

use ios_ast::File;
use ios_reader::read_file;
use mw_text::List;
use net_model::{Net, keep_limits};
use std::alloc::{AllocError, Global};

/// Longer texts are not read.
pub const LONGEST: usize = 1_000_000;

/// The texts of the routers, the front of each events file, and the text so far.
#[derive(Drop)]
pub struct Setup {
    pub routers: Vec<String>,
    pub front: String,
    pub text: String,
}

impl Setup {
    pub fn new(alloc: Global) -> Setup {
        Setup {
            routers: Vec::new(alloc),
            front: String::new(alloc),
            text: String::new(alloc),
        }
    }
}

fn add_router(alloc: Global, files: &mut List<File>, text: &str) -> Result<(), AllocError> {
    if text.len() <= LONGEST {
        if let Ok(file) = read_file(alloc, text.as_bytes()) {
            files.items.push(file)?;
        }
    }
    Ok(())
}

fn read_routers(alloc: Global, texts: &[String]) -> Result<List<File>, AllocError> {
    let mut files = List::new(alloc);
    for text in texts {
        add_router(alloc, &mut files, text.as_str())?;
    }
    Ok(files)
}

/// The network of the routers. None where they form none.
pub fn network_of(alloc: Global, texts: &[String]) -> Result<Option<Net>, AllocError> {
    let files = read_routers(alloc, texts)?;
    if !keep_limits(files.as_slice()) {
        return Ok(None);
    }
    Ok(Net::build(alloc, files).ok())
}
