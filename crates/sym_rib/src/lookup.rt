//! What is asked of the table of a router.

use ios_ast::File;
use net_model::Net;
use term_arith::Bits;

/// What a router of the network, with that file, looks up in its own table: the prefix of that length of a destination.
#[derive(Clone, Copy)]
pub(crate) struct Lookup<'a> {
    pub(crate) net: &'a Net,
    pub(crate) router: u32,
    pub(crate) file: &'a File,
    pub(crate) dst: &'a Bits,
    pub(crate) len: u8,
}
