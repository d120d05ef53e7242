//! A file as far as its lines have been read.

ghost use Rattle.std.specs.Prelude.{◌≡◌};
ghost use Rattle.ios_reader.specs.Drafts.{empty_draft, closed};

use ios_ast::{File, Policies};
use ios_policy_reader::PolicyBlock;
use mw_text::List;
use std::alloc::Global;

/// The block that is open, apart from those of lists and route maps.
#[derive(Clone, Copy)]
pub enum Block {
    Closed,
    /// That of the last interface.
    Interface,
    Ospf,
    Bgp,
    /// One whose lines are ignored.
    Ignored,
}

/// Which lines that come once were read, where the file does not show it: of the open interface its address and its
/// bandwidth, of OSPF its router id and its reference bandwidth.
#[derive(Clone, Copy)]
pub struct Seen {
    pub address: bool,
    pub bandwidth: bool,
    pub router_id: bool,
    pub reference: bool,
}

/// What ends a banner: `^C`, or a byte.
#[derive(Clone, Copy)]
pub enum Delimiter {
    CaretC,
    Byte(u8),
}

/// The file of the lines so far, the open block, and the end of the banner that is open.
#[derive(Drop)]
pub struct Draft {
    pub file: File,
    pub block: Block,
    pub policy_block: PolicyBlock,
    pub seen: Seen,
    pub banner: Option<Delimiter>,
}

/// Nothing is read yet.
pub fn new_draft(alloc: Global) -> Draft
    ensures { result ≡ empty_draft }
{
    let policies = Policies {
        prefix_lists: List::new(alloc),
        communities: List::new(alloc),
        as_paths: List::new(alloc),
        access: List::new(alloc),
        maps: List::new(alloc),
    };
    let file = File {
        hostname: List::new(alloc),
        hostname_line: 0,
        interfaces: List::new(alloc),
        statics: List::new(alloc),
        ospf: None,
        bgp: None,
        policies,
    };
    let seen = Seen {
        address: false,
        bandwidth: false,
        router_id: false,
        reference: false,
    };
    Draft {
        file,
        block: Block::Closed,
        policy_block: PolicyBlock::Outside,
        seen,
        banner: None,
    }
}
