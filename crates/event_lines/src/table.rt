//! The grammar of the lines of an events file.

use ios_policy_reader::Edge;
use ios_policy_reader::edges::Takes::{
    Any, AnyAddress, AnyCommunity, AnyPrefix, End, Key, Named, Range,
};
use ios_policy_reader::said::Tag::{
    Address, Community, Metric, Number, Origin, Peer, Plain, Prefix, Remote, Router,
};

/// How many turns one line asks for at most.
pub const MOST_TURNS: u32 = 1_000_000;

/// How many AS numbers a path has at most.
pub const MOST_NUMBERS: usize = 255;

/// How many words of an announcement stand before its communities.
pub const BEFORE_COMMUNITIES: usize = 9;

/// The word behind the communities of an announcement.
pub const PATH_WORD: [u8; 16] = *b"path            ";

/// `dst` A, `id` R A A, `deliver bgp` R A, `deliver ospf` R A, `decide` R 0..32, `announce` R A 0..32 (`none` | `med` N
/// `origin` (`igp`|`egp`|`incomplete`) `communities` C ... `path` N ...), (`cut`|`mend`) A/L, `run` 1..1000000. A line
/// of each form begins, behind its head, in a state of its own: its place among the forms.
pub const EVENT_LINE: [Edge; 30] = [
    // `dst` A
    Edge(0, AnyAddress, Address, 10),
    // `id` R A A
    Edge(1, Any, Router, 11),
    Edge(11, AnyAddress, Peer, 12),
    Edge(12, AnyAddress, Address, 10),
    // `deliver bgp` R A
    Edge(2, Any, Router, 13),
    Edge(13, AnyAddress, Peer, 10),
    // `deliver ospf` R A
    Edge(3, Any, Router, 14),
    Edge(14, AnyAddress, Peer, 10),
    // `decide` R LEN
    Edge(4, Any, Router, 15),
    Edge(15, Range(0, 32), Number, 10),
    // `announce` R A LEN
    Edge(5, Any, Router, 16),
    Edge(16, AnyAddress, Peer, 17),
    Edge(17, Range(0, 32), Number, 18),
    Edge(18, Key(*b"none                  "), Plain, 10),
    Edge(18, Key(*b"med                   "), Plain, 19),
    Edge(19, Range(0, 4_294_967_295), Metric, 20),
    Edge(20, Key(*b"origin                "), Plain, 21),
    Edge(21, Named(*b"igp                   ", 0), Origin, 22),
    Edge(21, Named(*b"egp                   ", 1), Origin, 22),
    Edge(21, Named(*b"incomplete            ", 2), Origin, 22),
    Edge(22, Key(*b"communities           "), Plain, 23),
    Edge(23, AnyCommunity, Community, 23),
    Edge(23, Key(*b"path                  "), Plain, 24),
    Edge(24, Range(0, 4_294_967_295), Remote, 25),
    Edge(25, Range(0, 4_294_967_295), Remote, 25),
    Edge(25, End, Plain, 25),
    // `cut` A/L and `mend` A/L
    Edge(6, AnyPrefix, Prefix, 10),
    Edge(7, AnyPrefix, Prefix, 10),
    // `run` N
    Edge(8, Range(1, MOST_TURNS), Number, 10),
    Edge(10, End, Plain, 10),
];
