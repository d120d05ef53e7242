//! The grammar of asks.

use ios_policy_reader::Edge;
use ios_policy_reader::edges::Takes::{
    Any, AnyAddress, AnyName, AnyPrefix, End, Key, LengthFrom, Range,
};
use ios_policy_reader::said::Tag::{
    Address, Failures, High, Low, Name, Peer, Plain, Prefix, Router, Start,
};
use question_lang::MOST_FAILURES;

/// NAME (`noexport`|`noleak` `from` R A) `to` R A `prefixes` P/L [`ge` G] [`le` L] `failures` 0..8. An ask of each kind
/// begins in a state of its own: its place among the kinds.
pub const ASK: [Edge; 22] = [
    // NAME and the kind
    Edge(0, AnyName, Name, 10),
    Edge(10, Key(*b"noexport              "), Plain, 20),
    Edge(1, AnyName, Name, 11),
    Edge(11, Key(*b"noleak                "), Plain, 12),
    // `from` R A
    Edge(12, Key(*b"from                  "), Plain, 13),
    Edge(13, Any, Start, 14),
    Edge(14, AnyAddress, Address, 20),
    // `to` R A
    Edge(20, Key(*b"to                    "), Plain, 21),
    Edge(21, Any, Router, 22),
    Edge(22, AnyAddress, Peer, 23),
    // `prefixes` P/L [`ge` G] [`le` L]
    Edge(23, Key(*b"prefixes              "), Plain, 24),
    Edge(24, AnyPrefix, Prefix, 25),
    Edge(25, Key(*b"ge                    "), Plain, 26),
    Edge(25, Key(*b"le                    "), Plain, 28),
    Edge(25, Key(*b"failures              "), Plain, 30),
    Edge(26, LengthFrom, Low, 27),
    Edge(27, Key(*b"le                    "), Plain, 28),
    Edge(27, Key(*b"failures              "), Plain, 30),
    Edge(28, LengthFrom, High, 29),
    Edge(29, Key(*b"failures              "), Plain, 30),
    // 0..8
    Edge(30, Range(0, MOST_FAILURES), Failures, 31),
    Edge(31, End, Plain, 31),
];
