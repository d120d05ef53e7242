//! The grammar of questions.

use ios_policy_reader::Edge;
use ios_policy_reader::edges::Takes::{
    Any, AnyAddress, AnyName, AnyPorts, AnyPrefix, End, Interface, Key, Named, Range,
};
use ios_policy_reader::said::Tag::{
    Entering, Failures, Hops, Name, OtherStart, Peer, Plain, Protocol, Router, Source, SourcePort,
    Start, Subnet, Target, TargetPort, Waypoint,
};

/// How many links may fail in a question at most.
pub const MOST_FAILURES: u32 = 8;

/// The greatest number of hops that a question asks about.
pub const MOST_HOPS: u32 = 63;

/// NAME (`reach`|`isolate`) `from` R [`in` IF] `to` TARGET, `waypoint` the same and `via` R, (`noloop`|`noblackhole`|
/// `within` 0..63) `from` R [`in` IF], `alike` R R `to` TARGET, `nostable`; all followed by `packets` SET `failures` 0..8.
/// TARGET is `router` R, `subnet` A/L or `peer` R A, and SET is PROTO SRC SPORTS DST DPORTS. A question of each kind begins
/// in a state of its own: its place among the kinds.
pub const QUESTION: [Edge; 68] = [
    // NAME and the kind
    Edge(0, AnyName, Name, 10),
    Edge(10, Key(*b"reach                 "), Plain, 20),
    Edge(1, AnyName, Name, 11),
    Edge(11, Key(*b"isolate               "), Plain, 20),
    Edge(2, AnyName, Name, 12),
    Edge(12, Key(*b"waypoint              "), Plain, 30),
    Edge(3, AnyName, Name, 13),
    Edge(13, Key(*b"noloop                "), Plain, 40),
    Edge(4, AnyName, Name, 14),
    Edge(14, Key(*b"noblackhole           "), Plain, 40),
    Edge(5, AnyName, Name, 15),
    Edge(15, Key(*b"within                "), Plain, 50),
    Edge(6, AnyName, Name, 16),
    Edge(16, Key(*b"alike                 "), Plain, 60),
    Edge(7, AnyName, Name, 17),
    Edge(17, Key(*b"nostable              "), Plain, 70),
    // `from` R [`in` IF] `to` TARGET
    Edge(20, Key(*b"from                  "), Plain, 21),
    Edge(21, Any, Start, 22),
    Edge(22, Key(*b"to                    "), Plain, 25),
    Edge(22, Key(*b"in                    "), Plain, 23),
    Edge(23, Interface, Entering, 24),
    Edge(24, Key(*b"to                    "), Plain, 25),
    Edge(25, Key(*b"router                "), Plain, 26),
    Edge(25, Key(*b"subnet                "), Plain, 27),
    Edge(25, Key(*b"peer                  "), Plain, 28),
    Edge(26, Any, Router, 70),
    Edge(27, AnyPrefix, Subnet, 70),
    Edge(28, Any, Router, 29),
    Edge(29, AnyAddress, Peer, 70),
    // `from` R [`in` IF] `to` TARGET `via` R
    Edge(30, Key(*b"from                  "), Plain, 31),
    Edge(31, Any, Start, 32),
    Edge(32, Key(*b"to                    "), Plain, 35),
    Edge(32, Key(*b"in                    "), Plain, 33),
    Edge(33, Interface, Entering, 34),
    Edge(34, Key(*b"to                    "), Plain, 35),
    Edge(35, Key(*b"router                "), Plain, 36),
    Edge(35, Key(*b"subnet                "), Plain, 37),
    Edge(35, Key(*b"peer                  "), Plain, 38),
    Edge(36, Any, Router, 80),
    Edge(37, AnyPrefix, Subnet, 80),
    Edge(38, Any, Router, 39),
    Edge(39, AnyAddress, Peer, 80),
    Edge(80, Key(*b"via                   "), Plain, 81),
    Edge(81, Any, Waypoint, 70),
    // `from` R [`in` IF]
    Edge(40, Key(*b"from                  "), Plain, 41),
    Edge(41, Any, Start, 42),
    Edge(42, Key(*b"packets               "), Plain, 71),
    Edge(42, Key(*b"in                    "), Plain, 43),
    Edge(43, Interface, Entering, 44),
    Edge(44, Key(*b"packets               "), Plain, 71),
    // 0..63 and then the same
    Edge(50, Range(0, MOST_HOPS), Hops, 40),
    // R R `to` TARGET
    Edge(60, Any, Start, 61),
    Edge(61, Any, OtherStart, 24),
    // `packets` PROTO SRC SPORTS DST DPORTS `failures` 0..8
    Edge(70, Key(*b"packets               "), Plain, 71),
    Edge(71, Key(*b"ip                    "), Protocol, 72),
    Edge(71, Named(*b"icmp                  ", 1), Protocol, 72),
    Edge(71, Named(*b"tcp                   ", 6), Protocol, 72),
    Edge(71, Named(*b"udp                   ", 17), Protocol, 72),
    Edge(71, Range(0, 255), Protocol, 72),
    Edge(72, Key(*b"any                   "), Source, 73),
    Edge(72, AnyPrefix, Source, 73),
    Edge(73, AnyPorts, SourcePort, 74),
    Edge(74, Key(*b"any                   "), Target, 75),
    Edge(74, AnyPrefix, Target, 75),
    Edge(75, AnyPorts, TargetPort, 76),
    Edge(76, Key(*b"failures              "), Plain, 77),
    Edge(77, Range(0, MOST_FAILURES), Failures, 78),
    Edge(78, End, Plain, 78),
];
