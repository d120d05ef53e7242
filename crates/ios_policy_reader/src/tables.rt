//! The rows of lists and route maps: what may follow their heads.

use crate::edges::Edge;
use crate::edges::Takes::{
    Any, AnyAddress, AnyCommunity, AnyName, AnyPattern, AnyPort, AnyPrefix, End, Key, LengthFrom,
    Named, PortFrom, PortKey, Range,
};
use crate::said::Tag::{
    Action, Community, High, Low, Name, Number, Plain, Prefix, Protocol, Sequence, Source,
    SourcePort, SourceTest, SourceTop, SourceWild, Target, TargetPort, TargetTest, TargetTop,
    TargetWild,
};

/// `ip prefix-list` NAME [`seq` 1..4294967294] (`permit`|`deny`) A/L [`ge` 0..32] [`le` 0..32]; or NAME `description`
/// and any words
pub const PREFIX_LIST: [Edge; 19] = [
    Edge(0, AnyName, Name, 1),
    Edge(1, Key(*b"seq                   "), Plain, 2),
    Edge(1, Named(*b"permit                ", 1), Action, 4),
    Edge(1, Named(*b"deny                  ", 0), Action, 4),
    Edge(1, Key(*b"description           "), Plain, 9),
    Edge(2, Range(1, 4_294_967_294), Sequence, 3),
    Edge(3, Named(*b"permit                ", 1), Action, 4),
    Edge(3, Named(*b"deny                  ", 0), Action, 4),
    Edge(4, AnyPrefix, Prefix, 5),
    Edge(5, End, Plain, 5),
    Edge(5, Key(*b"ge                    "), Plain, 6),
    Edge(5, Key(*b"le                    "), Plain, 8),
    Edge(6, LengthFrom, Low, 7),
    Edge(7, End, Plain, 7),
    Edge(7, Key(*b"le                    "), Plain, 8),
    Edge(8, LengthFrom, High, 10),
    Edge(9, End, Plain, 9),
    Edge(9, Any, Plain, 9),
    Edge(10, End, Plain, 10),
];

/// `ip community-list` (1..99 | `standard` NAME) (`permit`|`deny`) C C ...
pub const COMMUNITY_LIST: [Edge; 12] = [
    Edge(0, Range(1, 99), Number, 2),
    Edge(0, Key(*b"standard              "), Plain, 1),
    Edge(1, AnyName, Name, 2),
    Edge(2, Named(*b"permit                ", 1), Action, 3),
    Edge(2, Named(*b"deny                  ", 0), Action, 3),
    Edge(3, AnyCommunity, Community, 4),
    Edge(
        3,
        Named(*b"no-export             ", 0xffff_ff01),
        Community,
        4,
    ),
    Edge(
        3,
        Named(*b"no-advertise          ", 0xffff_ff02),
        Community,
        4,
    ),
    Edge(4, End, Plain, 4),
    Edge(4, AnyCommunity, Community, 4),
    Edge(
        4,
        Named(*b"no-export             ", 0xffff_ff01),
        Community,
        4,
    ),
    Edge(
        4,
        Named(*b"no-advertise          ", 0xffff_ff02),
        Community,
        4,
    ),
];

/// `ip as-path access-list` 1..500 (`permit`|`deny`) PATTERN
pub const AS_PATH_LIST: [Edge; 5] = [
    Edge(0, Range(1, 500), Number, 1),
    Edge(1, Named(*b"permit                ", 1), Action, 2),
    Edge(1, Named(*b"deny                  ", 0), Action, 2),
    Edge(2, AnyPattern, Plain, 3),
    Edge(3, End, Plain, 3),
];

/// `route-map` NAME (`permit`|`deny`) 0..65535
pub const ROUTE_MAP: [Edge; 5] = [
    Edge(0, AnyName, Name, 1),
    Edge(1, Named(*b"permit                ", 1), Action, 2),
    Edge(1, Named(*b"deny                  ", 0), Action, 2),
    Edge(2, Range(0, 65_535), Sequence, 3),
    Edge(3, End, Plain, 3),
];

/// The state in which an entry begins in the block of an `ip access-list standard` line.
pub const IN_STANDARD: u8 = 50;

/// The state in which an entry begins in the block of an `ip access-list extended` line.
pub const IN_EXTENDED: u8 = 60;

/// `access-list` 1..99 or 1300..1999 and (`permit`|`deny`) (`any` | `host` A | A [W]) [`log`]; 100..199 or 2000..2699
/// and (`permit`|`deny`) (`ip`|`icmp`|`tcp`|`udp`|0..255) END [PORT] END [PORT] [`log`|`log-input`]; or `remark` and any
/// words. END is `any`, `host` A or A W; PORT, of TCP and UDP alone, is `eq`, `neq`, `lt` or `gt` and a port, or `range`
/// and two. 256 stands for every protocol. An entry in the block of an `ip access-list` line may begin with a number.
pub const ACCESS_LIST: [Edge; 75] = [
    Edge(0, Range(1, 99), Number, 1),
    Edge(0, Range(1300, 1999), Number, 1),
    Edge(0, Range(100, 199), Number, 10),
    Edge(0, Range(2000, 2699), Number, 10),
    Edge(1, Named(*b"permit                ", 1), Action, 2),
    Edge(1, Named(*b"deny                  ", 0), Action, 2),
    Edge(1, Key(*b"remark                "), Plain, 40),
    Edge(2, Key(*b"any                   "), Plain, 5),
    Edge(2, Key(*b"host                  "), Plain, 3),
    Edge(2, AnyAddress, Source, 4),
    Edge(3, AnyAddress, Source, 5),
    Edge(4, End, Plain, 4),
    Edge(4, AnyAddress, SourceWild, 5),
    Edge(4, Key(*b"log                   "), Plain, 6),
    Edge(5, End, Plain, 5),
    Edge(5, Key(*b"log                   "), Plain, 6),
    Edge(6, End, Plain, 6),
    Edge(10, Named(*b"permit                ", 1), Action, 11),
    Edge(10, Named(*b"deny                  ", 0), Action, 11),
    Edge(10, Key(*b"remark                "), Plain, 40),
    Edge(11, Named(*b"ip                    ", 256), Protocol, 12),
    Edge(11, Named(*b"icmp                  ", 1), Protocol, 12),
    Edge(11, Named(*b"tcp                   ", 6), Protocol, 12),
    Edge(11, Named(*b"udp                   ", 17), Protocol, 12),
    Edge(11, Range(0, 255), Protocol, 12),
    Edge(12, Key(*b"any                   "), Plain, 15),
    Edge(12, Key(*b"host                  "), Plain, 13),
    Edge(12, AnyAddress, Source, 14),
    Edge(13, AnyAddress, Source, 15),
    Edge(14, AnyAddress, SourceWild, 15),
    Edge(15, Key(*b"any                   "), Plain, 25),
    Edge(15, Key(*b"host                  "), Plain, 23),
    Edge(15, AnyAddress, Target, 24),
    Edge(15, PortKey(*b"eq                    ", 0), SourceTest, 16),
    Edge(15, PortKey(*b"neq                   ", 1), SourceTest, 16),
    Edge(15, PortKey(*b"lt                    ", 2), SourceTest, 16),
    Edge(15, PortKey(*b"gt                    ", 3), SourceTest, 16),
    Edge(15, PortKey(*b"range                 ", 4), SourceTest, 17),
    Edge(16, AnyPort, SourcePort, 20),
    Edge(17, AnyPort, SourcePort, 18),
    Edge(18, PortFrom(SourcePort), SourceTop, 20),
    Edge(20, Key(*b"any                   "), Plain, 25),
    Edge(20, Key(*b"host                  "), Plain, 23),
    Edge(20, AnyAddress, Target, 24),
    Edge(23, AnyAddress, Target, 25),
    Edge(24, AnyAddress, TargetWild, 25),
    Edge(25, End, Plain, 25),
    Edge(25, PortKey(*b"eq                    ", 0), TargetTest, 26),
    Edge(25, PortKey(*b"neq                   ", 1), TargetTest, 26),
    Edge(25, PortKey(*b"lt                    ", 2), TargetTest, 26),
    Edge(25, PortKey(*b"gt                    ", 3), TargetTest, 26),
    Edge(25, PortKey(*b"range                 ", 4), TargetTest, 27),
    Edge(25, Key(*b"log                   "), Plain, 30),
    Edge(25, Key(*b"log-input             "), Plain, 30),
    Edge(26, AnyPort, TargetPort, 29),
    Edge(27, AnyPort, TargetPort, 28),
    Edge(28, PortFrom(TargetPort), TargetTop, 29),
    Edge(29, End, Plain, 29),
    Edge(29, Key(*b"log                   "), Plain, 30),
    Edge(29, Key(*b"log-input             "), Plain, 30),
    Edge(30, End, Plain, 30),
    Edge(40, End, Plain, 40),
    Edge(40, Any, Plain, 40),
    Edge(50, Named(*b"permit                ", 1), Action, 2),
    Edge(50, Named(*b"deny                  ", 0), Action, 2),
    Edge(50, Key(*b"remark                "), Plain, 40),
    Edge(50, Range(0, 4_294_967_295), Plain, 51),
    Edge(51, Named(*b"permit                ", 1), Action, 2),
    Edge(51, Named(*b"deny                  ", 0), Action, 2),
    Edge(60, Named(*b"permit                ", 1), Action, 11),
    Edge(60, Named(*b"deny                  ", 0), Action, 11),
    Edge(60, Key(*b"remark                "), Plain, 40),
    Edge(60, Range(0, 4_294_967_295), Plain, 61),
    Edge(61, Named(*b"permit                ", 1), Action, 11),
    Edge(61, Named(*b"deny                  ", 0), Action, 11),
];

/// `match ip address`, `match ip address prefix-list` and `match community`: one or more names
pub const MATCH_NAMES: [Edge; 3] = [
    Edge(0, AnyName, Name, 1),
    Edge(1, End, Plain, 1),
    Edge(1, AnyName, Name, 1),
];

/// `match as-path`: one or more 1..500
pub const MATCH_AS_PATH: [Edge; 3] = [
    Edge(0, Range(1, 500), Number, 1),
    Edge(1, End, Plain, 1),
    Edge(1, Range(1, 500), Number, 1),
];

/// `set local-preference` and `set metric`: 0..4294967295
pub const SET_NUMBER: [Edge; 2] = [
    Edge(0, Range(0, 4_294_967_295), Number, 1),
    Edge(1, End, Plain, 1),
];

/// `set weight` 0..65535
pub const SET_WEIGHT: [Edge; 2] = [Edge(0, Range(0, 65_535), Number, 1), Edge(1, End, Plain, 1)];

/// `set community` (`none` | C C ... [`additive`])
pub const SET_COMMUNITY: [Edge; 10] = [
    Edge(0, AnyCommunity, Community, 1),
    Edge(
        0,
        Named(*b"no-export             ", 0xffff_ff01),
        Community,
        1,
    ),
    Edge(
        0,
        Named(*b"no-advertise          ", 0xffff_ff02),
        Community,
        1,
    ),
    Edge(0, Named(*b"none                  ", 0), Number, 2),
    Edge(1, End, Plain, 1),
    Edge(1, AnyCommunity, Community, 1),
    Edge(
        1,
        Named(*b"no-export             ", 0xffff_ff01),
        Community,
        1,
    ),
    Edge(
        1,
        Named(*b"no-advertise          ", 0xffff_ff02),
        Community,
        1,
    ),
    Edge(1, Named(*b"additive              ", 1), Number, 2),
    Edge(2, End, Plain, 2),
];

/// `set origin` (`igp`|`incomplete`)
pub const SET_ORIGIN: [Edge; 3] = [
    Edge(0, Named(*b"igp                   ", 1), Number, 1),
    Edge(0, Named(*b"incomplete            ", 0), Number, 1),
    Edge(1, End, Plain, 1),
];

/// `set as-path prepend`: one or more 1..4294967295
pub const SET_PREPEND: [Edge; 3] = [
    Edge(0, Range(1, 4_294_967_295), Number, 1),
    Edge(1, End, Plain, 1),
    Edge(1, Range(1, 4_294_967_295), Number, 1),
];

/// `set metric-type` (`type-1`|`type-2`)
pub const SET_METRIC_TYPE: [Edge; 3] = [
    Edge(0, Named(*b"type-1                ", 1), Number, 1),
    Edge(0, Named(*b"type-2                ", 2), Number, 1),
    Edge(1, End, Plain, 1),
];
