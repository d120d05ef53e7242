//! The rows of a router, its interfaces and its routing processes: what may follow their heads.

use crate::edges::Edge;
use crate::edges::Takes::{
    Any, AnyAddress, AnyName, ClassAddress, End, Interface, Key, ListName, Mask, MaskOver, Named,
    Once, Range, RouterName,
};
use crate::said::Tag::{
    Address, Always, Area, Client, Direction, Discard, Distance, Every, FilterList, Leaving,
    Length, Map, Match, Metric, MetricType, Name, NextHop, NextHopSelf, Number, Origin, Plain,
    Prefix, PrefixList, Remote, SendCommunity, Shutdown, Subnets, UpdateSource, Weight, Wildcard,
};

/// A row with no tail
pub const NOTHING: [Edge; 1] = [Edge(0, End, Plain, 0)];

/// A row that is ignored: any words
pub const ANYTHING: [Edge; 2] = [Edge(0, End, Plain, 0), Edge(0, Any, Plain, 0)];

/// `hostname` NAME of letters, digits, `-`, `_` and `.`
pub const HOSTNAME: [Edge; 2] = [Edge(0, RouterName, Name, 1), Edge(1, End, Plain, 1)];

/// `interface` and `no passive-interface`: IF
pub const INTERFACE: [Edge; 2] = [Edge(0, Interface, Name, 1), Edge(1, End, Plain, 1)];

/// `ip route` A M (A | `Null0` | IF A) [1..255] [`name` NAME]; A under M is A
pub const ROUTE: [Edge; 13] = [
    Edge(0, AnyAddress, Address, 1),
    Edge(1, MaskOver, Prefix, 2),
    Edge(2, AnyAddress, NextHop, 4),
    Edge(2, Key(*b"null0                 "), Discard, 4),
    Edge(2, Interface, Leaving, 3),
    Edge(3, AnyAddress, NextHop, 4),
    Edge(4, End, Plain, 4),
    Edge(4, Range(1, 255), Distance, 5),
    Edge(4, Key(*b"name                  "), Plain, 6),
    Edge(5, End, Plain, 5),
    Edge(5, Key(*b"name                  "), Plain, 6),
    Edge(6, AnyName, Plain, 7),
    Edge(7, End, Plain, 7),
];

/// `router ospf` and `ip ospf cost`: 1..65535
pub const SMALL_NUMBER: [Edge; 2] = [Edge(0, Range(1, 65_535), Number, 1), Edge(1, End, Plain, 1)];

/// `router bgp` 1..4294967295
pub const AS_NUMBER: [Edge; 2] = [
    Edge(0, Range(1, 4_294_967_295), Number, 1),
    Edge(1, End, Plain, 1),
];

/// `ip access-list standard` (NAME | 1..99 | 1300..1999), with a NAME that is not all digits
pub const STANDARD_LIST: [Edge; 4] = [
    Edge(0, ListName, Name, 1),
    Edge(0, Range(1, 99), Number, 1),
    Edge(0, Range(1300, 1999), Number, 1),
    Edge(1, End, Plain, 1),
];

/// `ip access-list extended` (NAME | 100..199 | 2000..2699), with a NAME that is not all digits
pub const EXTENDED_LIST: [Edge; 4] = [
    Edge(0, ListName, Name, 1),
    Edge(0, Range(100, 199), Number, 1),
    Edge(0, Range(2000, 2699), Number, 1),
    Edge(1, End, Plain, 1),
];

/// `ip address` A M
pub const INTERFACE_ADDRESS: [Edge; 3] = [
    Edge(0, AnyAddress, Address, 1),
    Edge(1, Mask(1), Length, 2),
    Edge(2, End, Plain, 2),
];

/// `bandwidth` 1..10000000, in kb/s
pub const BANDWIDTH: [Edge; 2] = [
    Edge(0, Range(1, 10_000_000), Number, 1),
    Edge(1, End, Plain, 1),
];

/// `ip access-group` NAME (`in`|`out`)
pub const ACCESS_GROUP: [Edge; 4] = [
    Edge(0, AnyName, Name, 1),
    Edge(1, Named(*b"in                    ", 1), Direction, 2),
    Edge(1, Named(*b"out                   ", 0), Direction, 2),
    Edge(2, End, Plain, 2),
];

/// `router-id` and `bgp router-id`: A
pub const ROUTER_ID: [Edge; 2] = [Edge(0, AnyAddress, Address, 1), Edge(1, End, Plain, 1)];

/// `network` A W `area` (0..4294967295 | A), of OSPF
pub const OSPF_NETWORK: [Edge; 6] = [
    Edge(0, AnyAddress, Address, 1),
    Edge(1, AnyAddress, Wildcard, 2),
    Edge(2, Key(*b"area                  "), Plain, 3),
    Edge(3, Range(0, 4_294_967_295), Area, 4),
    Edge(3, AnyAddress, Area, 4),
    Edge(4, End, Plain, 4),
];

/// `passive-interface` (IF | `default`)
pub const PASSIVE: [Edge; 3] = [
    Edge(0, Interface, Name, 1),
    Edge(0, Key(*b"default               "), Every, 1),
    Edge(1, End, Plain, 1),
];

/// `auto-cost reference-bandwidth` 1..4294967, in Mb/s
pub const REFERENCE_BANDWIDTH: [Edge; 2] = [
    Edge(0, Range(1, 4_294_967), Number, 1),
    Edge(1, End, Plain, 1),
];

/// `redistribute` (`connected` | `static` | `bgp` 1..4294967295) into OSPF, then each at most once in any order: `metric`
/// 0..16777214, `metric-type` (`1`|`2`), `subnets`, `route-map` NAME
pub const OSPF_REDISTRIBUTE: [Edge; 13] = [
    Edge(0, Named(*b"connected             ", 0), Origin, 2),
    Edge(0, Named(*b"static                ", 1), Origin, 2),
    Edge(0, Named(*b"bgp                   ", 3), Origin, 1),
    Edge(1, Range(1, 4_294_967_295), Number, 2),
    Edge(2, End, Plain, 2),
    Edge(2, Once(*b"metric                ", Metric), Metric, 3),
    Edge(
        2,
        Once(*b"metric-type           ", MetricType),
        MetricType,
        4,
    ),
    Edge(2, Once(*b"subnets               ", Subnets), Subnets, 2),
    Edge(2, Once(*b"route-map             ", Map), Map, 5),
    Edge(3, Range(0, 16_777_214), Metric, 2),
    Edge(4, Named(*b"1                     ", 1), MetricType, 2),
    Edge(4, Named(*b"2                     ", 2), MetricType, 2),
    Edge(5, AnyName, Map, 2),
];

/// `default-information originate`, then each at most once in any order: `always`, `metric` 0..16777214, `metric-type`
/// (`1`|`2`)
pub const DEFAULT_ORIGINATE: [Edge; 7] = [
    Edge(0, End, Plain, 0),
    Edge(0, Once(*b"always                ", Always), Always, 0),
    Edge(0, Once(*b"metric                ", Metric), Metric, 1),
    Edge(
        0,
        Once(*b"metric-type           ", MetricType),
        MetricType,
        2,
    ),
    Edge(1, Range(0, 16_777_214), Metric, 0),
    Edge(2, Named(*b"1                     ", 1), MetricType, 0),
    Edge(2, Named(*b"2                     ", 2), MetricType, 0),
];

/// `network` A [`mask` M] [`route-map` NAME], of BGP; without a mask A is of class A, B or C
pub const BGP_NETWORK: [Edge; 11] = [
    Edge(0, ClassAddress, Address, 1),
    Edge(0, AnyAddress, Address, 2),
    Edge(1, End, Plain, 1),
    Edge(1, Key(*b"mask                  "), Plain, 3),
    Edge(1, Key(*b"route-map             "), Plain, 5),
    Edge(2, Key(*b"mask                  "), Plain, 3),
    Edge(3, Mask(0), Length, 4),
    Edge(4, End, Plain, 4),
    Edge(4, Key(*b"route-map             "), Plain, 5),
    Edge(5, AnyName, Map, 6),
    Edge(6, End, Plain, 6),
];

/// `redistribute` (`connected` | `static` | `ospf` 1..65535) into BGP, then each at most once in any order: `match` and one
/// or more of `internal`, `external`, `external 1` and `external 2` (OSPF alone), `metric` 0..4294967295, `route-map` NAME.
/// `external` says 3, and a number after it which of the two.
pub const BGP_REDISTRIBUTE: [Edge; 29] = [
    Edge(0, Named(*b"connected             ", 0), Origin, 1),
    Edge(0, Named(*b"static                ", 1), Origin, 1),
    Edge(0, Named(*b"ospf                  ", 2), Origin, 4),
    Edge(1, End, Plain, 1),
    Edge(1, Once(*b"metric                ", Metric), Metric, 2),
    Edge(1, Once(*b"route-map             ", Map), Map, 3),
    Edge(2, Range(0, 4_294_967_295), Metric, 1),
    Edge(3, AnyName, Map, 1),
    Edge(4, Range(1, 65_535), Number, 5),
    Edge(5, End, Plain, 5),
    Edge(5, Once(*b"match                 ", Match), Match, 8),
    Edge(5, Once(*b"metric                ", Metric), Metric, 6),
    Edge(5, Once(*b"route-map             ", Map), Map, 7),
    Edge(6, Range(0, 4_294_967_295), Metric, 5),
    Edge(7, AnyName, Map, 5),
    Edge(8, Named(*b"internal              ", 0), Match, 9),
    Edge(8, Named(*b"external              ", 3), Match, 10),
    Edge(9, End, Plain, 9),
    Edge(9, Named(*b"internal              ", 0), Match, 9),
    Edge(9, Named(*b"external              ", 3), Match, 10),
    Edge(9, Once(*b"metric                ", Metric), Metric, 6),
    Edge(9, Once(*b"route-map             ", Map), Map, 7),
    Edge(10, End, Plain, 10),
    Edge(10, Named(*b"1                     ", 1), Match, 9),
    Edge(10, Named(*b"2                     ", 2), Match, 9),
    Edge(10, Named(*b"internal              ", 0), Match, 9),
    Edge(10, Named(*b"external              ", 3), Match, 10),
    Edge(10, Once(*b"metric                ", Metric), Metric, 6),
    Edge(10, Once(*b"route-map             ", Map), Map, 7),
];

/// `neighbor` A and one of: `remote-as` 1..4294967295; `update-source` IF; `next-hop-self`; `route-reflector-client`;
/// `send-community` [`both`|`standard`]; `weight` 0..65535; `shutdown`; (`prefix-list` | `route-map`) NAME (`in`|`out`);
/// `filter-list` 1..500 (`in`|`out`); or a word that is ignored, and any words
pub const NEIGHBOR: [Edge; 29] = [
    Edge(0, AnyAddress, Address, 1),
    Edge(1, Key(*b"remote-as             "), Remote, 2),
    Edge(1, Key(*b"update-source         "), UpdateSource, 3),
    Edge(1, Key(*b"next-hop-self         "), NextHopSelf, 9),
    Edge(1, Key(*b"route-reflector-client"), Client, 9),
    Edge(1, Key(*b"send-community        "), SendCommunity, 4),
    Edge(1, Key(*b"weight                "), Weight, 5),
    Edge(1, Key(*b"shutdown              "), Shutdown, 9),
    Edge(1, Key(*b"prefix-list           "), PrefixList, 6),
    Edge(1, Key(*b"route-map             "), Map, 6),
    Edge(1, Key(*b"filter-list           "), FilterList, 7),
    Edge(1, Key(*b"description           "), Plain, 10),
    Edge(1, Key(*b"password              "), Plain, 10),
    Edge(1, Key(*b"soft-reconfiguration  "), Plain, 10),
    Edge(1, Key(*b"timers                "), Plain, 10),
    Edge(1, Key(*b"version               "), Plain, 10),
    Edge(2, Range(1, 4_294_967_295), Number, 9),
    Edge(3, Interface, Name, 9),
    Edge(4, End, Plain, 4),
    Edge(4, Key(*b"both                  "), Plain, 9),
    Edge(4, Key(*b"standard              "), Plain, 9),
    Edge(5, Range(0, 65_535), Number, 9),
    Edge(6, AnyName, Name, 8),
    Edge(7, Range(1, 500), Number, 8),
    Edge(8, Named(*b"in                    ", 1), Direction, 9),
    Edge(8, Named(*b"out                   ", 0), Direction, 9),
    Edge(9, End, Plain, 9),
    Edge(10, End, Plain, 10),
    Edge(10, Any, Plain, 10),
];

/// `banner` (`motd` | `login` | `exec` | `incoming`) and a text
pub const BANNER: [Edge; 7] = [
    Edge(0, Key(*b"motd                  "), Plain, 1),
    Edge(0, Key(*b"login                 "), Plain, 1),
    Edge(0, Key(*b"exec                  "), Plain, 1),
    Edge(0, Key(*b"incoming              "), Plain, 1),
    Edge(1, Any, Plain, 2),
    Edge(2, End, Plain, 2),
    Edge(2, Any, Plain, 2),
];
