//! What a configuration file of a router says, as plain data. Each part keeps the number of its line.
#![tactic(auto)]

pub mod bgp;
pub mod file;
pub mod ospf;
pub mod policies;

pub use bgp::{Bgp, BgpNet, Neighbour};
pub use file::{
    File, IfAddr, Iface, MOST_INTERFACES, MOST_LINES, MOST_NEIGHBOURS, MOST_POLICY_ENTRIES,
    StaticRoute, Use, Via,
};
pub use ospf::{DefaultOrigin, Ospf, OspfNet, Redist, Source};
pub use policies::{
    AccessEntry, AccessList, AsPathEntry, AsPathList, CommunityEntry, CommunityList, MapEntry,
    Match, Pattern, Policies, Ports, PrefixEntry, PrefixList, RouteMap, SetAct, Wild,
};
