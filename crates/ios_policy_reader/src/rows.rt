//! The table of each row, and what the words of a line say along it.

ghost use Rattle.std.specs.Prelude.{◌≡◌, ◌≢◌, ℕ, ◌-◌, ◌<◌, ◌≤◌, ◌^◌, IfOk, IfErr, Ok, Err, length};
ghost use Rattle.ios_policy_reader.specs.Heads.{edges_of, state_of, tail_of, said_in};

use crate::cause::Cause;
use crate::edges::Edge;
use crate::heads::{Found, Row};
use crate::router_tables::{
    ACCESS_GROUP, ANYTHING, AS_NUMBER, BANDWIDTH, BANNER, BGP_NETWORK, BGP_REDISTRIBUTE,
    DEFAULT_ORIGINATE, EXTENDED_LIST, HOSTNAME, INTERFACE, INTERFACE_ADDRESS, NEIGHBOR, NOTHING,
    OSPF_NETWORK, OSPF_REDISTRIBUTE, PASSIVE, REFERENCE_BANDWIDTH, ROUTE, ROUTER_ID, SMALL_NUMBER,
    STANDARD_LIST,
};
use crate::said::Said;
use crate::tables::{
    ACCESS_LIST, AS_PATH_LIST, COMMUNITY_LIST, IN_EXTENDED, IN_STANDARD, MATCH_AS_PATH,
    MATCH_NAMES, PREFIX_LIST, ROUTE_MAP, SET_COMMUNITY, SET_METRIC_TYPE, SET_NUMBER, SET_ORIGIN,
    SET_PREPEND, SET_WEIGHT,
};
use crate::tail::read_tail;
use mw_text::List;
use std::alloc::Global;

/// The edges of a row.
#[tactic(auto, unfolding(crate::specs::Heads::edges_of))]
fn edges_in(row: Row) -> &'static [Edge]
    ensures { result.now ≡ edges_of row }
{
    match row {
        Row::Hostname => &HOSTNAME,
        Row::InterfaceBlock | Row::NoPassive => &INTERFACE,
        Row::StaticRoute => &ROUTE,
        Row::OspfBlock | Row::OspfCost => &SMALL_NUMBER,
        Row::BgpBlock => &AS_NUMBER,
        Row::AccessList | Row::StandardEntry | Row::ExtendedEntry => &ACCESS_LIST,
        Row::StandardBlock => &STANDARD_LIST,
        Row::ExtendedBlock => &EXTENDED_LIST,
        Row::PrefixList => &PREFIX_LIST,
        Row::CommunityList => &COMMUNITY_LIST,
        Row::PathList => &AS_PATH_LIST,
        Row::MapBlock => &ROUTE_MAP,
        Row::Banner => &BANNER,
        Row::IgnoredBlock | Row::Ignored => &ANYTHING,
        Row::Address => &INTERFACE_ADDRESS,
        Row::NoAddress
        | Row::Shutdown
        | Row::NoShutdown
        | Row::AlwaysCompareMed
        | Row::CompareRouterId
        | Row::DeterministicMed => &NOTHING,
        Row::Bandwidth => &BANDWIDTH,
        Row::AccessGroup => &ACCESS_GROUP,
        Row::RouterId => &ROUTER_ID,
        Row::OspfNetwork => &OSPF_NETWORK,
        Row::Passive => &PASSIVE,
        Row::ReferenceBandwidth => &REFERENCE_BANDWIDTH,
        Row::OspfRedistribute => &OSPF_REDISTRIBUTE,
        Row::Originate => &DEFAULT_ORIGINATE,
        Row::BgpNetwork => &BGP_NETWORK,
        Row::BgpRedistribute => &BGP_REDISTRIBUTE,
        Row::Neighbor => &NEIGHBOR,
        Row::MatchAddress | Row::MatchPrefixList | Row::MatchCommunity => &MATCH_NAMES,
        Row::MatchPath => &MATCH_AS_PATH,
        Row::SetPreference | Row::SetMetric => &SET_NUMBER,
        Row::SetWeight => &SET_WEIGHT,
        Row::SetCommunity => &SET_COMMUNITY,
        Row::SetOrigin => &SET_ORIGIN,
        Row::SetPrepend => &SET_PREPEND,
        Row::SetMetricType => &SET_METRIC_TYPE,
    }
}

/// The state in which a line of the row begins.
fn state_in(row: Row) -> u8
    ensures { result ≡ state_of row }
{
    match row {
        Row::StandardEntry => IN_STANDARD,
        Row::ExtendedEntry => IN_EXTENDED,
        _ => 0,
    }
}

/// How many words stand before those that the edges read: none in the block of an access list.
fn tail_in(found: Found) -> u32
    ensures { result ≡ tail_of found }
{
    match found.row {
        Row::StandardEntry | Row::ExtendedEntry => 0,
        _ => found.head,
    }
}

/// What the words of a line of the row say.
pub fn read_row(alloc: Global, found: Found, words: &[List<u8>]) -> Result<List<Said>, Cause>
    requires few { length words.now < 2 ^ 32 - 1 }
    requires head { found.head ≤ length words.now }
    ensures ok { IfOk result (λ said. said_in found words.now ≡ Ok said) }
    ensures refused { IfErr result (λ cause. cause ≢ Cause.Memory → said_in found words.now ≡ Err cause) }
{
    read_tail(
        alloc,
        edges_in(found.row),
        state_in(found.row),
        tail_in(found),
        words,
    )
}
