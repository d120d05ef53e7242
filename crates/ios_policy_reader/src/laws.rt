//! What the grammar says of bad words. Each function only carries its law.
#![tactic(auto, unfolding(crate::specs::Masks::length_below, crate::specs::Words::port_of, crate::specs::Edges::said_by, crate::specs::Edges::said_back))]

ghost use Rattle.std.specs.Prelude.{◌≡◌, ℕ, true, codes, drop, List, [], Ok, Err};
ghost use Rattle.ios_policy_reader.specs.Edges.{read_from, bad_word_of, bad_word_from};
ghost use Rattle.ios_policy_reader.specs.Least.{IsFirstBad, no_dead_end};
ghost use Rattle.ios_policy_reader.specs.declared.cause.Cause.TheVariants.{BadWord, OutOfPlace, UnknownCommand};
ghost use Rattle.ios_policy_reader.specs.Heads.{edges_of, state_of, tail_of, said_in, row_of};
ghost use Rattle.ios_policy_reader.specs.declared.heads.Row.{Row};
ghost use Rattle.ios_policy_reader.specs.declared.heads.Row.TheVariants.{Ignored, Hostname, StaticRoute, AccessList, StandardBlock, Address, NoShutdown, BgpNetwork, OspfNetwork, MatchAddress, MatchPrefixList, SetPrepend, StandardEntry};
ghost use Rattle.ios_policy_reader.specs.declared.heads.Context.TheVariants.{Top, InInterface, InOspf, InBgp, InMap, InStandard};
ghost use Rattle.ios_policy_reader.specs.declared.heads.Found.{Found};
ghost use Rattle.ios_policy_reader.specs.declared.edges.Edge.{Edge};
ghost use Rattle.mw_text.specs.Words.{words_in};

use crate::tables::{
    ACCESS_LIST, AS_PATH_LIST, COMMUNITY_LIST, IN_EXTENDED, IN_STANDARD, MATCH_AS_PATH,
    MATCH_NAMES, PREFIX_LIST, ROUTE_MAP, SET_COMMUNITY, SET_METRIC_TYPE, SET_NUMBER, SET_ORIGIN,
    SET_PREPEND, SET_WEIGHT,
};

/// Where a table has no dead end, a bad word is the first one: the words before it begin a line of the row, and with it
/// they begin none.
pub fn bad_word_law()
    ensures { (edges : List Edge) (from : ℕ) → no_dead_end edges from ≡ true → (head : ℕ) (words : List (List ℕ)) (n : ℕ)
        → read_from edges from [] head words ≡ Err (BadWord n) → IsFirstBad edges from head words n }
{}

/// No row has a dead end, so that the word which is bad in a line of a row is the first one.
pub fn rows_law()
    ensures no_dead_end { (row : Row) → no_dead_end (edges_of row) (state_of row) ≡ true }
    ensures first { (found : Found) (words : List (List ℕ)) (n : ℕ) → said_in found words ≡ Err (BadWord n)
        → IsFirstBad (edges_of found.row) (state_of found.row) (tail_of found) (drop (tail_of found) words) n }
{}

/// Worked lines of prefix lists: which word is bad.
pub fn prefix_list_lines()
    ensures whole { bad_word_of PREFIX_LIST 2 (codes "ip prefix-list p seq 5 permit 10.0.0.0/8 ge 9 le 32") ≡ 0 }
    ensures short { bad_word_of PREFIX_LIST 2 (codes "ip prefix-list p permit 10.0.0.0/8") ≡ 0 }
    ensures text { bad_word_of PREFIX_LIST 2 (codes "ip prefix-list p description any words") ≡ 0 }
    ensures ends_early { bad_word_of PREFIX_LIST 2 (codes "ip prefix-list p seq 5 permit") ≡ 7 }
    ensures no_number { bad_word_of PREFIX_LIST 2 (codes "ip prefix-list p seq 0 permit 10.0.0.0/8") ≡ 5 }
    ensures below_length { bad_word_of PREFIX_LIST 2 (codes "ip prefix-list p permit 10.0.0.0/8 ge 7") ≡ 7 }
    ensures below_least { bad_word_of PREFIX_LIST 2 (codes "ip prefix-list p permit 10.0.0.0/8 ge 9 le 8") ≡ 9 }
    ensures turned { bad_word_of PREFIX_LIST 2 (codes "ip prefix-list p permit 10.0.0.0/8 le 9 ge 8") ≡ 8 }
{}

/// Worked lines of the other lists and of route maps: which word is bad.
pub fn list_lines()
    ensures communities { bad_word_of COMMUNITY_LIST 2 (codes "ip community-list standard c permit 1:2 no-export 7") ≡ 0 }
    ensures no_community { bad_word_of COMMUNITY_LIST 2 (codes "ip community-list 5 permit") ≡ 5 }
    ensures large_half { bad_word_of COMMUNITY_LIST 2 (codes "ip community-list 5 permit 1:65536") ≡ 5 }
    ensures large_list { bad_word_of COMMUNITY_LIST 2 (codes "ip community-list 100 permit 1") ≡ 3 }
    ensures pattern { bad_word_of AS_PATH_LIST 3 (codes "ip as-path access-list 1 permit _65001_") ≡ 0 }
    ensures other_pattern { bad_word_of AS_PATH_LIST 3 (codes "ip as-path access-list 1 permit 65001") ≡ 6 }
    ensures map { bad_word_of ROUTE_MAP 1 (codes "route-map m deny 65535") ≡ 0 }
    ensures large_map { bad_word_of ROUTE_MAP 1 (codes "route-map m deny 65536") ≡ 4 }
    ensures trailing { bad_word_of ROUTE_MAP 1 (codes "route-map m deny 10 more") ≡ 5 }
{}

/// Worked lines of access lists: which word is bad.
pub fn access_list_lines()
    ensures standard { bad_word_of ACCESS_LIST 1 (codes "access-list 5 deny 10.0.0.0 0.0.0.255 log") ≡ 0 }
    ensures host_alone { bad_word_of ACCESS_LIST 1 (codes "access-list 1999 permit host") ≡ 5 }
    ensures twice { bad_word_of ACCESS_LIST 1 (codes "access-list 5 permit any any") ≡ 5 }
    ensures remark { bad_word_of ACCESS_LIST 1 (codes "access-list 100 remark any words") ≡ 0 }
    ensures number { bad_word_of ACCESS_LIST 1 (codes "access-list 200 permit any") ≡ 2 }
    ensures range { bad_word_of ACCESS_LIST 1 (codes "access-list 101 permit tcp any range 20 ftp host 10.0.0.1 eq www log") ≡ 0 }
    ensures turned_range { bad_word_of ACCESS_LIST 1 (codes "access-list 101 permit udp any any range 30 20") ≡ 9 }
    ensures no_ports { bad_word_of ACCESS_LIST 1 (codes "access-list 101 permit icmp any eq 5 any") ≡ 6 }
    ensures no_target { bad_word_of ACCESS_LIST 1 (codes "access-list 101 deny ip any") ≡ 6 }
    ensures protocol { bad_word_of ACCESS_LIST 1 (codes "access-list 2699 permit 256 any any") ≡ 4 }
    ensures large_port { bad_word_of ACCESS_LIST 1 (codes "access-list 101 permit 6 any any eq 65536") ≡ 8 }
{}

/// Worked lines of route maps' blocks: which word is bad.
pub fn map_block_lines()
    ensures names { bad_word_of MATCH_NAMES 3 (codes "match ip address a b c") ≡ 0 }
    ensures no_name { bad_word_of MATCH_NAMES 4 (codes "match ip address prefix-list") ≡ 5 }
    ensures paths { bad_word_of MATCH_AS_PATH 2 (codes "match as-path 1 501") ≡ 4 }
    ensures metric { bad_word_of SET_NUMBER 2 (codes "set metric 4294967295") ≡ 0 }
    ensures large_metric { bad_word_of SET_NUMBER 2 (codes "set metric 4294967296") ≡ 3 }
    ensures weight { bad_word_of SET_WEIGHT 2 (codes "set weight 65536") ≡ 3 }
    ensures communities { bad_word_of SET_COMMUNITY 2 (codes "set community 1:2 no-export additive") ≡ 0 }
    ensures none_more { bad_word_of SET_COMMUNITY 2 (codes "set community none 5") ≡ 4 }
    ensures additive_alone { bad_word_of SET_COMMUNITY 2 (codes "set community additive") ≡ 3 }
    ensures origin { bad_word_of SET_ORIGIN 2 (codes "set origin egp") ≡ 3 }
    ensures prepend { bad_word_of SET_PREPEND 3 (codes "set as-path prepend 65001 4294967295") ≡ 0 }
    ensures prepend_zero { bad_word_of SET_PREPEND 3 (codes "set as-path prepend 65001 0") ≡ 5 }
    ensures kind { bad_word_of SET_METRIC_TYPE 2 (codes "set metric-type type-1") ≡ 0 }
{}

/// Worked lines in the blocks of access lists: which word is bad.
pub fn list_block_lines()
    ensures numbered { bad_word_from ACCESS_LIST IN_STANDARD 0 (codes "10 permit any log") ≡ 0 }
    ensures numbered_remark { bad_word_from ACCESS_LIST IN_STANDARD 0 (codes "10 remark any words") ≡ 2 }
    ensures number_alone { bad_word_from ACCESS_LIST IN_STANDARD 0 (codes "10") ≡ 2 }
    ensures no_action { bad_word_from ACCESS_LIST IN_STANDARD 0 (codes "10 any") ≡ 2 }
    ensures no_host { bad_word_from ACCESS_LIST IN_STANDARD 0 (codes "deny host") ≡ 3 }
    ensures remark { bad_word_from ACCESS_LIST IN_EXTENDED 0 (codes "remark any words") ≡ 0 }
    ensures ports { bad_word_from ACCESS_LIST IN_EXTENDED 0 (codes "4294967295 permit tcp any gt 1023 any eq bgp") ≡ 0 }
    ensures no_target { bad_word_from ACCESS_LIST IN_EXTENDED 0 (codes "permit ip any") ≡ 4 }
{}

/// Worked lines: which row they are of, and how many words their heads have.
pub fn row_lines()
    ensures host_name { row_of Top (words_in (codes "HOSTNAME r")) ≡ Ok (record { row = Hostname; head = 1 }) }
    ensures route { row_of Top (words_in (codes "ip route 10.0.0.0")) ≡ Ok (record { row = StaticRoute; head = 2 }) }
    ensures access_list { row_of Top (words_in (codes "access-list 5 permit any")) ≡ Ok (record { row = AccessList; head = 1 }) }
    ensures list_block { row_of Top (words_in (codes "ip access-list standard 5")) ≡ Ok (record { row = StandardBlock; head = 3 }) }
    ensures ignored { row_of Top (words_in (codes "ip http server")) ≡ Ok (record { row = Ignored; head = 2 }) }
    ensures ignored_no { row_of Top (words_in (codes "no ip domain-lookup")) ≡ Ok (record { row = Ignored; head = 3 }) }
    ensures address { row_of InInterface (words_in (codes "ip address")) ≡ Ok (record { row = Address; head = 2 }) }
    ensures no_shutdown { row_of InInterface (words_in (codes "no shutdown")) ≡ Ok (record { row = NoShutdown; head = 2 }) }
    ensures ospf_network { row_of InOspf (words_in (codes "network")) ≡ Ok (record { row = OspfNetwork; head = 1 }) }
    ensures bgp_network { row_of InBgp (words_in (codes "network")) ≡ Ok (record { row = BgpNetwork; head = 1 }) }
    ensures names { row_of InMap (words_in (codes "match ip address p")) ≡ Ok (record { row = MatchAddress; head = 3 }) }
    ensures longest { row_of InMap (words_in (codes "match ip address prefix-list p")) ≡ Ok (record { row = MatchPrefixList; head = 4 }) }
    ensures prepend { row_of InMap (words_in (codes "set as-path prepend 1")) ≡ Ok (record { row = SetPrepend; head = 3 }) }
    ensures numbered { row_of InStandard (words_in (codes "10 foo")) ≡ Ok (record { row = StandardEntry; head = 0 }) }
    ensures entry { row_of InStandard (words_in (codes "permit any")) ≡ Ok (record { row = StandardEntry; head = 1 }) }
    ensures short_head { row_of Top (words_in (codes "ip")) ≡ Err UnknownCommand }
    ensures unknown { row_of Top (words_in (codes "ip foo")) ≡ Err UnknownCommand }
    ensures unknown_entry { row_of InStandard (words_in (codes "foo")) ≡ Err UnknownCommand }
    ensures interface_row { row_of Top (words_in (codes "shutdown")) ≡ Err OutOfPlace }
    ensures list_row { row_of Top (words_in (codes "permit any")) ≡ Err OutOfPlace }
    ensures top_row { row_of InOspf (words_in (codes "hostname r")) ≡ Err OutOfPlace }
{}
