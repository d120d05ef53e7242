//! What the grammar says of a router's rows. Each function only carries its law.
#![tactic(auto, unfolding(crate::specs::Masks::length_below, crate::specs::Words::port_of, crate::specs::Edges::said_by, crate::specs::Edges::said_back))]

ghost use Rattle.std.specs.Prelude.{◌≡◌, codes};
ghost use Rattle.ios_policy_reader.specs.Edges.{bad_word_of};

use crate::router_tables::{
    ACCESS_GROUP, ANYTHING, AS_NUMBER, BANDWIDTH, BANNER, BGP_NETWORK, BGP_REDISTRIBUTE,
    DEFAULT_ORIGINATE, EXTENDED_LIST, HOSTNAME, INTERFACE, INTERFACE_ADDRESS, NEIGHBOR, NOTHING,
    OSPF_NETWORK, OSPF_REDISTRIBUTE, PASSIVE, REFERENCE_BANDWIDTH, ROUTE, ROUTER_ID, SMALL_NUMBER,
    STANDARD_LIST,
};

/// Worked top lines: which word is bad.
pub fn top_lines()
    ensures host_name { bad_word_of HOSTNAME 1 (codes "hostname r_1.a-b") ≡ 0 }
    ensures slash_in_host_name { bad_word_of HOSTNAME 1 (codes "hostname r/1") ≡ 2 }
    ensures two_host_names { bad_word_of HOSTNAME 1 (codes "hostname a b") ≡ 3 }
    ensures banner { bad_word_of BANNER 1 (codes "banner motd ^C any text") ≡ 0 }
    ensures no_banner { bad_word_of BANNER 1 (codes "banner motd") ≡ 3 }
    ensures interface { bad_word_of INTERFACE 1 (codes "interface gigabitEthernet0/0.1") ≡ 0 }
    ensures no_number { bad_word_of INTERFACE 1 (codes "interface Vlan") ≡ 2 }
    ensures no_interface { bad_word_of INTERFACE 1 (codes "interface") ≡ 2 }
    ensures discard { bad_word_of ROUTE 2 (codes "ip route 10.0.0.0 255.0.0.0 null0 200 name x") ≡ 0 }
    ensures default { bad_word_of ROUTE 2 (codes "ip route 0.0.0.0 0.0.0.0 Serial0/0 10.1.1.1") ≡ 0 }
    ensures past_mask { bad_word_of ROUTE 2 (codes "ip route 10.0.0.1 255.0.0.0 Null0") ≡ 4 }
    ensures no_next_hop { bad_word_of ROUTE 2 (codes "ip route 10.0.0.0 255.0.0.0 Serial0/0") ≡ 6 }
    ensures no_distance { bad_word_of ROUTE 2 (codes "ip route 10.0.0.0 255.0.0.0 10.1.1.1 0") ≡ 6 }
    ensures distance_late { bad_word_of ROUTE 2 (codes "ip route 10.0.0.0 255.0.0.0 10.1.1.1 name a 5") ≡ 8 }
    ensures process { bad_word_of SMALL_NUMBER 2 (codes "router ospf 65536") ≡ 3 }
    ensures as_number { bad_word_of AS_NUMBER 2 (codes "router bgp 4294967295") ≡ 0 }
    ensures large_as_number { bad_word_of AS_NUMBER 2 (codes "router bgp 4294967296") ≡ 3 }
    ensures dotted_as_number { bad_word_of AS_NUMBER 2 (codes "router bgp 1.1") ≡ 3 }
    ensures standard { bad_word_of STANDARD_LIST 3 (codes "ip access-list standard 1300") ≡ 0 }
    ensures standard_of_extended { bad_word_of STANDARD_LIST 3 (codes "ip access-list standard 100") ≡ 4 }
    ensures extended { bad_word_of EXTENDED_LIST 3 (codes "ip access-list extended to-web2") ≡ 0 }
    ensures two_names { bad_word_of EXTENDED_LIST 3 (codes "ip access-list extended a b") ≡ 5 }
{}

/// Worked lines of interface blocks: which word is bad.
pub fn interface_lines()
    ensures address { bad_word_of INTERFACE_ADDRESS 2 (codes "ip address 10.0.0.1 255.255.255.0") ≡ 0 }
    ensures no_mask { bad_word_of INTERFACE_ADDRESS 2 (codes "ip address 10.0.0.1 0.0.0.0") ≡ 4 }
    ensures broken_mask { bad_word_of INTERFACE_ADDRESS 2 (codes "ip address 10.0.0.1 255.0.255.0") ≡ 4 }
    ensures secondary { bad_word_of INTERFACE_ADDRESS 2 (codes "ip address 10.0.0.1 255.255.255.0 secondary") ≡ 5 }
    ensures shutdown { bad_word_of NOTHING 1 (codes "shutdown") ≡ 0 }
    ensures shutdown_more { bad_word_of NOTHING 1 (codes "shutdown now") ≡ 2 }
    ensures ignored { bad_word_of ANYTHING 1 (codes "description any words") ≡ 0 }
    ensures bandwidth { bad_word_of BANDWIDTH 1 (codes "bandwidth 10000000") ≡ 0 }
    ensures large_bandwidth { bad_word_of BANDWIDTH 1 (codes "bandwidth 10000001") ≡ 2 }
    ensures cost { bad_word_of SMALL_NUMBER 3 (codes "ip ospf cost 0") ≡ 4 }
    ensures group { bad_word_of ACCESS_GROUP 2 (codes "ip access-group 5 OUT") ≡ 0 }
    ensures no_direction { bad_word_of ACCESS_GROUP 2 (codes "ip access-group in") ≡ 4 }
{}

/// Worked lines of OSPF blocks: which word is bad.
pub fn ospf_lines()
    ensures network { bad_word_of OSPF_NETWORK 1 (codes "network 10.0.0.0 0.0.0.255 area 0.0.0.0") ≡ 0 }
    ensures area_number { bad_word_of OSPF_NETWORK 1 (codes "network 10.0.0.0 0.0.0.255 area 4294967296") ≡ 5 }
    ensures no_wildcard { bad_word_of OSPF_NETWORK 1 (codes "network 10.0.0.0 area 0") ≡ 3 }
    ensures passive { bad_word_of PASSIVE 1 (codes "passive-interface default") ≡ 0 }
    ensures no_passive { bad_word_of INTERFACE 2 (codes "no passive-interface default") ≡ 3 }
    ensures router_id { bad_word_of ROUTER_ID 1 (codes "router-id 1") ≡ 2 }
    ensures reference { bad_word_of REFERENCE_BANDWIDTH 2 (codes "auto-cost reference-bandwidth 4294968") ≡ 3 }
    ensures redistribute { bad_word_of OSPF_REDISTRIBUTE 1 (codes "redistribute connected subnets route-map m metric 16777214 metric-type 1") ≡ 0 }
    ensures metric_twice { bad_word_of OSPF_REDISTRIBUTE 1 (codes "redistribute bgp 1 metric 5 subnets metric 6") ≡ 7 }
    ensures metric_type { bad_word_of OSPF_REDISTRIBUTE 1 (codes "redistribute static metric-type 3") ≡ 4 }
    ensures large_metric { bad_word_of OSPF_REDISTRIBUTE 1 (codes "redistribute static metric 16777215") ≡ 4 }
    ensures into_itself { bad_word_of OSPF_REDISTRIBUTE 1 (codes "redistribute ospf 1") ≡ 2 }
    ensures no_as_number { bad_word_of OSPF_REDISTRIBUTE 1 (codes "redistribute bgp") ≡ 3 }
    ensures originate { bad_word_of DEFAULT_ORIGINATE 2 (codes "default-information originate metric-type 2 metric 1 always") ≡ 0 }
    ensures originate_alone { bad_word_of DEFAULT_ORIGINATE 2 (codes "default-information originate") ≡ 0 }
    ensures always_twice { bad_word_of DEFAULT_ORIGINATE 2 (codes "default-information originate always always") ≡ 4 }
{}

/// Worked lines of BGP blocks: which word is bad.
pub fn bgp_lines()
    ensures class_network { bad_word_of BGP_NETWORK 1 (codes "network 10.0.0.0") ≡ 0 }
    ensures no_class { bad_word_of BGP_NETWORK 1 (codes "network 224.0.0.0") ≡ 3 }
    ensures no_class_map { bad_word_of BGP_NETWORK 1 (codes "network 240.0.0.1 route-map m") ≡ 3 }
    ensures no_class_mask { bad_word_of BGP_NETWORK 1 (codes "network 224.0.0.0 mask 240.0.0.0") ≡ 0 }
    ensures network_map { bad_word_of BGP_NETWORK 1 (codes "network 10.1.0.0 mask 0.0.0.0 route-map m") ≡ 0 }
    ensures no_map { bad_word_of BGP_NETWORK 1 (codes "network 10.0.0.0 route-map") ≡ 4 }
    ensures redistribute { bad_word_of BGP_REDISTRIBUTE 1 (codes "redistribute ospf 1 match internal external 1 external 2 metric 5 route-map m") ≡ 0 }
    ensures no_match { bad_word_of BGP_REDISTRIBUTE 1 (codes "redistribute ospf 1 match") ≡ 5 }
    ensures match_of_static { bad_word_of BGP_REDISTRIBUTE 1 (codes "redistribute static match internal") ≡ 3 }
    ensures number_alone { bad_word_of BGP_REDISTRIBUTE 1 (codes "redistribute ospf 1 match 1") ≡ 5 }
    ensures third_external { bad_word_of BGP_REDISTRIBUTE 1 (codes "redistribute ospf 1 match external 3") ≡ 6 }
    ensures match_twice { bad_word_of BGP_REDISTRIBUTE 1 (codes "redistribute ospf 1 match internal metric 1 match external") ≡ 8 }
{}

/// Worked lines of BGP neighbours: which word is bad.
pub fn neighbor_lines()
    ensures remote_as { bad_word_of NEIGHBOR 1 (codes "neighbor 10.0.0.1 remote-as 4294967295") ≡ 0 }
    ensures no_as_number { bad_word_of NEIGHBOR 1 (codes "neighbor 10.0.0.1 remote-as x") ≡ 4 }
    ensures no_address { bad_word_of NEIGHBOR 1 (codes "neighbor x") ≡ 2 }
    ensures address_alone { bad_word_of NEIGHBOR 1 (codes "neighbor 10.0.0.1") ≡ 3 }
    ensures client { bad_word_of NEIGHBOR 1 (codes "neighbor 10.0.0.1 route-reflector-client") ≡ 0 }
    ensures self_more { bad_word_of NEIGHBOR 1 (codes "neighbor 10.0.0.1 next-hop-self all") ≡ 4 }
    ensures communities { bad_word_of NEIGHBOR 1 (codes "neighbor 10.0.0.1 send-community both") ≡ 0 }
    ensures extended_communities { bad_word_of NEIGHBOR 1 (codes "neighbor 10.0.0.1 send-community extended") ≡ 4 }
    ensures source { bad_word_of NEIGHBOR 1 (codes "neighbor 10.0.0.1 update-source Loopback0") ≡ 0 }
    ensures weight { bad_word_of NEIGHBOR 1 (codes "neighbor 10.0.0.1 weight 65536") ≡ 4 }
    ensures prefix_list { bad_word_of NEIGHBOR 1 (codes "neighbor 10.0.0.1 prefix-list p") ≡ 5 }
    ensures filter_list { bad_word_of NEIGHBOR 1 (codes "neighbor 10.0.0.1 filter-list 501 in") ≡ 4 }
    ensures ignored { bad_word_of NEIGHBOR 1 (codes "neighbor 10.0.0.1 soft-reconfiguration inbound") ≡ 0 }
{}
