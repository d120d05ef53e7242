//! Worked lines of lists and route maps: what they put into the policies of a file. Each function only carries its law.
#![tactic(auto, unfolding(crate::specs::Policies::policy_reading, crate::specs::Policies::top_line, crate::specs::Policies::access_line, crate::specs::Policies::entry_line, crate::specs::Policies::open_line, crate::specs::Policies::prefix_line, crate::specs::Policies::numbered_line, crate::specs::Policies::community_line, crate::specs::Policies::path_line, crate::specs::Policies::map_line, crate::specs::Policies::clause_line, crate::specs::Policies::map_block_line, crate::specs::Lists::place_of, crate::specs::Clauses::match_of, crate::specs::Clauses::act_of, crate::specs::Heads::edges_of, crate::specs::Edges::said_by, crate::specs::Edges::said_back, crate::specs::Words::port_of, crate::specs::Worked::digits))]

ghost use Rattle.std.specs.Prelude.{◌≡◌, true, false, codes, [], ◌∷◌, None, Some, Err};
ghost use Rattle.ios_policy_reader.specs.declared.cause.Cause.TheVariants.{BadWord, Repeated};
ghost use Rattle.ios_policy_reader.specs.declared.policies.PolicyBlock.TheVariants.{Outside, Access, Map};
ghost use Rattle.ios_policy_reader.specs.Policies.{policy_reading};
ghost use Rattle.ios_policy_reader.specs.Worked.{no_policies, left, reading_of, any_address, some_path, entries_and_a_map, is_past_limit};
ghost use Rattle.ios_ast.specs.declared.policies.Pattern.TheVariants.{Has};
ghost use Rattle.ios_ast.specs.declared.policies.Ports.TheVariants.{Any, Range};
ghost use Rattle.ios_ast.specs.declared.policies.Match.TheVariants.{Access as Lists, Prefixes, Communities, Paths};
ghost use Rattle.ios_ast.specs.declared.policies.SetAct.TheVariants.{LocalPref, Metric, Weight, NoCommunity, Community, Origin, Prepend, Type1};
ghost use Rattle.mw_text.specs.Words.{line_at};

/// Lines of prefix lists: an entry without a number comes after the highest one, by steps of 5.
pub fn prefix_list_policies()
    ensures first { reading_of (codes "ip prefix-list P permit 10.0.0.0/8" ∷ []) ≡ left true Outside (record no_policies { prefix_lists = record { name = codes "P"; entries = record { line = 1; seq = 5; permit = true; prefix = record { addr = record { 0 = 167772160 }; len = 8 }; low = 8; high = 8 } ∷ [] } ∷ [] }) }
    ensures next { reading_of (codes "ip prefix-list P seq 12 deny 10.1.0.0/16 le 24" ∷ codes "ip prefix-list P permit 10.0.0.0/8" ∷ []) ≡ left true Outside (record no_policies { prefix_lists = record { name = codes "P"; entries = record { line = 1; seq = 12; permit = false; prefix = record { addr = record { 0 = 167837696 }; len = 16 }; low = 16; high = 24 } ∷ record { line = 2; seq = 17; permit = true; prefix = record { addr = record { 0 = 167772160 }; len = 8 }; low = 8; high = 8 } ∷ [] } ∷ [] }) }
    ensures after_highest { reading_of (codes "ip prefix-list P seq 12 permit 10.0.0.0/8" ∷ codes "ip prefix-list P seq 3 permit 10.0.0.0/8" ∷ codes "ip prefix-list P permit 10.0.0.0/8 ge 9" ∷ []) ≡ left true Outside (record no_policies { prefix_lists = record { name = codes "P"; entries = record { line = 1; seq = 12; permit = true; prefix = record { addr = record { 0 = 167772160 }; len = 8 }; low = 8; high = 8 } ∷ record { line = 2; seq = 3; permit = true; prefix = record { addr = record { 0 = 167772160 }; len = 8 }; low = 8; high = 8 } ∷ record { line = 3; seq = 17; permit = true; prefix = record { addr = record { 0 = 167772160 }; len = 8 }; low = 9; high = 32 } ∷ [] } ∷ [] }) }
    ensures other_list { reading_of (codes "ip prefix-list P seq 7 permit 10.0.0.0/8" ∷ codes "ip prefix-list Q permit 10.0.0.0/8" ∷ []) ≡ left true Outside (record no_policies { prefix_lists = record { name = codes "P"; entries = record { line = 1; seq = 7; permit = true; prefix = record { addr = record { 0 = 167772160 }; len = 8 }; low = 8; high = 8 } ∷ [] } ∷ record { name = codes "Q"; entries = record { line = 2; seq = 5; permit = true; prefix = record { addr = record { 0 = 167772160 }; len = 8 }; low = 8; high = 8 } ∷ [] } ∷ [] }) }
    ensures text { reading_of (codes "ip prefix-list P description any words" ∷ []) ≡ left true Outside no_policies }
    ensures highest { reading_of (codes "ip prefix-list P seq 4294967289 permit 10.0.0.0/8" ∷ codes "ip prefix-list P permit 10.0.0.0/8" ∷ []) ≡ left true Outside (record no_policies { prefix_lists = record { name = codes "P"; entries = record { line = 1; seq = 4294967289; permit = true; prefix = record { addr = record { 0 = 167772160 }; len = 8 }; low = 8; high = 8 } ∷ record { line = 2; seq = 4294967294; permit = true; prefix = record { addr = record { 0 = 167772160 }; len = 8 }; low = 8; high = 8 } ∷ [] } ∷ [] }) }
    ensures too_high { reading_of (codes "ip prefix-list P seq 4294967290 permit 10.0.0.0/8" ∷ codes "ip prefix-list P permit 10.0.0.0/8" ∷ []) ≡ Err (BadWord 4) }
    ensures repeated { reading_of (codes "ip prefix-list P permit 10.0.0.0/8" ∷ codes "ip prefix-list P seq 5 permit 10.1.0.0/16" ∷ []) ≡ Err Repeated }
    ensures bad_word_first { reading_of (codes "ip prefix-list P permit 10.0.0.0/8" ∷ codes "ip prefix-list P seq 5 permit 10.0.0.0/8 ge 7" ∷ []) ≡ Err (BadWord 9) }
{}

/// Lines of access lists: a list that `access-list` lines made may be opened once, and both kinds share their names.
pub fn access_list_policies()
    ensures standard { reading_of (codes "access-list 005 permit any" ∷ []) ≡ left true Outside (record no_policies { access = record { name = codes "5"; extended = false; named = false; entries = record { line = 1; permit = true; proto = None; src = any_address; sport = Any; dst = any_address; dport = Any } ∷ [] } ∷ [] }) }
    ensures extended { reading_of (codes "access-list 2000 deny udp any any eq domain" ∷ []) ≡ left true Outside (record no_policies { access = record { name = codes "2000"; extended = true; named = false; entries = record { line = 1; permit = false; proto = Some 17; src = any_address; sport = Any; dst = any_address; dport = Range 53 53 } ∷ [] } ∷ [] }) }
    ensures remark { reading_of (codes "access-list 5 remark any words" ∷ []) ≡ left true Outside no_policies }
    ensures opened { reading_of (codes "access-list 5 permit any" ∷ codes "ip access-list standard 5" ∷ []) ≡ left true (Access 0) (record no_policies { access = record { name = codes "5"; extended = false; named = true; entries = record { line = 1; permit = true; proto = None; src = any_address; sport = Any; dst = any_address; dport = Any } ∷ [] } ∷ [] }) }
    ensures added { reading_of (codes "ip access-list standard 5" ∷ codes " deny any" ∷ codes "access-list 5 permit any" ∷ []) ≡ left true Outside (record no_policies { access = record { name = codes "5"; extended = false; named = true; entries = record { line = 2; permit = false; proto = None; src = any_address; sport = Any; dst = any_address; dport = Any } ∷ record { line = 3; permit = true; proto = None; src = any_address; sport = Any; dst = any_address; dport = Any } ∷ [] } ∷ [] }) }
    ensures opened_twice { reading_of (codes "access-list 5 permit any" ∷ codes "ip access-list standard 5" ∷ codes "ip access-list standard 5" ∷ []) ≡ Err Repeated }
    ensures both_kinds { reading_of (codes "ip access-list standard A" ∷ codes "ip access-list extended A" ∷ []) ≡ Err Repeated }
    ensures blocks { reading_of (codes "ip access-list standard A" ∷ codes "ip access-list extended B" ∷ codes " remark x" ∷ codes " 10 permit tcp any gt 1023 any" ∷ []) ≡ left true (Access 1) (record no_policies { access = record { name = codes "A"; extended = false; named = true; entries = [] } ∷ record { name = codes "B"; extended = true; named = true; entries = record { line = 4; permit = true; proto = Some 6; src = any_address; sport = Range 1024 65535; dst = any_address; dport = Any } ∷ [] } ∷ [] }) }
    ensures wrong_kind { reading_of (codes "ip access-list standard A" ∷ codes " permit ip any any" ∷ []) ≡ Err (BadWord 2) }
{}

/// Lines of community lists and AS-path lists.
pub fn value_list_policies()
    ensures one_list { reading_of (codes "ip community-list 5 permit 65000:1 no-export" ∷ codes "ip community-list standard 5 deny 7" ∷ []) ≡ left true Outside (record no_policies { communities = record { name = codes "5"; entries = record { line = 1; permit = true; values = 4259840001 ∷ 4294967041 ∷ [] } ∷ record { line = 2; permit = false; values = 7 ∷ [] } ∷ [] } ∷ [] }) }
    ensures two_lists { reading_of (codes "ip community-list standard C permit 7 7" ∷ codes "ip community-list standard 05 permit no-advertise" ∷ []) ≡ left true Outside (record no_policies { communities = record { name = codes "C"; entries = record { line = 1; permit = true; values = 7 ∷ 7 ∷ [] } ∷ [] } ∷ record { name = codes "05"; entries = record { line = 2; permit = true; values = 4294967042 ∷ [] } ∷ [] } ∷ [] }) }
    ensures pattern { reading_of (codes "ip as-path access-list 010 deny _65001_" ∷ []) ≡ left true Outside (record no_policies { as_paths = record { name = codes "10"; entries = record { line = 1; permit = false; pattern = Has 65001 } ∷ [] } ∷ [] }) }
{}

/// Lines of route maps: a number comes once in a map, and a row of set lines once in an entry.
pub fn route_map_policies()
    ensures entries { reading_of (codes "route-map M permit 10" ∷ codes "route-map M deny 0" ∷ []) ≡ left true (Map 0) (record no_policies { maps = record { name = codes "M"; entries = record { line = 1; seq = 10; permit = true; matches = []; sets = [] } ∷ record { line = 2; seq = 0; permit = false; matches = []; sets = [] } ∷ [] } ∷ [] }) }
    ensures repeated { reading_of (codes "route-map M permit 10" ∷ codes "route-map M deny 10" ∷ []) ≡ Err Repeated }
    ensures other_map { reading_of (codes "route-map M permit 10" ∷ codes "route-map N deny 10" ∷ []) ≡ left true (Map 1) (record no_policies { maps = record { name = codes "M"; entries = record { line = 1; seq = 10; permit = true; matches = []; sets = [] } ∷ [] } ∷ record { name = codes "N"; entries = record { line = 2; seq = 10; permit = false; matches = []; sets = [] } ∷ [] } ∷ [] }) }
    ensures names { reading_of (codes "route-map M permit 10" ∷ codes " match ip address 005 A" ∷ codes " match ip address prefix-list P" ∷ []) ≡ left true (Map 0) (record no_policies { maps = record { name = codes "M"; entries = record { line = 1; seq = 10; permit = true; matches = Lists (record { line = 2; name = codes "005" } ∷ record { line = 2; name = codes "A" } ∷ []) ∷ Prefixes (record { line = 3; name = codes "P" } ∷ []) ∷ []; sets = [] } ∷ [] } ∷ [] }) }
    ensures numbers { reading_of (codes "route-map M permit 10" ∷ codes " match community 7" ∷ codes " match as-path 007 8" ∷ codes " match as-path 9" ∷ []) ≡ left true (Map 0) (record no_policies { maps = record { name = codes "M"; entries = record { line = 1; seq = 10; permit = true; matches = Communities (record { line = 2; name = codes "7" } ∷ []) ∷ Paths (record { line = 3; name = codes "7" } ∷ record { line = 3; name = codes "8" } ∷ []) ∷ Paths (record { line = 4; name = codes "9" } ∷ []) ∷ []; sets = [] } ∷ [] } ∷ [] }) }
    ensures ignored { reading_of (codes "route-map M permit 10" ∷ codes " description x" ∷ []) ≡ left true (Map 0) (record no_policies { maps = record { name = codes "M"; entries = record { line = 1; seq = 10; permit = true; matches = []; sets = [] } ∷ [] } ∷ [] }) }
    ensures last_entry { reading_of (codes "route-map M permit 10" ∷ codes "route-map M permit 20" ∷ codes " set metric 1" ∷ []) ≡ left true (Map 0) (record no_policies { maps = record { name = codes "M"; entries = record { line = 1; seq = 10; permit = true; matches = []; sets = [] } ∷ record { line = 2; seq = 20; permit = true; matches = []; sets = Metric 1 ∷ [] } ∷ [] } ∷ [] }) }
{}

/// Set lines of route maps. The communities that a line sets ascend, each once.
pub fn set_line_policies()
    ensures numbers { reading_of (codes "route-map M permit 10" ∷ codes " set local-preference 200" ∷ codes " set metric 5" ∷ codes " set weight 65535" ∷ []) ≡ left true (Map 0) (record no_policies { maps = record { name = codes "M"; entries = record { line = 1; seq = 10; permit = true; matches = []; sets = LocalPref 200 ∷ Metric 5 ∷ Weight 65535 ∷ [] } ∷ [] } ∷ [] }) }
    ensures communities { reading_of (codes "route-map M permit 10" ∷ codes " set community 7 1:0 7 5 additive" ∷ []) ≡ left true (Map 0) (record no_policies { maps = record { name = codes "M"; entries = record { line = 1; seq = 10; permit = true; matches = []; sets = Community (5 ∷ 7 ∷ 65536 ∷ []) true ∷ [] } ∷ [] } ∷ [] }) }
    ensures replaced { reading_of (codes "route-map M permit 10" ∷ codes " set community 7" ∷ []) ≡ left true (Map 0) (record no_policies { maps = record { name = codes "M"; entries = record { line = 1; seq = 10; permit = true; matches = []; sets = Community (7 ∷ []) false ∷ [] } ∷ [] } ∷ [] }) }
    ensures none { reading_of (codes "route-map M permit 10" ∷ codes " set community none" ∷ []) ≡ left true (Map 0) (record no_policies { maps = record { name = codes "M"; entries = record { line = 1; seq = 10; permit = true; matches = []; sets = NoCommunity ∷ [] } ∷ [] } ∷ [] }) }
    ensures origin { reading_of (codes "route-map M permit 10" ∷ codes " set origin igp" ∷ codes " set metric-type type-2" ∷ []) ≡ left true (Map 0) (record no_policies { maps = record { name = codes "M"; entries = record { line = 1; seq = 10; permit = true; matches = []; sets = Origin true ∷ Type1 false ∷ [] } ∷ [] } ∷ [] }) }
    ensures prepend { reading_of (codes "route-map M permit 10" ∷ codes " set as-path prepend 65001 65001" ∷ codes " set metric-type type-1" ∷ []) ≡ left true (Map 0) (record no_policies { maps = record { name = codes "M"; entries = record { line = 1; seq = 10; permit = true; matches = []; sets = Prepend (65001 ∷ 65001 ∷ []) ∷ Type1 true ∷ [] } ∷ [] } ∷ [] }) }
    ensures twice { reading_of (codes "route-map M permit 10" ∷ codes " set metric 1" ∷ codes " set metric 2" ∷ []) ≡ Err Repeated }
    ensures two_forms { reading_of (codes "route-map M permit 10" ∷ codes " set community 5" ∷ codes " set community none" ∷ []) ≡ Err Repeated }
{}

/// Lines that are no policy's, and the block that they leave.
pub fn other_lines()
    ensures no_block { reading_of (codes " permit any" ∷ []) ≡ left false Outside no_policies }
    ensures map_row { reading_of (codes "ip access-list standard A" ∷ codes " match community 5" ∷ []) ≡ left false (Access 0) (record no_policies { access = record { name = codes "A"; extended = false; named = true; entries = [] } ∷ [] }) }
    ensures list_row { reading_of (codes "route-map M permit 10" ∷ codes " permit any" ∷ []) ≡ left false (Map 0) (record no_policies { maps = record { name = codes "M"; entries = record { line = 1; seq = 10; permit = true; matches = []; sets = [] } ∷ [] } ∷ [] }) }
    ensures closed { reading_of (codes "ip access-list standard A" ∷ codes "hostname r" ∷ []) ≡ left false Outside (record no_policies { access = record { name = codes "A"; extended = false; named = true; entries = [] } ∷ [] }) }
    ensures closed_by_a_list { reading_of (codes "ip access-list standard A" ∷ codes "ip as-path access-list 1 permit .*" ∷ []) ≡ left true Outside (record no_policies { access = record { name = codes "A"; extended = false; named = true; entries = [] } ∷ []; as_paths = record { name = codes "1"; entries = record some_path { line = 2 } ∷ [] } ∷ [] }) }
    ensures shorter_head { reading_of (codes "ip access-list foo" ∷ []) ≡ left false Outside no_policies }
{}

/// The 512 entries of all kinds together are the most.
pub fn policies_at_the_limit()
    ensures room_access { is_past_limit (policy_reading (line_at 3 (codes "access-list 5 permit any")) Outside (entries_and_a_map 510)) ≡ false }
    ensures room_prefix { is_past_limit (policy_reading (line_at 3 (codes "ip prefix-list P permit 10.0.0.0/8")) Outside (entries_and_a_map 510)) ≡ false }
    ensures room_community { is_past_limit (policy_reading (line_at 3 (codes "ip community-list 5 permit 1")) Outside (entries_and_a_map 510)) ≡ false }
    ensures room_path { is_past_limit (policy_reading (line_at 3 (codes "ip as-path access-list 2 permit ^$")) Outside (entries_and_a_map 510)) ≡ false }
    ensures room_map { is_past_limit (policy_reading (line_at 3 (codes "route-map M permit 20")) Outside (entries_and_a_map 510)) ≡ false }
    ensures full_access { is_past_limit (policy_reading (line_at 3 (codes "access-list 5 permit any")) Outside (entries_and_a_map 511)) ≡ true }
    ensures full_prefix { is_past_limit (policy_reading (line_at 3 (codes "ip prefix-list P permit 10.0.0.0/8")) Outside (entries_and_a_map 511)) ≡ true }
    ensures full_community { is_past_limit (policy_reading (line_at 3 (codes "ip community-list 5 permit 1")) Outside (entries_and_a_map 511)) ≡ true }
    ensures full_path { is_past_limit (policy_reading (line_at 3 (codes "ip as-path access-list 2 permit ^$")) Outside (entries_and_a_map 511)) ≡ true }
    ensures full_map { is_past_limit (policy_reading (line_at 3 (codes "route-map M permit 20")) Outside (entries_and_a_map 511)) ≡ true }
    ensures repeated { policy_reading (line_at 3 (codes "route-map M permit 10")) Outside (entries_and_a_map 511) ≡ Err Repeated }
{}
