//! What the grammar says of bad words in questions, and worked lines. Each function only carries its law.
#![tactic(auto, unfolding(crate::specs::Asking::kind_of, crate::specs::Grammar::form_named, crate::specs::Grammar::words_said, crate::specs::Naming::set_of, crate::specs::Naming::start_of, crate::specs::Naming::target_of, ios_policy_reader::specs::Words::ports_of, ios_policy_reader::specs::Words::port_of, ios_policy_reader::specs::Edges::said_by, ios_policy_reader::specs::Edges::said_back))]

ghost use Rattle.std.specs.Prelude.{◌≡◌, ℕ, true, codes, List, [], Err, Some, None};
ghost use Rattle.mw_text.specs.Words.{words_in};
ghost use Rattle.ios_policy_reader.specs.Least.{IsFirstBad, no_dead_end};
ghost use Rattle.ios_policy_reader.specs.declared.cause.Cause.TheVariants.{BadWord};
ghost use Rattle.question_lang.specs.declared.forms.Form.{Form};
ghost use Rattle.question_lang.specs.declared.forms.Form.TheVariants.{Reach, Isolate, Waypoint, NoLoop, NoBlackHole, Within, Alike, NoStable};
ghost use Rattle.question_lang.specs.declared.question.Kind.TheVariants as kind;
ghost use Rattle.question_lang.specs.declared.question.Target.TheVariants.{Router, Subnet, Peer};
ghost use Rattle.question_lang.specs.Breaking.{at_router};
ghost use Rattle.question_lang.specs.Grammar.{form_of, form_number, words_said};
ghost use Rattle.question_lang.specs.Worked.{bad_word, kind_in, packets_in};

use crate::table::QUESTION;

/// No state of the grammar is a dead end, so that the word which is bad in a question is the first: the words before it
/// begin a question of that kind, and with it they begin none.
pub fn questions_law()
    ensures no_dead_end { (form : Form) → no_dead_end QUESTION (form_number form) ≡ true }
    ensures first { (form : Form) (words : List (List ℕ)) (n : ℕ) → words_said form words ≡ Err (BadWord n) → IsFirstBad QUESTION (form_number form) 0 words n }
{}

/// Worked lines: the kind of a question is its second word.
pub fn kind_lines()
    ensures reach { form_of (words_in (codes "q REACH")) ≡ Some Reach }
    ensures isolate { form_of (words_in (codes "q isolate")) ≡ Some Isolate }
    ensures waypoint { form_of (words_in (codes "q waypoint")) ≡ Some Waypoint }
    ensures no_loop { form_of (words_in (codes "q noloop")) ≡ Some NoLoop }
    ensures no_black_hole { form_of (words_in (codes "q noblackhole")) ≡ Some NoBlackHole }
    ensures within { form_of (words_in (codes "q within")) ≡ Some Within }
    ensures alike { form_of (words_in (codes "q alike")) ≡ Some Alike }
    ensures no_stable { form_of (words_in (codes "q nostable")) ≡ Some NoStable }
    ensures alone { form_of (words_in (codes "reach")) ≡ None }
    ensures other { form_of (words_in (codes "q reaches")) ≡ None }
{}

/// Worked lines: what a question of each kind asks, with routers by their places.
pub fn asking_lines()
    ensures reach { kind_in Reach (codes "q reach from A in Vlan2 to router B packets ip any any any any failures 0") ≡ Some (kind.Reach (record { router = 0; iface = Some 1 }) (Router 1)) }
    ensures isolate { kind_in Isolate (codes "q isolate from C to subnet 10.0.0.0/8 packets ip any any any any failures 0") ≡ Some (kind.Isolate (at_router 2) (Subnet (record { addr = record { 0 = 167772160 }; len = 8 }))) }
    ensures waypoint { kind_in Waypoint (codes "q waypoint from A to peer B 0.0.0.9 via C packets ip any any any any failures 0") ≡ Some (kind.Waypoint (at_router 0) (Peer 1 (record { 0 = 9 })) 2) }
    ensures no_loop { kind_in NoLoop (codes "q noloop from A in Vlan1 packets ip any any any any failures 0") ≡ Some (kind.NoLoop (record { router = 0; iface = Some 0 })) }
    ensures no_black_hole { kind_in NoBlackHole (codes "q noblackhole from B packets ip any any any any failures 0") ≡ Some (kind.NoBlackHole (at_router 1)) }
    ensures within { kind_in Within (codes "q within 63 from A packets ip any any any any failures 0") ≡ Some (kind.Within 63 (at_router 0)) }
    ensures alike { kind_in Alike (codes "q alike B C to router A packets ip any any any any failures 0") ≡ Some (kind.Alike 1 2 (Router 0)) }
    ensures no_stable { kind_in NoStable (codes "q nostable packets ip any any any any failures 0") ≡ Some kind.NoStable }
    ensures unknown { kind_in NoLoop (codes "q noloop from A in Vlan3 packets ip any any any any failures 0") ≡ None }
{}

/// Worked lines: the packets of a question.
pub fn packet_lines()
    ensures any { packets_in NoStable (codes "q nostable packets ip any any any any failures 0") ≡ Some (record { proto = None; src = record { addr = record { 0 = 0 }; len = 0 }; sport = (0, 65535); dst = record { addr = record { 0 = 0 }; len = 0 }; dport = (0, 65535) }) }
    ensures each { packets_in NoStable (codes "q nostable packets udp 0.0.0.7/32 53 10.0.0.0/8 1-65535 failures 0") ≡ Some (record { proto = Some 17; src = record { addr = record { 0 = 7 }; len = 32 }; sport = (53, 53); dst = record { addr = record { 0 = 167772160 }; len = 8 }; dport = (1, 65535) }) }
    ensures named { packets_in NoStable (codes "q nostable packets tcp any bgp any WWW failures 0") ≡ Some (record { proto = Some 6; src = record { addr = record { 0 = 0 }; len = 0 }; sport = (179, 179); dst = record { addr = record { 0 = 0 }; len = 0 }; dport = (80, 80) }) }
{}

/// Worked lines: which word is bad, or 0.
pub fn bad_word_lines()
    ensures good { bad_word Waypoint (codes "q waypoint from A in Vlan1 to router B via C packets icmp any any any any failures 8") ≡ 0 }
    ensures name_alone { bad_word Reach (codes "q reach") ≡ 3 }
    ensures no_interface { bad_word Reach (codes "q reach from A in to router B") ≡ 6 }
    ensures no_target { bad_word Isolate (codes "q isolate from A to via") ≡ 6 }
    ensures via_of_reach { bad_word Reach (codes "q reach from A to router B via C") ≡ 8 }
    ensures no_via { bad_word Waypoint (codes "q waypoint from A to router B packets") ≡ 8 }
    ensures hops { bad_word Within (codes "q within 64 from A") ≡ 3 }
    ensures hops_of_loop { bad_word NoLoop (codes "q noloop 3 from A") ≡ 3 }
    ensures to_of_loop { bad_word NoLoop (codes "q noloop from A to router B") ≡ 5 }
    ensures in_of_alike { bad_word Alike (codes "q alike A B in Vlan1 to router C") ≡ 5 }
    ensures descending { bad_word NoStable (codes "q nostable packets tcp any 80-79 any any failures 0") ≡ 6 }
    ensures port { bad_word NoStable (codes "q nostable packets tcp any any any 65536 failures 0") ≡ 8 }
    ensures links { bad_word NoStable (codes "q nostable packets ip any any any any failures 9") ≡ 10 }
    ensures no_links { bad_word NoStable (codes "q nostable packets ip any any any any failures") ≡ 10 }
    ensures one_more { bad_word NoStable (codes "q nostable packets ip any any any any failures 0 0") ≡ 11 }
{}
