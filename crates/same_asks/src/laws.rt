//! What the grammar says of bad words in asks, and worked lines. Each function only carries its law.
#![tactic(auto, unfolding(crate::specs::Grammar::words_said, question_lang::specs::Naming::set_of, ios_policy_reader::specs::Words::ports_of, ios_policy_reader::specs::Words::port_of, ios_policy_reader::specs::Edges::said_by, ios_policy_reader::specs::Edges::said_back))]

ghost use Rattle.std.specs.Prelude.{◌≡◌, ℕ, true, false, codes, List, Err, Some, None};
ghost use Rattle.mw_text.specs.Words.{words_in};
ghost use Rattle.ios_policy_reader.specs.Least.{IsFirstBad, no_dead_end};
ghost use Rattle.ios_policy_reader.specs.declared.cause.Cause.TheVariants.{BadWord};
ghost use Rattle.same_asks.specs.Grammar.{is_ask, words_said};
ghost use Rattle.same_asks.specs.Worked.{ask_in_text, bad_word};

use crate::table::ASK;

/// No state of the grammar is a dead end, so that the word which is bad in an ask is the first: the words before it
/// begin an ask, and with it they begin none.
pub fn asks_law()
    ensures no_dead_end { no_dead_end ASK 0 ≡ true }
    ensures first { (words : List (List ℕ)) (n : ℕ) → words_said words ≡ Err (BadWord n) → IsFirstBad ASK 0 0 words n }
{}

/// Worked lines: an ask is one by its second word.
pub fn kind_lines()
    ensures same { is_ask (words_in (codes "q Same")) ≡ true }
    ensures alone { is_ask (words_in (codes "same")) ≡ false }
    ensures other { is_ask (words_in (codes "q reach")) ≡ false }
{}

/// Worked lines: what an ask asks of two networks, of which the second has its routers in the other order.
pub fn ask_lines()
    ensures own { ask_in_text (codes "q same from A packets icmp 0.0.0.1/32 any 0.0.0.2/32 any failures 1") ≡ Some (record { name = codes "q"; left = 0; right = 2; packets = record { proto = Some 1; src = record { addr = record { 0 = 1 }; len = 32 }; sport = (0, 65535); dst = record { addr = record { 0 = 2 }; len = 32 }; dport = (0, 65535) }; failures = 1 }) }
    ensures unknown { ask_in_text (codes "q same from D packets ip any any any any failures 1") ≡ None }
{}

/// Worked lines: which word is bad, or 0.
pub fn bad_word_lines()
    ensures whole { bad_word (codes "q same from A packets ip any any any any failures 8") ≡ 0 }
    ensures no_from { bad_word (codes "q same A") ≡ 3 }
    ensures entering { bad_word (codes "q same from A in Gi0/0") ≡ 5 }
    ensures protocol { bad_word (codes "q same from A packets 256") ≡ 6 }
    ensures ends_early { bad_word (codes "q same from A packets ip any any any any") ≡ 11 }
    ensures links { bad_word (codes "q same from A packets ip any any any any failures 9") ≡ 12 }
    ensures one_more { bad_word (codes "q same from A packets ip any any any any failures 8 8") ≡ 13 }
{}
