//! What the grammar says of bad words in asks, and worked lines. Each function only carries its law.
#![tactic(auto, unfolding(crate::specs::Asking::learnt_of, crate::specs::Grammar::form_named, crate::specs::Grammar::words_said, ios_policy_reader::specs::Words::ports_of, ios_policy_reader::specs::Words::port_of, ios_policy_reader::specs::Edges::said_by, ios_policy_reader::specs::Edges::said_back))]

ghost use Rattle.std.specs.Prelude.{◌≡◌, ℕ, true, codes, List, Err, Some, None};
ghost use Rattle.mw_text.specs.Words.{words_in};
ghost use Rattle.ios_policy_reader.specs.Least.{IsFirstBad, no_dead_end};
ghost use Rattle.ios_policy_reader.specs.declared.cause.Cause.TheVariants.{BadWord};
ghost use Rattle.export_asks.specs.declared.forms.Form.{Form};
ghost use Rattle.export_asks.specs.declared.forms.Form.TheVariants.{NoExport, NoLeak};
ghost use Rattle.export_asks.specs.Grammar.{form_of, form_number, words_said};
ghost use Rattle.export_asks.specs.Worked.{ask_in_text, bad_word};

use crate::table::ASK;

/// No state of the grammar is a dead end, so that the word which is bad in an ask is the first: the words before it begin
/// an ask of that kind, and with it they begin none.
pub fn asks_law()
    ensures no_dead_end { (form : Form) → no_dead_end ASK (form_number form) ≡ true }
    ensures first { (form : Form) (words : List (List ℕ)) (n : ℕ) → words_said form words ≡ Err (BadWord n) → IsFirstBad ASK (form_number form) 0 words n }
{}

/// Worked lines: the kind of an ask is its second word.
pub fn kind_lines()
    ensures no_export { form_of (words_in (codes "q NoExport")) ≡ Some NoExport }
    ensures no_leak { form_of (words_in (codes "q noleak")) ≡ Some NoLeak }
    ensures alone { form_of (words_in (codes "noleak")) ≡ None }
    ensures other { form_of (words_in (codes "q reach")) ≡ None }
{}

/// Worked lines: what an ask asks, with routers by their places. The lengths are those of an entry of a prefix list.
pub fn ask_lines()
    ensures own { ask_in_text NoExport (codes "q noexport to B 0.0.0.9 prefixes 10.0.0.0/8 failures 1") ≡ Some (record { name = codes "q"; to = record { router = 1; addr = record { 0 = 9 } }; learnt = None; prefix = record { addr = record { 0 = 167772160 }; len = 8 }; low = 8; high = 8; failures = 1 }) }
    ensures ge { ask_in_text NoExport (codes "q noexport to B 0.0.0.9 prefixes 10.0.0.0/8 ge 9 failures 1") ≡ Some (record { name = codes "q"; to = record { router = 1; addr = record { 0 = 9 } }; learnt = None; prefix = record { addr = record { 0 = 167772160 }; len = 8 }; low = 9; high = 32; failures = 1 }) }
    ensures le { ask_in_text NoExport (codes "q noexport to B 0.0.0.9 prefixes 10.0.0.0/8 le 24 failures 1") ≡ Some (record { name = codes "q"; to = record { router = 1; addr = record { 0 = 9 } }; learnt = None; prefix = record { addr = record { 0 = 167772160 }; len = 8 }; low = 8; high = 24; failures = 1 }) }
    ensures both { ask_in_text NoExport (codes "q noexport to B 0.0.0.9 prefixes 10.0.0.0/8 ge 9 le 24 failures 1") ≡ Some (record { name = codes "q"; to = record { router = 1; addr = record { 0 = 9 } }; learnt = None; prefix = record { addr = record { 0 = 167772160 }; len = 8 }; low = 9; high = 24; failures = 1 }) }
    ensures leak { ask_in_text NoLeak (codes "q noleak from A 0.0.0.7 to C 0.0.0.9 prefixes 0.0.0.0/0 failures 0") ≡ Some (record { name = codes "q"; to = record { router = 2; addr = record { 0 = 9 } }; learnt = Some (record { router = 0; addr = record { 0 = 7 } }); prefix = record { addr = record { 0 = 0 }; len = 0 }; low = 0; high = 0; failures = 0 }) }
    ensures unknown { ask_in_text NoExport (codes "q noexport to D 0.0.0.9 prefixes 10.0.0.0/8 failures 1") ≡ None }
{}

/// Worked lines: which word is bad, or 0.
pub fn bad_word_lines()
    ensures whole { bad_word NoExport (codes "q noexport to A 0.0.0.9 prefixes 10.0.0.0/8 ge 9 le 24 failures 8") ≡ 0 }
    ensures leak { bad_word NoLeak (codes "q noleak from A 0.0.0.7 to B 0.0.0.9 prefixes 0.0.0.0/0 failures 0") ≡ 0 }
    ensures from_of_export { bad_word NoExport (codes "q noexport from A 0.0.0.7") ≡ 3 }
    ensures no_from { bad_word NoLeak (codes "q noleak to A 0.0.0.9") ≡ 3 }
    ensures address { bad_word NoExport (codes "q noexport to A B") ≡ 5 }
    ensures no_range { bad_word NoExport (codes "q noexport to A 0.0.0.9 failures 0") ≡ 6 }
    ensures below_length { bad_word NoExport (codes "q noexport to A 0.0.0.9 prefixes 10.0.0.0/8 ge 7") ≡ 9 }
    ensures below_least { bad_word NoExport (codes "q noexport to A 0.0.0.9 prefixes 10.0.0.0/8 ge 9 le 8") ≡ 11 }
    ensures turned { bad_word NoExport (codes "q noexport to A 0.0.0.9 prefixes 10.0.0.0/8 le 9 ge 8") ≡ 10 }
    ensures ends_early { bad_word NoExport (codes "q noexport to A 0.0.0.9 prefixes 10.0.0.0/8") ≡ 8 }
    ensures links { bad_word NoExport (codes "q noexport to A 0.0.0.9 prefixes 10.0.0.0/8 failures 9") ≡ 9 }
    ensures one_more { bad_word NoExport (codes "q noexport to A 0.0.0.9 prefixes 10.0.0.0/8 failures 8 8") ≡ 10 }
{}
