//! Worked lines. Each function only carries its law.
#![tactic(auto, unfolding(question_lang::specs::Grammar::form_named, question_lang::specs::Grammar::words_said, question_lang::specs::Naming::set_of, ios_policy_reader::specs::Words::ports_of, ios_policy_reader::specs::Words::port_of, ios_policy_reader::specs::Edges::said_by, ios_policy_reader::specs::Edges::said_back))]

ghost use Rattle.std.specs.Prelude.{◌≡◌, codes, Some};
ghost use Rattle.question_lang.specs.declared.forms.Form.TheVariants.{NoStable};
ghost use Rattle.question_lang.specs.Worked.{packets_in};
ghost use Rattle.ask_search.specs.Exporting.{packets_to};

/// Worked line: the packets of the question of a counterexample are all those to the ask's prefix.
pub fn packet_lines()
    ensures { packets_in NoStable (codes "q nostable packets ip any any 203.0.0.0/16 any failures 0") ≡ Some (packets_to (record { addr = record { 0 = 3405774848 }; len = 16 })) }
{}
