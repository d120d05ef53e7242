//! The form of a line, by its first words.

ghost use Rattle.std.specs.Prelude.{◌≡◌, ◌≤◌, IfSome, length};
ghost use Rattle.std.specs.List.{find};
ghost use Rattle.event_lines.specs.Grammar as grammar;

use ios_policy_reader::values::word_at;
use ios_policy_reader::words::is_table_word;
use mw_text::List;

/// The forms of lines.
#[derive(Clone, Copy)]
pub enum Form {
    Destination,
    Identify,
    DeliverBgp,
    DeliverOspf,
    Decide,
    Announce,
    Cut,
    Mend,
    Run,
}

/// The first word and, for some forms, the second one, in lower case and filled up with blanks; how many of the two
/// there are; and the form.
#[derive(Clone, Copy)]
pub struct Head(pub [u8; 16], pub [u8; 16], pub u8, pub Form);

/// The heads of all forms.
pub const HEADS: [Head; 9] = [
    Head(
        *b"dst             ",
        *b"                ",
        1,
        Form::Destination,
    ),
    Head(
        *b"id              ",
        *b"                ",
        1,
        Form::Identify,
    ),
    Head(
        *b"deliver         ",
        *b"bgp             ",
        2,
        Form::DeliverBgp,
    ),
    Head(
        *b"deliver         ",
        *b"ospf            ",
        2,
        Form::DeliverOspf,
    ),
    Head(*b"decide          ", *b"                ", 1, Form::Decide),
    Head(
        *b"announce        ",
        *b"                ",
        1,
        Form::Announce,
    ),
    Head(*b"cut             ", *b"                ", 1, Form::Cut),
    Head(*b"mend            ", *b"                ", 1, Form::Mend),
    Head(*b"run             ", *b"                ", 1, Form::Run),
];

// Whether the line begins with the head.
fn is_head(head: &Head, words: &[List<u8>]) -> bool
    ensures { result ≡ grammar.is_head words.now head.now }
{
    head.2 as usize <= words.len()
        && is_table_word(word_at(words, 0), &head.0)
        && (head.2 == 1 || is_table_word(word_at(words, 1), &head.1))
}

#[tactic(auto, using(crate::proofs::Beginning::head_fits))]
fn head_among(heads: &[Head], words: &[List<u8>]) -> Option<Head>
    ensures value { result ≡ find (grammar.is_head words.now) heads.now }
    ensures within { IfSome result (λ head. head.2 ≤ length words.now) }
{
    heads.iter().copied().find(|head| is_head(head, words))
}

/// The head with which a line of these words begins, in any case. None where there is none.
#[tactic(auto, unfolding(crate::specs::Grammar::head_of))]
pub fn find_head(words: &[List<u8>]) -> Option<Head>
    ensures value { result ≡ grammar.head_of words.now }
    ensures within { IfSome result (λ head. head.2 ≤ length words.now) }
{
    head_among(&HEADS, words)
}
