//! The grammar of asks.

ghost use Rattle.std.specs.Prelude.{◌≡◌, ◌≢◌, ◌-◌, ◌<◌, ◌^◌, IfOk, IfErr, Ok, Err, length};
ghost use Rattle.same_asks.specs.Grammar as grammar;

use ios_policy_reader::edges::Takes::{Any, AnyName, AnyPorts, AnyPrefix, End, Key, Named, Range};
use ios_policy_reader::said::Tag::{
    Failures, Name, Plain, Protocol, Source, SourcePort, Start, Target, TargetPort,
};
use ios_policy_reader::words::is_table_word;
use ios_policy_reader::{Cause, Edge, Said, read_tail};
use mw_text::List;
use question_lang::MOST_FAILURES;
use std::alloc::Global;

/// The word that names the kind of an ask, in lower case and filled up with blanks.
pub const SAME: [u8; 22] = *b"same                  ";

/// NAME `same` `from` R `packets` PROTO SRC SPORTS DST DPORTS `failures` 0..8.
pub const ASK: [Edge; 19] = [
    Edge(0, AnyName, Name, 1),
    Edge(1, Key(SAME), Plain, 2),
    Edge(2, Key(*b"from                  "), Plain, 3),
    Edge(3, Any, Start, 4),
    Edge(4, Key(*b"packets               "), Plain, 5),
    Edge(5, Key(*b"ip                    "), Protocol, 6),
    Edge(5, Named(*b"icmp                  ", 1), Protocol, 6),
    Edge(5, Named(*b"tcp                   ", 6), Protocol, 6),
    Edge(5, Named(*b"udp                   ", 17), Protocol, 6),
    Edge(5, Range(0, 255), Protocol, 6),
    Edge(6, Key(*b"any                   "), Source, 7),
    Edge(6, AnyPrefix, Source, 7),
    Edge(7, AnyPorts, SourcePort, 8),
    Edge(8, Key(*b"any                   "), Target, 9),
    Edge(8, AnyPrefix, Target, 9),
    Edge(9, AnyPorts, TargetPort, 10),
    Edge(10, Key(*b"failures              "), Plain, 11),
    Edge(11, Range(0, MOST_FAILURES), Failures, 12),
    Edge(12, End, Plain, 12),
];

/// Whether the second word of a line says that it is an ask.
pub fn is_ask(words: &[List<u8>]) -> bool
    ensures { result ≡ grammar.is_ask words.now }
{
    match words.get(1) {
        None => false,
        Some(word) => is_table_word(word.as_slice(), &SAME),
    }
}

/// What the words of an ask say, or the first of them that is bad.
#[tactic(auto, unfolding(crate::specs::Grammar::words_said))]
pub fn read_words(alloc: Global, words: &[List<u8>]) -> Result<List<Said>, Cause>
    requires few { length words.now < 2 ^ 32 - 1 }
    ensures ok { IfOk result (λ said. grammar.words_said words.now ≡ Ok said) }
    ensures refused { IfErr result (λ cause. cause ≢ Cause.Memory → grammar.words_said words.now ≡ Err cause) }
{
    read_tail(alloc, &ASK, 0, 0, words)
}
