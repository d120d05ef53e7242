//! The question of the counterexamples to an ask.

ghost use Rattle.std.specs.Prelude.{◌≡◌, ◌∷◌, [], IfOk};
ghost use Rattle.ask_search.specs.Exporting.{packets_to, question_of};

use export_asks::Ask;
use mw_text::{Addr, List, Prefix, list_of};
use question_lang::{Kind, PacketSet, Question};
use std::alloc::{AllocError, Global};

// Every packet to an address of a prefix.
fn packets_for(dst: Prefix) -> PacketSet
    ensures { result ≡ packets_to dst }
{
    PacketSet {
        proto: None,
        src: Prefix {
            addr: Addr(0),
            len: 0,
        },
        sport: (0, 65535),
        dst,
        dport: (0, 65535),
    }
}

/// The question whether there is no stable routing at all, of packets to the ask's prefix, under the ask's name.
pub fn question_for(alloc: Global, ask: &Ask) -> Result<Question, AllocError>
    ensures { IfOk result (λ question. question ≡ question_of ask.now) }
{
    let name = list_of(alloc, ask.name.as_slice())?;
    Ok(Question {
        name,
        kind: Kind::NoStable,
        packets: packets_for(ask.prefix),
        failures: ask.failures,
    })
}

/// That question alone.
pub fn questions_for(alloc: Global, ask: &Ask) -> Result<List<Question>, AllocError>
    ensures { IfOk result (λ questions. questions ≡ question_of ask.now ∷ []) }
{
    let mut questions = List::new(alloc);
    let question = question_for(alloc, ask)?;
    questions.items.push(question)?;
    Ok(questions)
}
