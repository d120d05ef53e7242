//! The question of the routings of an ask about two networks.

ghost use Rattle.std.specs.Prelude.{◌≡◌, IfOk};
ghost use Rattle.routings_beside.specs.Pairs.{question_of};

use mw_text::list_of;
use question_lang::{Kind, Question};
use same_asks::Same;
use std::alloc::{AllocError, Global};

/// The question whether there is no stable routing at all, of the ask's packets, under its name.
pub fn question_for(alloc: Global, ask: &Same) -> Result<Question, AllocError>
    ensures { IfOk result (λ question. question ≡ question_of ask.now) }
{
    let name = list_of(alloc, ask.name.as_slice())?;
    Ok(Question {
        name,
        kind: Kind::NoStable,
        packets: ask.packets,
        failures: ask.failures,
    })
}
