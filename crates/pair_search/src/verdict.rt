//! Verdicts on asks about two networks, and their lines.

ghost use Rattle.std.specs.Prelude.{◌≡◌, ◌∷◌, [], IfOk, string_bytes};
ghost use Rattle.cex_json.specs.Parts.{addr_text};
ghost use Rattle.cex_json.specs.Text.{cex_text};
ghost use Rattle.pair_search.specs.Verdicts as verdicts;
ghost use Rattle.routings_beside.specs.Pairs.{question_of};
ghost use Rattle.run_answers.specs.Lines.{unknown_text};

use crate::question::questions_for;
use cex_json::{Counterexample, write_cex};
use mw_text::{Addr, List, list_of};
use net_model::Net;
use packet_fates::{Apart, Fate, Side};
use run_inputs::text::joined;
use same_asks::Same;
use std::alloc::{AllocError, Global};

/// What is found out of an ask about two networks.
#[derive(Drop)]
pub enum SameVerdict {
    /// In all stable routings side by side the fates are the same.
    Same,
    /// In these two they are not, and this is the first fate that one side alone has.
    Different {
        one: Counterexample,
        other: Counterexample,
        apart: Apart,
    },
    /// Neither was found out after so many clauses were learnt.
    Unknown(u64),
}

fn same_line(alloc: Global, ask: &Same) -> Result<List<u8>, AllocError>
    ensures { IfOk result (λ text. text ≡ verdicts.same_text ask.now) }
{
    joined(alloc, &[b"same ", ask.name.as_slice(), b"\n"])
}

// The address in dotted decimal (RFC 1123, section 2.1).
#[tactic(auto, unfolding(cex_json::specs::Parts::addr_text))]
fn address_word(alloc: Global, a: Addr) -> Result<String, AllocError>
    ensures { IfOk result (λ text. string_bytes text ≡ addr_text a) }
{
    let first = a.0 / 0x100_0000 % 256;
    let second = a.0 / 0x1_0000 % 256;
    let third = a.0 / 0x100 % 256;
    let fourth = a.0 % 256;
    format!(in alloc; "{first}.{second}.{third}.{fourth}")
}

fn left_words(alloc: Global, name: &[u8], to: Addr) -> Result<List<u8>, AllocError>
    ensures { IfOk result (λ text. text ≡ verdicts.fate_text (Fate.Left name.now to)) }
{
    let address = address_word(alloc, to)?;
    joined(alloc, &[b"left ", name, b" ", address.as_bytes()])
}

fn fate_words(alloc: Global, fate: &Fate) -> Result<List<u8>, AllocError>
    ensures { IfOk result (λ text. text ≡ verdicts.fate_text fate.now) }
{
    match fate {
        Fate::Delivered(name) => joined(alloc, &[b"delivered ", name.as_slice()]),
        Fate::Left(name, to) => left_words(alloc, name.as_slice(), *to),
        Fate::BlackHole => list_of(alloc, b"blackhole"),
        Fate::Loop => list_of(alloc, b"loop"),
    }
}

fn side_word(side: Side) -> &'static [u8]
    ensures { result.now ≡ verdicts.side_text side }
{
    match side {
        Side::Left => b"left",
        Side::Right => b"right",
    }
}

// The line of a fate that one side alone has.
fn apart_line(alloc: Global, apart: &Apart) -> Result<List<u8>, AllocError>
    ensures { IfOk result (λ text. text ≡ verdicts.apart_text apart.now) }
{
    let fate = fate_words(alloc, &apart.fate)?;
    let pieces: [&[u8]; 5] = [
        b"only ",
        side_word(apart.side),
        b" ",
        fate.as_slice(),
        b"\n",
    ];
    joined(alloc, &pieces)
}

// The line of the counterexample of one of the networks.
fn told(alloc: Global, net: &Net, ask: &Same, cex: &Counterexample) -> Result<List<u8>, AllocError>
    ensures { IfOk result (λ text. text ≡ cex_text net.now.files (question_of ask.now ∷ []) cex.now) }
{
    let questions = questions_for(alloc, ask)?;
    write_cex(alloc, net, questions.as_slice(), cex)
}

fn different_lines(
    alloc: Global,
    left: &Net,
    right: &Net,
    ask: &Same,
    one: &Counterexample,
    other: &Counterexample,
    apart: &Apart,
) -> Result<List<u8>, AllocError>
    ensures { IfOk result (λ text. text ≡ verdicts.verdict_text left.now.files right.now.files ask.now
        (SameVerdict.Different one.now other.now apart.now)) }
{
    let fate = apart_line(alloc, apart)?;
    let first = told(alloc, left, ask, one)?;
    let second = told(alloc, right, ask, other)?;
    let pieces: [&[u8]; 8] = [
        b"different ",
        ask.name.as_slice(),
        b"\n",
        first.as_slice(),
        b"\n",
        second.as_slice(),
        b"\n",
        fate.as_slice(),
    ];
    joined(alloc, &pieces)
}

fn unknown_line(alloc: Global, ask: &Same, after: u64) -> Result<List<u8>, AllocError>
    ensures { IfOk result (λ text. text ≡ unknown_text (question_of ask.now) after) }
{
    let count = after.to_string(alloc)?;
    let pieces: [&[u8]; 5] = [
        b"unknown ",
        ask.name.as_slice(),
        b" after ",
        count.as_bytes(),
        b" conflicts\n",
    ];
    joined(alloc, &pieces)
}

/// The lines of a verdict. Err is want of memory.
pub fn verdict_lines(
    alloc: Global,
    left: &Net,
    right: &Net,
    ask: &Same,
    verdict: &SameVerdict,
) -> Result<List<u8>, AllocError>
    ensures { IfOk result (λ text. text
        ≡ verdicts.verdict_text left.now.files right.now.files ask.now verdict.now) }
{
    match verdict {
        SameVerdict::Same => same_line(alloc, ask),
        SameVerdict::Different { one, other, apart } => {
            different_lines(alloc, left, right, ask, one, other, apart)
        }
        SameVerdict::Unknown(after) => unknown_line(alloc, ask, *after),
    }
}
