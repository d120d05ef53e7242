//! The network that `gen` makes, and the question about it.

ghost use Rattle.std.specs.Prelude.{◌≡◌, ◌≤◌, Ok, Err, IfOk, IfErr, length};
ghost use Rattle.run_inputs.specs.Due as due;
ghost use Rattle.run_inputs.specs.Loading.{AreSmall, OnStop};

use crate::load::{Loaded, MOST_BYTES, Parsed, Stop, parse};
use crate::text::Text;
use mw_gen::{question_text, router_name, router_text};
use mw_text::{List, list_of};
use question_lang::MOST_QUESTIONS;
use std::alloc::{AllocError, Global};

/// A ring of so many routers, with the question about it.
#[derive(Drop)]
pub struct Ring {
    pub routers: u64,
    pub loaded: Loaded,
}

// The text of a router, under the router's name.
fn ring_text(alloc: Global, routers: u64, router: u64) -> Result<Text, AllocError>
    ensures text { IfOk result (λ text. text ≡ due.ring_text routers router) }
    ensures small { IfOk result (λ text. length text.bytes ≤ MOST_BYTES) }
{
    let name = router_name(alloc, router)?;
    let bytes = router_text(alloc, routers, router)?;
    Ok(Text { name, bytes })
}

// The texts of all routers.
#[tactic(auto, unfolding(crate::specs::Due::ring_texts))]
fn ring_texts(alloc: Global, routers: u64) -> Result<List<Text>, AllocError>
    ensures texts { IfOk result (λ texts. texts ≡ due.ring_texts routers routers) }
    ensures small { IfOk result AreSmall }
{
    let mut texts = List::new(alloc);
    for router in 0..routers {
        let text = ring_text(alloc, routers, router + 1)?;
        texts.items.push(text)?;
    }
    Ok(texts)
}

// The text of the question.
fn ring_asked(alloc: Global, routers: u64) -> Result<Text, AllocError>
    ensures text { IfOk result (λ text. text ≡ due.ring_asked routers) }
    ensures small { IfOk result (λ text. length text.bytes ≤ MOST_BYTES) }
{
    let name = list_of(alloc, b"questions")?;
    let bytes = question_text(alloc, routers)?;
    Ok(Text { name, bytes })
}

// The network and the question of the texts of a ring.
fn parse_ring(
    alloc: Global,
    budget: u64,
    routers: u64,
    texts: &[Text],
    asked: &Text,
) -> Result<Ring, Stop>
    requires texts { AreSmall texts.now }
    requires asked { length asked.now.bytes ≤ MOST_BYTES }
    ensures ok { IfOk result (λ ring. due.sized_due budget routers texts.now asked.now
        ≡ Ok (due.generating ring.routers ring.loaded.net.files ring.loaded.questions ring.loaded.budget)) }
    ensures budget { IfOk result (λ ring. ring.loaded.budget ≡ budget) }
    ensures few { IfOk result (λ ring. length ring.loaded.questions ≤ MOST_QUESTIONS) }
    ensures stop { IfErr result (λ stop. OnStop stop (λ line. due.sized_due budget routers texts.now asked.now ≡ Err (due.refused line)) ⊥) }
{
    let Parsed { net, questions } = parse(alloc, texts, asked)?;
    Ok(Ring {
        routers,
        loaded: Loaded {
            net,
            questions,
            budget,
        },
    })
}

/// Makes the texts of a ring of so many routers and of the question about it, and parses them as those of files.
pub fn make_ring(alloc: Global, budget: u64, routers: u64) -> Result<Ring, Stop>
    ensures ok { IfOk result (λ ring. due.ring_due budget routers
        ≡ Ok (due.generating ring.routers ring.loaded.net.files ring.loaded.questions ring.loaded.budget)) }
    ensures budget { IfOk result (λ ring. ring.loaded.budget ≡ budget) }
    ensures few { IfOk result (λ ring. length ring.loaded.questions ≤ MOST_QUESTIONS) }
    ensures stop { IfErr result (λ stop. OnStop stop (λ line. due.ring_due budget routers ≡ Err (due.refused line)) ⊥) }
{
    let texts = ring_texts(alloc, routers)?;
    let asked = ring_asked(alloc, routers)?;
    parse_ring(alloc, budget, routers, texts.as_slice(), &asked)
}
