//! Lines of an events file: what each orders, and which open the file.

ghost use Rattle.std.specs.Prelude.{◌≡◌, ◌≢◌, ◌-◌, ◌<◌, ◌≤◌, ◌^◌, IfErr, IfOk, IfSome, Ok, Err, length, not, position};
ghost use Rattle.simulation.specs.declared.causes.SimulationCause.TheVariants as causes;
ghost use Rattle.event_lines.specs.Grammar.{head_of};
ghost use Rattle.simulation.specs.Lines as specs;

use crate::causes::{SimulationCause, line_cause};
use event_lines::{Form, Order, find_head, read_order};
use mw_text::{Line, List, says_nothing};
use net_model::Net;
use std::alloc::Global;

/// What a line of these words orders, or why it is none.
pub fn read_line(alloc: Global, net: &Net, words: &[List<u8>]) -> Result<Order, SimulationCause>
    requires few { length words.now < 2 ^ 32 - 1 }
    ensures ok { IfOk result (λ order. specs.ordered net.now.files words.now ≡ Ok order) }
    ensures refused { IfErr result (λ why. why ≢ causes.Memory → specs.ordered net.now.files words.now ≡ Err why) }
{
    match read_order(alloc, net, words) {
        Ok(order) => Ok(order),
        Err(cause) => Err(line_cause(cause)),
    }
}

fn is_opening_form(form: Form) -> bool
    ensures { result ≡ specs.is_opening_form form }
{
    matches!(form, Form::Destination | Form::Identify)
}

fn opens(words: &[List<u8>]) -> bool
    ensures { result ≡ specs.is_opening_head (head_of words.now) }
{
    match find_head(words) {
        None => false,
        Some(head) => is_opening_form(head.3),
    }
}

fn is_opening(line: &Line) -> bool
    ensures { result ≡ specs.is_opening line.now }
{
    says_nothing(line.words.as_slice()) || opens(line.words.as_slice())
}

fn first_other(lines: &[Line]) -> Option<usize>
    ensures value { result ≡ position (λ line. not (specs.is_opening line)) lines.now }
    ensures within { IfSome result (λ at. at < length lines.now) }
{
    lines.iter().position(|line| !is_opening(line))
}

/// How many lines open the file: those before the first that neither says nothing nor begins as those that say the
/// destination and identifiers.
pub fn opening_count(lines: &[Line]) -> usize
    ensures value { result ≡ specs.opening_count lines.now }
    ensures within { result ≤ length lines.now }
{
    match first_other(lines) {
        None => lines.len(),
        Some(at) => at,
    }
}
