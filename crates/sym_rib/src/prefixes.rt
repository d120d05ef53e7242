//! Prefixes of a destination as terms.

ghost use Rattle.std.specs.Prelude.{◌≡◌, ◌==◌, ◌<◌, ◌≤◌, ◌/◌, ◌^◌, IfOk, length, drop};
ghost use Rattle.mw_text.specs.Address.{block, same_prefix};
ghost use Rattle.net_parts.specs.Origins as origins;
ghost use Rattle.sym_policy.specs.Records.{prefix_of as prefix_read};
ghost use Rattle.term_store.specs.Terms.{size, at};
ghost use Rattle.term_store.specs.Reading.{Builds, Gives};
ghost use Rattle.term_arith.specs.Bits.{number, ids_end};

use mw_text::Prefix;
use std::alloc::AllocError;
use sym_interfaces::prefixes::is_network;
use term_arith::gates::constant_node;
use term_arith::{Bits, equal_number};
use term_store::{NodeId, Terms};

/// The bits of an address above its `low` lowest ones.
#[tactic(auto, using(std::proofs::lemmas::List::take_rest))]
fn high_bits(address: &Bits, low: u8) -> &[NodeId]
    requires { low ≤ length address.now.nodes.items }
    ensures { result.now ≡ drop low address.now.nodes.items }
{
    &address.nodes.as_slice()[low as usize..]
}

/// Whether the bits of an address above its `low` lowest ones are those of a number.
#[tactic(auto, using(sym_interfaces::proofs::Networks::high_steps))]
fn sym_high(terms: &mut Terms, address: &Bits, low: u8, value: u64) -> Result<NodeId, AllocError>
    requires low { low ≤ 32 }
    requires wide { length address.now.nodes.items ≡ 32 }
    requires nodes { ids_end address.now.nodes.items ≤ size terms.old }
    ensures builds { Builds terms.old terms.new }
    ensures within { IfOk result (λ r. r.0 < size terms.new) }
    ensures value { Gives terms.new result (λ w r. at w r ≡ (number w address.now.nodes.items / 2 ^ low == value)) }
{
    let bits = high_bits(address, low);
    equal_number(terms, bits, value)
}

/// Whether the first bits of a prefix are those of an address, as many as are asked for.
fn sym_agrees(terms: &mut Terms, p: &Prefix, dst: &Bits, len: u8) -> Result<NodeId, AllocError>
    requires long { len ≤ 32 }
    requires wide { length dst.now.nodes.items ≡ 32 }
    requires nodes { ids_end dst.now.nodes.items ≤ size terms.old }
    ensures builds { Builds terms.old terms.new }
    ensures within { IfOk result (λ r. r.0 < size terms.new) }
    ensures value { Gives terms.new result (λ w r. at w r
        ≡ (number w dst.now.nodes.items / block len == p.now.addr.0 / block len)) }
{
    let low = 32 - len;
    sym_high(terms, dst, low, u64::from(p.addr.0) >> low)
}

/// Whether a prefix is that of this length of a destination.
pub fn sym_same_prefix(
    terms: &mut Terms,
    p: &Prefix,
    dst: &Bits,
    len: u8,
) -> Result<NodeId, AllocError>
    requires long { len ≤ 32 }
    requires wide { length dst.now.nodes.items ≡ 32 }
    requires nodes { ids_end dst.now.nodes.items ≤ size terms.old }
    ensures builds { Builds terms.old terms.new }
    ensures within { IfOk result (λ r. r.0 < size terms.new) }
    ensures value { Gives terms.new result (λ w r. at w r ≡ same_prefix p.now (prefix_read w dst.now len)) }
{
    if is_network(p, len) {
        let same = sym_agrees(terms, p, dst, len)?;
        Ok(same)
    } else {
        let never = constant_node(terms, false)?;
        Ok(never)
    }
}

/// Whether the prefix of that length of a destination is a network of class A, B or C (RFC 791, section 3.2).
pub(crate) fn sym_classful(terms: &mut Terms, dst: &Bits, len: u8) -> Result<NodeId, AllocError>
    requires long { len ≤ 32 }
    requires wide { length dst.now.nodes.items ≡ 32 }
    requires nodes { ids_end dst.now.nodes.items ≤ size terms.old }
    ensures builds { Builds terms.old terms.new }
    ensures within { IfOk result (λ r. r.0 < size terms.new) }
    ensures value { Gives terms.new result (λ w r. at w r ≡ origins.is_classful (prefix_read w dst.now len)) }
{
    if len == 8 {
        let first = sym_high(terms, dst, 31, 0)?;
        return Ok(first);
    }
    if len == 16 {
        let second = sym_high(terms, dst, 30, 2)?;
        return Ok(second);
    }
    if len == 24 {
        let third = sym_high(terms, dst, 29, 6)?;
        return Ok(third);
    }
    let never = constant_node(terms, false)?;
    Ok(never)
}
