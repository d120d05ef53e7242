//! Whether a prefix contains an address, as a term.

ghost use Rattle.std.specs.Prelude.{◌≡◌, ℕ, ◌+◌, ◌-◌, ◌<◌, ◌≤◌, ◌^◌, Bool, IfOk, length, drop};
ghost use Rattle.mw_text.specs.Address.{covers, block, prefix_at, same_prefix};
ghost use Rattle.sym_policy.specs.Records.{address_of, prefix_of as prefix_read};
ghost use Rattle.term_store.specs.Terms.{Reading, size, at};
ghost use Rattle.term_store.specs.Reading.{Reads, Builds, Gives};
ghost use Rattle.term_arith.specs.Bits.{number, ids_end};

use mw_text::Prefix;
use std::alloc::AllocError;
use sym_interfaces::prefixes::is_network;
use term_arith::gates::constant_node;
use term_arith::{Bits, equal_number};
use term_store::{NodeId, Terms};

// How many bits of an address a prefix leaves open.
fn open_bits(prefix: &Prefix) -> u8
    ensures value { result ≡ 32 - prefix.now.len }
    ensures few { result ≤ 32 }
{
    if prefix.len < 32 { 32 - prefix.len } else { 0 }
}

// The bits of an address above its `low` lowest ones.
#[tactic(auto, using(std::proofs::lemmas::List::take_rest))]
fn high_bits(address: &Bits, low: u8) -> &[NodeId]
    requires { low ≤ length address.now.nodes.items }
    ensures { result.now ≡ drop low address.now.nodes.items }
{
    &address.nodes.as_slice()[low as usize..]
}

/// Whether the prefix contains an address.
#[tactic(auto, using(sym_policy::proofs::HighBits::prefix_steps))]
pub(crate) fn sym_covers(
    terms: &mut Terms,
    prefix: &Prefix,
    address: &Bits,
) -> Result<NodeId, AllocError>
    requires wide { length address.now.nodes.items ≡ 32 }
    requires nodes { ids_end address.now.nodes.items ≤ size terms.old }
    ensures builds { Builds terms.old terms.new }
    ensures within { IfOk result (λ r. r.0 < size terms.new) }
    ensures value { Gives terms.new result (λ w r. at w r ≡ covers prefix.now (address_of w address.now)) }
{
    let low = open_bits(prefix);
    let bits = high_bits(address, low);
    equal_number(terms, bits, u64::from(prefix.addr.0) >> low)
}

/// Whether the prefix is that of this length of an address.
pub(crate) fn sym_is_prefix(
    terms: &mut Terms,
    p: &Prefix,
    address: &Bits,
    len: u8,
) -> Result<NodeId, AllocError>
    requires wide { length address.now.nodes.items ≡ 32 }
    requires nodes { ids_end address.now.nodes.items ≤ size terms.old }
    ensures builds { Builds terms.old terms.new }
    ensures within { IfOk result (λ r. r.0 < size terms.new) }
    ensures value { Gives terms.new result (λ w r. at w r ≡ same_prefix p.now (prefix_read w address.now len)) }
{
    if is_network(p, len) {
        let same = sym_covers(terms, p, address)?;
        Ok(same)
    } else {
        let never = constant_node(terms, false)?;
        Ok(never)
    }
}
