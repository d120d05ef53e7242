//! Words that are masks.

ghost use Rattle.std.specs.Prelude.{◌≡◌, ◌≤◌, IfSome};
ghost use Rattle.ios_policy_reader.specs.Masks.{length_below, mask_length, mask_from, prefix_under};

use mw_text::{Addr, Prefix, mask, prefix_of, read_addr};

/// The length of a mask whose 1 bits stand first.
#[tactic(auto, using(crate::proofs::MaskLengths::length_below_step, crate::proofs::MaskLengths::length_below_end))]
fn length_of(m: Addr) -> Option<u8>
    ensures { result ≡ length_below m 33 }
{
    for zeros in 0..33u8 {
        let len = 32 - zeros;
        if mask(len) == m.0 {
            return Some(len);
        }
    }
    None
}

/// The length of the mask that a word writes, where it is not below the least one.
pub fn read_mask(word: &[u8], least: u8) -> Option<u8>
    ensures { result ≡ mask_from least word.now }
{
    let len = length_of(read_addr(word)?)?;
    if len >= least { Some(len) } else { None }
}

/// The prefix of that length of an address, where no bits of it stand past the length.
pub fn prefix_of_address(a: Addr, len: u8) -> Option<Prefix>
    ensures { result ≡ prefix_under a len }
{
    let prefix = prefix_of(a, len);
    if prefix.addr == a { Some(prefix) } else { None }
}
