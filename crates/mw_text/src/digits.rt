//! Numbers, addresses and prefixes as decimal text.

ghost use Rattle.std.specs.Prelude.{◌≡◌, ◌≤◌, ◌<◌, ◌==◌, ◌+◌, ◌*◌, IfSome, length, option_and_then, option_map, position};
ghost use Rattle.std.specs.List.{list_all};
ghost use Rattle.mw_text.specs.Digits.{is_digit, value_of, is_numeral, number_of, octet_of, octets_of, cut_at, addr_of, prefix_of_text};

use crate::address::{Addr, Prefix, prefix_of};

// The value of at most ten digits.
fn digits_value(word: &[u8]) -> u64
    requires { length word.now ≤ 10 }
    ensures { result ≡ value_of word.now }
{
    let mut value = 0u64;
    for b in word {
        value = value * 10 + u64::from(b.saturating_sub(b'0'));
    }
    value
}

fn is_digit_byte(b: u8) -> bool
    ensures { result ≡ is_digit b }
{
    b >= b'0' && b <= b'9'
}

fn all_digits(word: &[u8]) -> bool
    ensures { result ≡ list_all is_digit word.now }
{
    word.iter().all(|b| is_digit_byte(*b))
}

// Whether the word is one to `most` digits.
fn is_digits(word: &[u8], most: usize) -> bool
    ensures { result ≡ is_numeral most word.now }
{
    !word.is_empty() && word.len() <= most && all_digits(word)
}

/// The number that a word of 1 to 10 digits writes. None exactly off such words, or above `max`.
pub fn read_number(word: &[u8], max: u64) -> Option<u64>
    ensures { result ≡ number_of max word.now }
{
    if !is_digits(word, 10) {
        return None;
    }
    let value = digits_value(word);
    if value <= max { Some(value) } else { None }
}

// The number of 1 to 3 digits without a leading zero, at most 255.
fn read_octet(word: &[u8]) -> Option<u32>
    ensures { result ≡ octet_of word.now }
{
    if !is_digits(word, 3) || (word.len() != 1 && word[0] == b'0') {
        return None;
    }
    let value = digits_value(word);
    if value <= 255 {
        Some(value as u32)
    } else {
        None
    }
}

// The place of the first such byte.
fn first_place(word: &[u8], byte: u8) -> Option<usize>
    ensures { result ≡ position (λ b. b == byte) word.now }
{
    word.iter().position(|b| *b == byte)
}

/// What stands before and after the first such byte.
pub fn cut(word: &[u8], byte: u8) -> Option<(&[u8], &[u8])>
    ensures { option_map (λ pair. (pair.0.now, pair.1.now)) result ≡ cut_at byte word.now }
{
    match first_place(word, byte) {
        None => None,
        Some(at) => {
            let (before, _) = word.split_at(at);
            let (_, after) = word.split_at(at + 1);
            Some((before, after))
        }
    }
}

// Two octets as a number of 16 bits, the first highest.
fn read_octets(first: &[u8], second: &[u8]) -> Option<u32>
    ensures value { result ≡ octets_of first.now second.now }
    ensures small { IfSome result (λ n. n < 65536) }
{
    let high = read_octet(first)?;
    Some(high * 256 + read_octet(second)?)
}

// The address of two such numbers, the first highest.
fn join_octets(high: Option<u32>, low: Option<u32>) -> Option<Addr>
    requires high { IfSome high (λ n. n < 65536) }
    requires low { IfSome low (λ n. n < 65536) }
    ensures { result ≡ option_and_then (λ h. option_map (λ l. record { 0 = h * 65536 + l }) low) high }
{
    let high = high?;
    Some(Addr(high * 65536 + low?))
}

/// The address that a word of four octets with dots between them writes (RFC 1123, section 2.1), an octet
/// having 1 to 3 digits and no leading zero. None exactly off that.
pub fn read_addr(word: &[u8]) -> Option<Addr>
    ensures { result ≡ addr_of word.now }
{
    let (first, rest) = cut(word, b'.')?;
    let (second, rest) = cut(rest, b'.')?;
    let (third, fourth) = cut(rest, b'.')?;
    join_octets(read_octets(first, second), read_octets(third, fourth))
}

/// The prefix that an address, a slash and a length of at most 32 write (RFC 4632, section 3.1); bits past
/// the length are cleared. None exactly off that.
pub fn read_prefix(word: &[u8]) -> Option<Prefix>
    ensures { result ≡ prefix_of_text word.now }
{
    let (addr, len) = cut(word, b'/')?;
    let addr = read_addr(addr)?;
    let len = read_number(len, 32)?;
    Some(prefix_of(addr, len as u8))
}
