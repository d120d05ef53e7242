//! Keywords and numbers.

ghost use Rattle.std.specs.Prelude.{◌≡◌, ◌==◌, ℕ, ◌≤◌, map, length, position};
ghost use Rattle.std.specs.Char.{to_ascii_lowercase};
ghost use Rattle.ios_policy_reader.specs.Words.{is_keyword, keyword_of, is_key, number_from, community_of, port_among, port_of, port_from, port_range, ports_of};

use mw_text::digits::cut;
use mw_text::read_number;

/// Whether the word is that keyword, in any case.
pub fn is_word(word: &[u8], keyword: &[u8]) -> bool
    ensures { result ≡ is_keyword (map to_ascii_lowercase keyword.now) word.now }
{
    word.eq_ignore_ascii_case(keyword)
}

/// The place of the first blank.
fn blank_place(key: &[u8]) -> Option<usize>
    ensures { result ≡ position (λ b. b == 32) key.now }
{
    key.iter().position(|b| *b == b' ')
}

/// What stands before the blanks that fill up a word of a table.
fn keyword_in(key: &[u8]) -> &[u8]
    ensures { result.now ≡ keyword_of key.now }
{
    match blank_place(key) {
        Some(end) => &key[..end],
        None => key,
    }
}

/// How long the part before the first blank is.
pub fn length_of_keyword(key: &[u8]) -> usize
    ensures { result ≡ length (keyword_of key.now) }
{
    keyword_in(key).len()
}

/// Whether the word is that word of a table, in any case.
pub fn is_table_word(word: &[u8], key: &[u8]) -> bool
    ensures { result ≡ is_key key.now word.now }
{
    is_word(word, keyword_in(key))
}

/// The number that a word writes, where it is in the range.
pub fn read_range(word: &[u8], low: u32, high: u32) -> Option<u32>
    ensures { result ≡ number_from low high word.now }
{
    let number = read_number(word, u64::from(high))?;
    if number >= u64::from(low) {
        Some(number as u32)
    } else {
        None
    }
}

/// The community that a number or two halves with a colon between them write (RFC 1997).
pub fn read_community(word: &[u8]) -> Option<u32>
    ensures { result ≡ community_of word.now }
{
    match cut(word, b':') {
        None => read_range(word, 0, 0xffff_ffff),
        Some((high, low)) => {
            let high = read_number(high, 65_535)?;
            let low = read_number(low, 65_535)?;
            Some((high * 65_536 + low) as u32)
        }
    }
}

/// The name of a port, filled up with blanks, and the port.
#[derive(Clone, Copy)]
pub struct PortName(pub [u8; 16], pub u16);

/// The ports that have names (IANA).
pub const PORT_NAMES: [PortName; 11] = [
    PortName(*b"ftp             ", 21),
    PortName(*b"telnet          ", 23),
    PortName(*b"smtp            ", 25),
    PortName(*b"domain          ", 53),
    PortName(*b"tftp            ", 69),
    PortName(*b"www             ", 80),
    PortName(*b"pop3            ", 110),
    PortName(*b"ntp             ", 123),
    PortName(*b"snmp            ", 161),
    PortName(*b"bgp             ", 179),
    PortName(*b"syslog          ", 514),
];

/// The port of a name among these.
fn find_port(names: &[PortName], word: &[u8]) -> Option<u16>
    ensures { result ≡ port_among word.now names.now }
{
    for name in names {
        if is_table_word(word, &name.0) {
            return Some(name.1);
        }
    }
    None
}

/// The port that a number or a name writes.
#[tactic(auto, unfolding(crate::specs::Words::port_of))]
pub fn read_port(word: &[u8]) -> Option<u16>
    ensures { result ≡ port_of word.now }
{
    match find_port(&PORT_NAMES, word) {
        Some(port) => Some(port),
        None => Some(read_number(word, 65_535)? as u16),
    }
}

/// The port that the word writes, where it is not below another one.
pub fn read_port_from(word: &[u8], low: u32) -> Option<u32>
    ensures { result ≡ port_from low word.now }
{
    let port = u32::from(read_port(word)?);
    if port >= low { Some(port) } else { None }
}

/// The ports from the number that the one word writes to that of the other, which is not below it.
fn read_port_range(low: &[u8], high: &[u8]) -> Option<(u16, u16)>
    ensures { result ≡ port_range (low.now, high.now) }
{
    let low = read_number(low, 65_535)? as u16;
    let high = read_number(high, 65_535)? as u16;
    if low <= high { Some((low, high)) } else { None }
}

/// The ports that a word writes: `any`, one by its number or its name, or two numbers with `-` between them, the first
/// not above the second.
#[tactic(auto, unfolding(crate::specs::Words::ports_of))]
pub fn read_ports(word: &[u8]) -> Option<(u16, u16)>
    ensures { result ≡ ports_of word.now }
{
    if is_word(word, b"any") {
        return Some((0, 65_535));
    }
    match cut(word, b'-') {
        Some((low, high)) => read_port_range(low, high),
        None => {
            let port = read_port(word)?;
            Some((port, port))
        }
    }
}
