//! Words that are names.

ghost use Rattle.std.specs.Prelude.{◌≡◌, map, length};
ghost use Rattle.std.specs.Char.{to_ascii_lowercase};
ghost use Rattle.std.specs.List.{list_all};
ghost use Rattle.mw_text.specs.Digits.{is_digit};
ghost use Rattle.ios_policy_reader.specs.Names.{is_printable, is_name, is_list_name, is_name_byte, is_hostname, is_place_byte, is_of_kind, is_ethernet, is_interface};

use crate::words::is_word;

fn is_printable_byte(b: u8) -> bool
    ensures { result ≡ is_printable b }
{
    b > 32 && b < 127
}

fn all_printable(word: &[u8]) -> bool
    ensures { result ≡ list_all is_printable word.now }
{
    word.iter().all(|b| is_printable_byte(*b))
}

/// Whether the word is 1 to 64 printable bytes.
pub fn is_any_name(word: &[u8]) -> bool
    ensures { result ≡ is_name word.now }
{
    !word.is_empty() && word.len() <= 64 && all_printable(word)
}

fn all_digits(word: &[u8]) -> bool
    ensures { result ≡ list_all is_digit word.now }
{
    word.iter().all(|b| *b >= b'0' && *b <= b'9')
}

/// Whether the word is a name that is not all digits.
pub fn is_name_of_list(word: &[u8]) -> bool
    ensures { result ≡ is_list_name word.now }
{
    is_any_name(word) && !all_digits(word)
}

fn is_name_part(b: u8) -> bool
    ensures { result ≡ is_name_byte b }
{
    b.is_ascii_alphabetic() || b.is_ascii_digit() || b == b'-' || b == b'_' || b == b'.'
}

fn all_name_parts(word: &[u8]) -> bool
    ensures { result ≡ list_all is_name_byte word.now }
{
    word.iter().all(|b| is_name_part(*b))
}

/// Whether the word is a router's name: 1 to 64 letters, digits, `-`, `_` and `.`.
pub fn is_router_name(word: &[u8]) -> bool
    ensures { result ≡ is_hostname word.now }
{
    !word.is_empty() && word.len() <= 64 && all_name_parts(word)
}

fn is_place_part(b: u8) -> bool
    ensures { result ≡ is_place_byte b }
{
    b.is_ascii_digit() || b == b'/' || b == b'.'
}

fn all_place_parts(word: &[u8]) -> bool
    ensures { result ≡ list_all is_place_byte word.now }
{
    word.iter().all(|b| is_place_part(*b))
}

/// Whether the word is a kind of interface, in any case, and then one or more digits, `/` and `.`.
pub fn has_kind(word: &[u8], kind: &[u8]) -> bool
    ensures { result ≡ is_of_kind (map to_ascii_lowercase kind.now) word.now }
{
    if word.len() <= kind.len() {
        return false;
    }
    let (front, place) = word.split_at(kind.len());
    is_word(front, kind) && all_place_parts(place)
}

fn names_ethernet(word: &[u8]) -> bool
    ensures { result ≡ is_ethernet word.now }
{
    has_kind(word, b"ethernet")
        || has_kind(word, b"fastethernet")
        || has_kind(word, b"gigabitethernet")
        || has_kind(word, b"tengigabitethernet")
}

/// Whether the word names an interface.
pub fn is_interface_name(word: &[u8]) -> bool
    ensures { result ≡ is_interface word.now }
{
    names_ethernet(word)
        || has_kind(word, b"serial")
        || has_kind(word, b"vlan")
        || has_kind(word, b"loopback")
}
