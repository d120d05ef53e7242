//! Prefixes that redistribution treats apart.

ghost use Rattle.std.specs.Prelude.{◌≡◌};
ghost use Rattle.net_parts.specs.Origins as origins;

use mw_text::Prefix;

/// Whether it is the default route.
pub fn is_default(p: &Prefix) -> bool
    ensures { result ≡ origins.is_default p.now }
{
    p.len == 0
}

/// Whether it is a network of class A, B or C (RFC 791, section 3.2).
pub fn is_classful(p: &Prefix) -> bool
    ensures { result ≡ origins.is_classful p.now }
{
    if p.addr.0 < 0x8000_0000 {
        p.len == 8
    } else if p.addr.0 < 0xc000_0000 {
        p.len == 16
    } else if p.addr.0 < 0xe000_0000 {
        p.len == 24
    } else {
        false
    }
}
