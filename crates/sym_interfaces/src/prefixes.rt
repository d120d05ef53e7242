//! Prefixes of their own length.

ghost use Rattle.std.specs.Prelude.{◌≡◌};
ghost use Rattle.mw_text.specs.Address.{prefix_at, same_prefix};

use mw_text::{Prefix, prefix_of};

/// Whether a prefix is one of that length, with no bit past it.
pub fn is_network(p: &Prefix, len: u8) -> bool
    ensures { result ≡ same_prefix (prefix_at p.now.addr len) p.now }
{
    prefix_of(p.addr, len) == *p
}
