//! IPv4 addresses and prefixes (RFC 791; RFC 4632, section 3.1).

ghost use Rattle.std.specs.Prelude.{◌≡◌};
ghost use Rattle.mw_text.specs.Address.{mask_of, prefix_at, covers};

/// An IPv4 address as a number, its first octet highest.
#[derive(Clone, Copy, PartialEq, Eq)]
pub struct Addr(pub u32);

/// The addresses whose first `len` bits are those of `addr`. The length is at most 32 and the bits past it
/// are 0, as `prefix_of` and `read_prefix` make it; a length above 32 counts as 32.
#[derive(Clone, Copy, PartialEq, Eq)]
pub struct Prefix {
    pub addr: Addr,
    pub len: u8,
}

/// How many addresses share their first `len` bits (RFC 4632, section 3.1). A length above 32 counts as 32.
pub fn block_size(len: u8) -> u64
    ensures { result ≡ Rattle.mw_text.specs.Address.block len }
{
    1u64 << (32 - len.min(32))
}

/// The mask whose first `len` bits are 1. A length above 32 counts as 32.
pub fn mask(len: u8) -> u32
    ensures { result ≡ mask_of len }
{
    (0x1_0000_0000 - block_size(len)) as u32
}

/// The prefix of `d` with that length: the bits past it are cleared. A length above 32 clears none.
pub fn prefix_of(d: Addr, len: u8) -> Prefix
    ensures { result ≡ prefix_at d len }
{
    let block = block_size(len);
    let first = u64::from(d.0) / block * block;
    Prefix {
        addr: Addr(first as u32),
        len,
    }
}

/// Whether the prefix contains the address: their first `p.len` bits are equal.
pub fn contains(p: &Prefix, d: Addr) -> bool
    ensures { result ≡ covers p.now d }
{
    let block = block_size(p.len);
    u64::from(d.0) / block == u64::from(p.addr.0) / block
}
