//! How a formula tells a number of which it is known that it is one of some values.

ghost use Rattle.std.specs.Prelude.{◌≡◌, ◌≤◌, ◌+◌, ◌-◌, ◌^◌, OnOk, slice_index};
ghost use Rattle.ios_ast.specs.Deciding.{carries};
ghost use Rattle.slot_places.specs.Values as values;

use mw_text::List;
use std::alloc::{AllocError, Global};

/// How many values are told apart by their place among them, at most.
pub const MOST_VALUES: usize = 32;

/// How many addresses are told apart by their place among them, at most.
pub const MOST_ADDRESSES: usize = 32;

/// How a number is told by variables: by so many bits, by the bits of its place among some values, or, where it stands for
/// an address that may be missing, by the bits of its place among none and some addresses.
#[derive(Drop)]
pub enum Field {
    Bits(u8),
    Among(List<u32>),
    Addresses(List<u32>),
}

/// The least width in which a number has room, 32 at most.
#[tactic(auto, using(crate::proofs::Widths::width_found, crate::proofs::Widths::width_more, crate::proofs::Widths::width_last))]
pub fn width_for(number: u64) -> u8
    ensures value { result ≡ values.width_for number }
    ensures few { result ≤ 32 }
{
    for width in 0..32u8 {
        if number < 1u64 << width {
            return width;
        }
    }
    32
}

fn is_there(held: &[u32], n: u32) -> bool
    ensures { result ≡ carries held.now n }
{
    held.iter().any(|m| *m == n)
}

/// Puts a value behind others, unless it is one of them.
pub fn put_once(held: &mut List<u32>, n: u32) -> Result<(), AllocError>
    ensures { OnOk result (held.new ≡ values.put_once held.old n) }
{
    if !is_there(held.as_slice(), n) {
        held.items.push(n)?;
    }
    Ok(())
}

/// The greatest of some numbers, 0 of none.
pub fn greatest(numbers: &[u32]) -> u32
    ensures { result ≡ values.greatest numbers.now }
{
    let mut most = 0u32;
    for n in numbers {
        most = most.max(*n);
    }
    most
}

/// A field for numbers that are one of these values: few are told by their place among them, many by their bits.
#[tactic(auto, unfolding(crate::specs::Values::field_of))]
pub fn field_of(among: List<u32>) -> Field
    ensures { result ≡ values.field_of among }
{
    if among.as_slice().len() <= MOST_VALUES {
        Field::Among(among)
    } else {
        Field::Bits(width_for(u64::from(greatest(among.as_slice()))))
    }
}

/// A field for numbers that stand for none or for one of these addresses, above 2^32: few are told by their place, many by
/// their bits.
#[tactic(auto, unfolding(crate::specs::Values::addresses_field))]
pub fn addresses_field(addresses: List<u32>) -> Field
    ensures { result ≡ values.addresses_field addresses }
{
    if addresses.as_slice().len() <= MOST_ADDRESSES {
        Field::Addresses(addresses)
    } else {
        Field::Bits(33)
    }
}

// The width of a place among so many.
fn place_width(many: usize) -> u8
    ensures { result ≡ values.width_for (many - 1) }
{
    width_for(many.saturating_sub(1) as u64)
}

fn value_at(among: &[u32], place: u64) -> u64
    ensures { result ≡ slice_index among.now place }
{
    match among.get(place as usize) {
        None => 0,
        Some(value) => u64::from(*value),
    }
}

/// The number that stands for an address, above 2^32.
pub fn address_number(addr: u32) -> u64
    ensures { result ≡ 2 ^ 32 + addr }
{
    4_294_967_296 + u64::from(addr)
}

// The number at a place among those of none and of some addresses.
#[tactic(auto, using(crate::proofs::Telling::address_there))]
fn number_of(addresses: &[u32], place: u64) -> u64
    ensures { result ≡ slice_index (values.address_numbers addresses.now) place }
{
    if place == 0 {
        return 0;
    }
    match addresses.get(place as usize - 1) {
        None => 0,
        Some(addr) => address_number(*addr),
    }
}

impl Field {
    ghost use Rattle.slot_places.specs.Values as values;

    /// By how many variables the number is told.
    pub fn width(&self) -> u8
        ensures { result ≡ values.field_width self.now }
    {
        match self {
            Field::Bits(width) => *width,
            Field::Among(among) => place_width(among.as_slice().len()),
            Field::Addresses(addresses) => width_for(addresses.as_slice().len() as u64),
        }
    }

    /// The bits in which each number has room for which the field has, 33 at most where it has places.
    pub fn bits(&self) -> u8
        ensures { result ≡ values.field_bits self.now }
    {
        match self {
            Field::Bits(width) => *width,
            Field::Among(among) => width_for(u64::from(greatest(among.as_slice()))),
            Field::Addresses(_) => 33,
        }
    }

    /// The number that is told by another: that one itself, or the value or the address's number at that place, 0 past the
    /// last.
    pub fn read(&self, told: u64) -> u64
        ensures { result ≡ values.read_as self.now told }
    {
        match self {
            Field::Bits(_) => told,
            Field::Among(among) => value_at(among.as_slice(), told),
            Field::Addresses(addresses) => number_of(addresses.as_slice(), told),
        }
    }
}
