//! Numbers of new variables, as fields tell them.

ghost use Rattle.std.specs.Prelude.{◌≡◌, ℕ, ◌+◌, ◌-◌, ◌*◌, ◌^◌, ◌≤◌, ◌<◌, ◌==◌, All, IfOk, OnOk, if◌then◌else◌, length, slice_index};
ghost use Rattle.term_store.specs.Terms.{Reading, size};
ghost use Rattle.term_store.specs.Reading.{Reads, Builds, Grows, Gives};
ghost use Rattle.term_arith.specs.Bits.{number, ids_end};
ghost use Rattle.slot_places.specs.Values.{address_numbers, field_width, read_as};
ghost use Rattle.failed_links.specs.Rows.{number_from};
ghost use Rattle.world_variables.specs.Unknowns.{TellsWithin};

use crate::packets::above;
use slot_places::Field;
use slot_places::fields::address_number;
use std::alloc::{AllocError, Global};
use term_arith::{Bits, choose, constant, equal_number, fresh_bits};
use term_store::Terms;

// The value where that is the place, and else the other number.
fn value_or(
    alloc: Global,
    terms: &mut Terms,
    value: u64,
    at: u64,
    place: &Bits,
    other: &Bits,
    whole: u8,
) -> Result<Bits, AllocError>
    requires whole { whole ≤ 64 }
    requires fits { value < 2 ^ whole }
    requires place { ids_end place.now.nodes.items ≤ size terms.old }
    requires other { ids_end other.now.nodes.items ≤ size terms.old }
    requires wide { length other.now.nodes.items ≡ whole }
    ensures builds { Builds terms.old terms.new }
    ensures within { IfOk result (λ r. ids_end r.nodes.items ≤ size terms.new) }
    ensures width { IfOk result (λ r. length r.nodes.items ≡ whole) }
    ensures value { Gives terms.new result (λ w r. number w r.nodes.items
        ≡ (if number w place.now.nodes.items == at then value else number w other.now.nodes.items)) }
{
    let here = equal_number(terms, place.nodes.as_slice(), at)?;
    let known = constant(alloc, terms, value, whole)?;
    choose(alloc, terms, here, &known, other)
}

/// The value at the place that a number says, 0 past the last.
#[tactic(auto, using(crate::proofs::FieldSteps::later_none, crate::proofs::FieldSteps::later_first, crate::proofs::FieldSteps::later_step))]
pub fn value_among(
    alloc: Global,
    terms: &mut Terms,
    values: &[u32],
    place: &Bits,
    whole: u8,
) -> Result<Bits, AllocError>
    requires whole { whole ≤ 64 }
    requires fit { All (λ x. x < 2 ^ whole) values.now }
    requires place { ids_end place.now.nodes.items ≤ size terms.old }
    ensures builds { Builds terms.old terms.new }
    ensures within { IfOk result (λ r. ids_end r.nodes.items ≤ size terms.new) }
    ensures width { IfOk result (λ r. length r.nodes.items ≡ whole) }
    ensures value { Gives terms.new result (λ w r. number w r.nodes.items
        ≡ slice_index values.now (number w place.now.nodes.items)) }
{
    let mut rest = constant(alloc, terms, 0, whole)?;
    for i in (0..values.len()).rev() {
        rest = value_or(
            alloc,
            terms,
            u64::from(values[i]),
            i as u64,
            place,
            &rest,
            whole,
        )?;
    }
    Ok(rest)
}

// The number of an address, where so many bits have room for it.
fn address_within(addr: u32, whole: u8) -> u64
    requires { 33 ≤ whole }
    ensures value { result ≡ 2 ^ 32 + addr }
    ensures fits { result < 2 ^ whole }
{
    address_number(addr)
}

// The number at the place that a number says among those of none and of some addresses, 0 past the last.
#[tactic(auto, using(crate::proofs::FieldSteps::address_last, crate::proofs::FieldSteps::address_next))]
fn address_among(
    alloc: Global,
    terms: &mut Terms,
    addresses: &[u32],
    place: &Bits,
    whole: u8,
) -> Result<Bits, AllocError>
    requires whole { whole ≤ 64 }
    requires long { 33 ≤ whole }
    requires place { ids_end place.now.nodes.items ≤ size terms.old }
    ensures builds { Builds terms.old terms.new }
    ensures within { IfOk result (λ r. ids_end r.nodes.items ≤ size terms.new) }
    ensures width { IfOk result (λ r. length r.nodes.items ≡ whole) }
    ensures value { Gives terms.new result (λ w r. number w r.nodes.items
        ≡ slice_index (address_numbers addresses.now) (number w place.now.nodes.items)) }
{
    let mut rest = constant(alloc, terms, 0, whole)?;
    for i in (0..addresses.len()).rev() {
        rest = value_or(
            alloc,
            terms,
            address_within(addresses[i], whole),
            i as u64 + 1,
            place,
            &rest,
            whole,
        )?;
    }
    Ok(rest)
}

/// A number of so many bits, whose lowest `width` are new variables and whose others are 0.
#[tactic(auto, using(failed_links::proofs::Steps::grows_built, failed_links::proofs::Steps::grows_grown, failed_links::proofs::Steps::number_fresh, failed_links::proofs::Steps::number_above, sym_policy::proofs::NetworkBits::joined_ends, crate::proofs::Steps::nothing_above))]
pub fn padded(alloc: Global, terms: &mut Terms, width: u8, whole: u8) -> Result<Bits, AllocError>
    requires whole { whole ≤ 64 }
    requires fits { width ≤ whole }
    ensures grows { Grows terms.old terms.new }
    ensures within { IfOk result (λ r. ids_end r.nodes.items ≤ size terms.new) }
    ensures width { IfOk result (λ r. length r.nodes.items ≡ whole) }
    ensures vars { OnOk result (terms.new.vars ≡ terms.old.vars + width) }
    ensures value { Gives terms.new result (λ w r. number w r.nodes.items ≡ number_from w.variable terms.old.vars width) }
{
    let low = fresh_bits(alloc, terms, width)?;
    let zeros = constant(alloc, terms, 0, whole - width)?;
    above(low, &zeros)
}

// One of some values, whose place is a number of new variables.
#[tactic(auto, using(failed_links::proofs::Steps::grows_built, failed_links::proofs::Steps::grows_grown, failed_links::proofs::Steps::number_fresh))]
fn open_among(
    alloc: Global,
    terms: &mut Terms,
    values: &[u32],
    width: u8,
    whole: u8,
) -> Result<Bits, AllocError>
    requires whole { whole ≤ 64 }
    requires fit { All (λ x. x < 2 ^ whole) values.now }
    ensures grows { Grows terms.old terms.new }
    ensures within { IfOk result (λ r. ids_end r.nodes.items ≤ size terms.new) }
    ensures width { IfOk result (λ r. length r.nodes.items ≡ whole) }
    ensures vars { OnOk result (terms.new.vars ≡ terms.old.vars + width) }
    ensures value { Gives terms.new result (λ w r. number w r.nodes.items
        ≡ slice_index values.now (number_from w.variable terms.old.vars width)) }
{
    let place = fresh_bits(alloc, terms, width)?;
    value_among(alloc, terms, values, &place, whole)
}

// None or one of some addresses, whose place is a number of new variables.
#[tactic(auto, using(failed_links::proofs::Steps::grows_built, failed_links::proofs::Steps::grows_grown, failed_links::proofs::Steps::number_fresh))]
fn open_address(
    alloc: Global,
    terms: &mut Terms,
    addresses: &[u32],
    width: u8,
    whole: u8,
) -> Result<Bits, AllocError>
    requires whole { whole ≤ 64 }
    requires long { 33 ≤ whole }
    ensures grows { Grows terms.old terms.new }
    ensures within { IfOk result (λ r. ids_end r.nodes.items ≤ size terms.new) }
    ensures width { IfOk result (λ r. length r.nodes.items ≡ whole) }
    ensures vars { OnOk result (terms.new.vars ≡ terms.old.vars + width) }
    ensures value { Gives terms.new result (λ w r. number w r.nodes.items
        ≡ slice_index (address_numbers addresses.now) (number_from w.variable terms.old.vars width)) }
{
    let place = fresh_bits(alloc, terms, width)?;
    address_among(alloc, terms, addresses, &place, whole)
}

/// A number of so many bits that a field tells, by new variables.
pub fn open_field(
    alloc: Global,
    terms: &mut Terms,
    field: &Field,
    whole: u8,
) -> Result<Bits, AllocError>
    requires whole { whole ≤ 64 }
    requires fits { TellsWithin whole field.now }
    ensures grows { Grows terms.old terms.new }
    ensures within { IfOk result (λ r. ids_end r.nodes.items ≤ size terms.new) }
    ensures width { IfOk result (λ r. length r.nodes.items ≡ whole) }
    ensures vars { OnOk result (terms.new.vars ≡ terms.old.vars + field_width field.now) }
    ensures value { Gives terms.new result (λ w r. number w r.nodes.items
        ≡ read_as field.now (number_from w.variable terms.old.vars (field_width field.now))) }
{
    let told = field.width();
    match field {
        Field::Bits(width) => padded(alloc, terms, *width, whole),
        Field::Among(values) => open_among(alloc, terms, values.as_slice(), told, whole),
        Field::Addresses(addresses) => {
            open_address(alloc, terms, addresses.as_slice(), told, whole)
        }
    }
}
