//! What is read from a row of values: one variable, and a number.

ghost use Rattle.std.specs.Prelude.{◌≡◌, ◌+◌, ◌-◌, ◌/◌, ◌^◌, ◌<◌, ◌≤◌, ◌*◌, length};
ghost use Rattle.term_arith.specs.Bits.{bit};
ghost use Rattle.term_store.specs.Terms.{truth};
ghost use Rattle.failed_links.specs.Rows.{number_from, row};

/// The value of one variable.
#[tactic(auto, using(crate::proofs::ValueSteps::truth_here))]
pub fn value_at(values: &[bool], place: usize) -> bool
    requires { place < length values.now }
    ensures { result ≡ truth values.now place }
{
    values[place]
}

fn bit_of(value: bool) -> u32
    ensures { result ≡ bit value }
{
    u32::from(value)
}

/// The number whose bits are so many variables from one on.
#[tactic(auto, using(crate::proofs::ValueSteps::number_none))]
pub fn number_at(values: &[bool], from: usize, width: u8) -> u32
    requires narrow { width ≤ 32 }
    requires within { from + width ≤ length values.now }
    ensures value { result ≡ number_from (truth values.now) from width }
    ensures small { result < 2 ^ width }
{
    let mut number = 0u32;
    for i in (0..width).rev() {
        let value = value_at(values, from + usize::from(i));
        number = 2 * number + bit_of(value);
    }
    number
}
