//! Identifiers of external peers that variables say.

ghost use Rattle.std.specs.Prelude.{◌≡◌, ◌+◌, ◌*◌, ◌++◌, ◌≤◌, IfOk, length};
ghost use Rattle.term_store.specs.Terms.{truth};
ghost use Rattle.bgp_variables.specs.Environments.{addresses_from};

use failed_links::number_at;
use mw_text::Addr;
use std::alloc::{AllocError, Global};

/// So many addresses, of 32 variables each, from one on.
#[tactic(auto, using(crate::proofs::IdSteps::addresses_more, crate::proofs::IdSteps::addresses_none))]
pub fn addresses_at(
    alloc: Global,
    values: &[bool],
    from: usize,
    count: usize,
) -> Result<Vec<Addr>, AllocError>
    requires { from + 32 * count ≤ length values.now }
    ensures { IfOk result (λ made. made.items ≡ addresses_from count (truth values.now) from) }
{
    let _values = values.len();
    let mut made = Vec::new(alloc);
    for i in 0..count {
        made.push(Addr(number_at(values, from + 32 * i, 32)))?;
    }
    Ok(made)
}
