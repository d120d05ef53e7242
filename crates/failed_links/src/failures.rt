//! The failed links that values of their variables say.

ghost use Rattle.std.specs.Prelude.{◌≡◌, ◌+◌, ◌-◌, ◌/◌, ◌<◌, ◌≤◌, ◌++◌, ◌∷◌, [], IfOk, OnOk, length, if◌then◌else◌};
ghost use Rattle.term_store.specs.Terms.{truth};
ghost use Rattle.sym_policy.specs.Held.{positions};
ghost use Rattle.failed_links.specs.Failures.{downs_width, failures_from};
ghost use Rattle.failed_links.specs.Rows.{row};

use crate::values::value_at;
use mw_text::List;
use route_record::Failures;
use std::alloc::{AllocError, Global};

// Puts a link at the end, where it is down.
fn put_failed(failed: &mut List<u32>, link: u32, down: bool) -> Result<(), AllocError>
    ensures { OnOk result (failed.new ≡ failed.old ++ (if down then link ∷ [] else [])) }
{
    if down {
        failed.items.push(link)?;
    }
    Ok(())
}

// The links whose variables are true.
fn failed_among(
    alloc: Global,
    values: &[bool],
    from: usize,
    links: u32,
) -> Result<List<u32>, AllocError>
    requires { from + links ≤ length values.now }
    ensures { IfOk result (λ r. r ≡ positions 0 (row (truth values.now) from links)) }
{
    let mut failed = List::new(alloc);
    for link in 0..links {
        let down = value_at(values, from + link as usize);
        put_failed(&mut failed, link, down)?;
    }
    Ok(failed)
}

/// How many variables the links have, where at most so many are down.
#[tactic(auto, unfolding(crate::specs::Failures::downs_width))]
pub fn downs_size(most: u32, links: u32) -> usize
    ensures { result ≡ downs_width most links }
{
    if most == 0 { 0 } else { links as usize }
}

/// The failed links, where at most so many are.
#[tactic(auto, using(crate::proofs::FailureParts::no_positions), unfolding(crate::specs::Failures::downs_from, crate::specs::Failures::downs_width, crate::specs::Failures::failures_from))]
pub fn failures_at(
    alloc: Global,
    values: &[bool],
    from: usize,
    most: u32,
    links: u32,
) -> Result<Failures, AllocError>
    requires { from + downs_width most links ≤ length values.now }
    ensures { IfOk result (λ r. r ≡ failures_from most links (truth values.now) from) }
{
    if most == 0 {
        return Ok(Failures {
            links: List::new(alloc),
        });
    }
    Ok(Failures {
        links: failed_among(alloc, values, from, links)?,
    })
}
