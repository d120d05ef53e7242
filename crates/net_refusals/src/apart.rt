//! A fast test that no address or subnet clashes with one of an earlier file: all addresses in order.

ghost use Rattle.std.specs.Prelude.{◌≡◌, ◌≤◌, ◌&&◌, ◌||◌, IfOk, length, nat_le, not, true};
ghost use Rattle.std.specs.List.{AllAdjacentBelow, list_all};
ghost use Rattle.std.specs.List.Sorted.{IsPermutation};
ghost use Rattle.mw_text.specs.Address.{same_prefix};
ghost use Rattle.net_refusals.specs.Apart as apart;
ghost use Rattle.net_interfaces.specs.Interfaces.{addressed};
ghost use Rattle.net_interfaces.specs.Limits.{keeps_limits};

use crate::refusals::NetCause;
use ios_ast::File;
use mw_text::{List, Prefix};
use net_interfaces::interfaces::{Addressed, addressed_of};
use net_interfaces::{MOST_FILES, keep_limits};
use std::alloc::{AllocError, Global};

// The number after the last address of a prefix.
fn end_of(p: &Prefix) -> u64
    ensures { result ≡ apart.end_of p.now }
{
    u64::from(p.addr.0) + (1u64 << (32 - p.len.min(32)))
}

fn is_past(x: &Addressed, y: &Addressed) -> bool
    ensures { result ≡ nat_le (apart.end_of x.now.subnet) y.now.subnet.addr.0 }
{
    end_of(&x.subnet) <= u64::from(y.subnet.addr.0)
}

fn shares(x: &Addressed, y: &Addressed) -> bool
    ensures { result ≡ same_prefix x.now.subnet y.now.subnet && not (x.now.loopback || y.now.loopback) }
{
    x.subnet == y.subnet && !(x.loopback || y.loopback)
}

fn follows(x: &Addressed, y: &Addressed) -> bool
    ensures { result ≡ apart.follows x.now y.now }
{
    x.addr.0 < y.addr.0 && (is_past(x, y) || shares(x, y))
}

fn each_follows(all: &[Addressed]) -> bool
    ensures { result ≡ true → AllAdjacentBelow apart.Follows all.now (length all.now) }
{
    all.is_sorted_by(|x, y| follows(x, y))
}

// All interfaces that have an address, by their addresses.
fn in_order(alloc: Global, files: &[File]) -> Result<List<Addressed>, AllocError>
    requires few { length files.now ≤ MOST_FILES }
    requires limits { list_all keeps_limits files.now ≡ true }
    ensures { IfOk result (λ all. IsPermutation (addressed files.now) all) }
{
    let mut all = addressed_of(alloc, files)?;
    all.items.sort_unstable_by_key(|x| x.addr.0);
    Ok(all)
}

/// Whether no address and no subnet clashes with one of an earlier file, where a look at the addresses in order tells.
/// False says nothing.
pub fn are_apart(alloc: Global, files: &[File]) -> Result<bool, AllocError>
    ensures address { IfOk result (λ all. all ≡ true → apart.KeptAbroad NetCause.SameAddress files.now) }
    ensures subnet { IfOk result (λ all. all ≡ true → apart.KeptAbroad NetCause.SubnetClash files.now) }
{
    if files.len() > MOST_FILES || !keep_limits(files) {
        return Ok(false);
    }
    let all = in_order(alloc, files)?;
    Ok(each_follows(all.as_slice()))
}
