//! The interfaces of a network that have an address.

ghost use Rattle.std.specs.Prelude.{◌≡◌, ◌≤◌, ◌++◌, IfOk, true, OnOk, length};
ghost use Rattle.net_interfaces.specs.Interfaces.{is_loopback, addressed_iface, addressed_from, addressed};
ghost use Rattle.std.specs.List.{list_all};
ghost use Rattle.net_interfaces.specs.Limits.{keeps_limits};

use ios_ast::{File, IfAddr, Iface, MOST_INTERFACES};
use mw_text::{Addr, List, Prefix, prefix_of};
use std::alloc::{AllocError, Global};

/// How many configuration files, each of one router, form a network at most.
pub const MOST_FILES: usize = 64;

/// An interface by its router and its place among the interfaces of that router.
#[derive(Clone, Copy, Debug, PartialEq, Eq)]
pub struct IfaceId {
    pub router: u32,
    pub at: u32,
}

/// An interface that has an address, with its subnet: the address under its mask.
#[derive(Clone, Copy)]
pub struct Addressed {
    pub id: IfaceId,
    pub addr: Addr,
    pub subnet: Prefix,
    pub loopback: bool,
    pub shutdown: bool,
}

/// Whether an interface of that name is a loopback.
pub fn is_loopback_name(name: &[u8]) -> bool
    ensures { result ≡ is_loopback name.now }
{
    let kind = name.len().min(8);
    name[..kind].eq_ignore_ascii_case(b"loopback")
}

fn with_address(id: IfaceId, iface: &Iface, address: &IfAddr) -> Addressed
    ensures { result ≡ addressed_iface id iface.now address.now }
{
    Addressed {
        id,
        addr: address.addr,
        subnet: prefix_of(address.addr, address.len),
        loopback: is_loopback_name(iface.name.as_slice()),
        shutdown: iface.shutdown,
    }
}

// Puts the interfaces of one router that have an address at the end.
fn add_router(
    out: &mut List<Addressed>,
    router: u32,
    interfaces: &[Iface],
) -> Result<(), AllocError>
    requires { length interfaces.now ≤ MOST_INTERFACES }
    ensures { OnOk result (out.new ≡ out.old ++ addressed_from router 0 interfaces.now) }
{
    for (at, iface) in interfaces.iter().enumerate() {
        if let Some(address) = &iface.address {
            let id = IfaceId {
                router,
                at: at as u32,
            };
            out.items.push(with_address(id, iface, address))?;
        }
    }
    Ok(())
}

/// All interfaces of the files that have an address, in the order of the files.
pub fn addressed_of(alloc: Global, files: &[File]) -> Result<List<Addressed>, AllocError>
    requires few { length files.now ≤ MOST_FILES }
    requires limits { list_all keeps_limits files.now ≡ true }
    ensures { IfOk result (λ all. all ≡ addressed files.now) }
{
    let mut all = List::new(alloc);
    for (router, file) in files.iter().enumerate() {
        add_router(&mut all, router as u32, file.interfaces.as_slice())?;
    }
    Ok(all)
}
