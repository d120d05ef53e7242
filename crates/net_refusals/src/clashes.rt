//! Hostnames, addresses and subnets that clash with earlier ones.

ghost use Rattle.std.specs.Prelude.{◌≡◌, ◌==◌, ◌&&◌, ◌||◌, false, not, nat_lt, take, None, fold, option_and_then};
ghost use Rattle.std.specs.List.{list_any};
ghost use Rattle.std.specs.Option.{option_map_or};
ghost use Rattle.mw_text.specs.Address.{prefix_at};
ghost use Rattle.mw_text.specs.Text.{same_text};
ghost use Rattle.net_interfaces.specs.Interfaces.{is_loopback};
ghost use Rattle.net_refusals.specs.Refusals as refusals;

use crate::lines::{earlier, line_if};
use ios_ast::{File, IfAddr, Iface};
use mw_text::{Addr, prefix_of, same_bytes};
use net_interfaces::connected::prefixes_overlap;
use net_interfaces::interfaces::is_loopback_name;

fn some_named(files: &[File], name: &[u8]) -> bool
    ensures { result ≡ list_any (λ other. same_text other.hostname name.now) files.now }
{
    files
        .iter()
        .any(|other| same_bytes(other.hostname.as_slice(), name))
}

/// The line of the hostname, where an earlier file has it too.
pub fn same_name_line(before: &[File], file: &File) -> Option<u32>
    ensures { result ≡ refusals.same_name_line before.now file.now }
{
    line_if(
        some_named(before, file.hostname.as_slice()),
        file.hostname_line,
    )
}

/// Whether the interface has that address.
pub fn has_address(iface: &Iface, a: Addr) -> bool
    ensures { result ≡ refusals.has_address a iface.now }
{
    match &iface.address {
        None => false,
        Some(own) => own.addr == a,
    }
}

fn file_has(file: &File, a: Addr) -> bool
    ensures { result ≡ list_any (refusals.has_address a) file.now.interfaces }
{
    file.interfaces
        .as_slice()
        .iter()
        .any(|iface| has_address(iface, a))
}

/// Whether an interface of the files has that address.
pub fn some_has(files: &[File], a: Addr) -> bool
    ensures { result ≡ refusals.some_has a files.now }
{
    files.iter().any(|file| file_has(file, a))
}

fn has_above(iface: &Iface, own: &IfAddr) -> bool
    ensures { result ≡ refusals.has_above own.now iface.now }
{
    match &iface.address {
        None => false,
        Some(other) => other.line < own.line && other.addr == own.addr,
    }
}

fn some_above(file: &File, own: &IfAddr) -> bool
    ensures { result ≡ list_any (refusals.has_above own.now) file.now.interfaces }
{
    file.interfaces
        .as_slice()
        .iter()
        .any(|iface| has_above(iface, own))
}

fn taken_line(before: &[File], file: &File, iface: &Iface) -> Option<u32>
    ensures { result ≡ refusals.taken_line before.now file.now iface.now }
{
    match &iface.address {
        None => None,
        Some(own) => line_if(
            some_has(before, own.addr) || some_above(file, own),
            own.line,
        ),
    }
}

/// The first `ip address` line whose address an earlier interface has.
pub fn same_address_line(before: &[File], file: &File) -> Option<u32>
    ensures { result ≡ refusals.same_address_line before.now file.now }
{
    file.interfaces.as_slice().iter().fold(
        None,
        |first, iface| earlier(first, taken_line(before, file, iface)),
    )
}

fn addresses_overlap(a: &IfAddr, b: &IfAddr) -> bool
    ensures { result ≡ refusals.addresses_overlap a.now b.now }
{
    prefixes_overlap(&prefix_of(a.addr, a.len), &prefix_of(b.addr, b.len))
}

fn are_on_one(a: &IfAddr, b: &IfAddr) -> bool
    ensures { result ≡ refusals.are_on_one a.now b.now }
{
    prefix_of(a.addr, a.len) == prefix_of(b.addr, b.len)
}

fn clashes_abroad(own: &IfAddr, loopback: bool, iface: &Iface) -> bool
    ensures { result ≡ refusals.clashes_abroad own.now loopback iface.now }
{
    match &iface.address {
        None => false,
        Some(other) => {
            addresses_overlap(own, other)
                && !(are_on_one(own, other)
                    && !(loopback || is_loopback_name(iface.name.as_slice())))
        }
    }
}

fn file_clashes(file: &File, own: &IfAddr, loopback: bool) -> bool
    ensures { result ≡ list_any (refusals.clashes_abroad own.now loopback) file.now.interfaces }
{
    file.interfaces
        .as_slice()
        .iter()
        .any(|iface| clashes_abroad(own, loopback, iface))
}

fn some_clashes(before: &[File], own: &IfAddr, loopback: bool) -> bool
    ensures { result ≡ list_any (λ f. list_any (refusals.clashes_abroad own.now loopback) f.interfaces) before.now }
{
    before.iter().any(|file| file_clashes(file, own, loopback))
}

fn clashes_above(own: &IfAddr, iface: &Iface) -> bool
    ensures { result ≡ refusals.clashes_above own.now iface.now }
{
    match &iface.address {
        None => false,
        Some(other) => other.line < own.line && addresses_overlap(own, other),
    }
}

fn some_clashes_above(file: &File, own: &IfAddr) -> bool
    ensures { result ≡ list_any (refusals.clashes_above own.now) file.now.interfaces }
{
    file.interfaces
        .as_slice()
        .iter()
        .any(|iface| clashes_above(own, iface))
}

fn clashes(before: &[File], file: &File, own: &IfAddr, loopback: bool) -> bool
    ensures { result ≡ refusals.clashes before.now file.now own.now loopback }
{
    some_clashes(before, own, loopback) || some_clashes_above(file, own)
}

fn clash_line(before: &[File], file: &File, iface: &Iface) -> Option<u32>
    ensures { result ≡ refusals.clash_line before.now file.now iface.now }
{
    match &iface.address {
        None => None,
        Some(own) => {
            let loopback = is_loopback_name(iface.name.as_slice());
            line_if(clashes(before, file, own, loopback), own.line)
        }
    }
}

/// The first `ip address` line whose subnet clashes with that of an earlier interface.
pub fn subnet_clash_line(before: &[File], file: &File) -> Option<u32>
    ensures { result ≡ refusals.subnet_clash_line before.now file.now }
{
    file.interfaces.as_slice().iter().fold(
        None,
        |first, iface| earlier(first, clash_line(before, file, iface)),
    )
}
