//! The names of routers and interfaces, and the lines of files.

ghost use Rattle.std.specs.Prelude.{◌≡◌, ◌==◌, ◌&&◌};
ghost use Rattle.std.specs.List.{find};
ghost use Rattle.std.specs.Option.{option_copied};
ghost use Rattle.cex_json.specs.Parts as parts;

use crate::page::Page;
use crate::scenes::Scene;
use ios_ast::{File, Iface};
use mw_text::{Addr, Prefix, contains};
use net_model::{Addressed, IfaceId};

/// The name of a router, empty where there is none of that number.
pub fn router_name(files: &[File], router: u32) -> &[u8]
    ensures { result.now ≡ parts.router_name files.entry.now router }
{
    match files.get(router as usize) {
        None => b"",
        Some(file) => file.hostname.as_slice(),
    }
}

/// The interface of a router at a place.
pub fn iface_at(files: &[File], i: IfaceId) -> Option<&Iface> {
    match files.get(i.router as usize) {
        None => None,
        Some(file) => file.interfaces.as_slice().get(i.at as usize),
    }
}

/// The name of an interface, empty where there is none at that place.
pub fn iface_name(files: &[File], i: IfaceId) -> &[u8]
    ensures { result.now ≡ parts.iface_name files.entry.now i.router i.at }
{
    match files.get(i.router as usize) {
        None => b"",
        Some(file) => match file.interfaces.as_slice().get(i.at as usize) {
            None => b"",
            Some(iface) => iface.name.as_slice(),
        },
    }
}

/// Puts the place of a line of a router's file: (FILE:LINE).
pub fn put_line(page: &mut Page, scene: &Scene<'_>, router: u32, line: u32) {
    let name: &[u8] = match scene.names.get(router as usize) {
        None => b"",
        Some(name) => name,
    };
    page.put(&[b" (", name]);
    page.counted(b":", line);
    page.bytes(b")")
}

/// Puts the name of an interface, with the line that opens it.
pub fn put_iface(page: &mut Page, scene: &Scene<'_>, words: &[u8], i: IfaceId) {
    match iface_at(scene.net.routers(), i) {
        None => {}
        Some(iface) => {
            page.put(&[words, iface.name.as_slice()]);
            put_line(page, scene, i.router, iface.line);
        }
    }
}

/// The interface with its address and subnet, where it has one.
pub fn addressed<'a>(scene: &'a Scene<'_>, i: IfaceId) -> Option<&'a Addressed> {
    scene.net.addresses().iter().find(|x| x.id == i)
}

/// The interface of a router that has an address of its own.
pub fn own_at(own: &[Addressed], a: Addr) -> Option<&Addressed>
    ensures { option_copied result ≡ find (λ x. x.addr.0 == a.0) own.entry.now }
{
    own.iter().find(|x| x.addr == a)
}

/// The interface of a router whose subnet has an address.
pub fn own_over(own: &[Addressed], a: Addr) -> Option<&Addressed> {
    own.iter().find(|x| contains(&x.subnet, a))
}

/// The interface of a router that has a subnet.
pub fn own_on<'a>(own: &'a [Addressed], p: &Prefix) -> Option<&'a Addressed> {
    own.iter().find(|x| x.subnet == *p)
}
