//! The JSON values of addresses, names and packets.

ghost use Rattle.std.specs.Prelude.{◌≡◌, IfOk, IsUtf8, string_bytes};
ghost use Rattle.serde_json.specs.Data.{string};
ghost use Rattle.serde_json.specs.View.{view};
ghost use Rattle.cex_json.specs.Json.{text_of};
ghost use Rattle.cex_json.specs.Parts as parts;

use ios_ast::File;
use mw_text::Addr;
use route_record::Packet;
use serde_json::{Value, json};
use std::alloc::{AllocError, Global};

/// The address in dotted decimal (RFC 1123, section 2.1).
#[tactic(auto, unfolding(crate::specs::Parts::addr_text))]
pub fn addr_string(alloc: Global, a: Addr) -> Result<String, AllocError>
    ensures { IfOk result (λ text. string_bytes text ≡ parts.addr_text a) }
{
    let first = a.0 / 0x100_0000 % 256;
    let second = a.0 / 0x1_0000 % 256;
    let third = a.0 / 0x100 % 256;
    let fourth = a.0 % 256;
    format!(in alloc; "{first}.{second}.{third}.{fourth}")
}

/// The address in dotted decimal.
pub fn addr_value(alloc: Global, a: Addr) -> Result<Value, AllocError>
    ensures { IfOk result (λ value. view value ≡ string (parts.addr_text a)) }
{
    Ok(Value::String(addr_string(alloc, a)?))
}

/// The text of a name. UTF-8, as all ASCII is, stays as it is; other bytes become U+FFFD.
pub fn text_value(alloc: Global, bytes: &[u8]) -> Result<Value, AllocError>
    ensures value { IfOk result (λ value. view value ≡ text_of bytes.now) }
    ensures kept { IfOk result (λ value. IsUtf8 bytes.now → view value ≡ string bytes.now) }
{
    Ok(Value::String(String::from_utf8_lossy(alloc, bytes)?))
}

/// The name of a router, empty where there is none of that number.
pub fn router_name(files: &[File], router: usize) -> &[u8]
    ensures { result.now ≡ parts.router_name files.entry.now router }
{
    match files.get(router) {
        None => b"",
        Some(file) => file.hostname.as_slice(),
    }
}

/// The name of an interface of a router, empty where there is none at that place.
pub fn iface_name(files: &[File], router: usize, at: usize) -> &[u8]
    ensures { result.now ≡ parts.iface_name files.entry.now router at }
{
    match files.get(router) {
        None => b"",
        Some(file) => match file.interfaces.as_slice().get(at) {
            None => b"",
            Some(iface) => iface.name.as_slice(),
        },
    }
}

/// The fields of a packet.
#[tactic(auto, unfolding(crate::specs::Parts::packet_data))]
pub fn packet_value(alloc: Global, packet: &Packet) -> Result<Value, AllocError>
    ensures { IfOk result (λ value. view value ≡ parts.packet_data packet.now) }
{
    let dst = addr_value(alloc, packet.dst)?;
    let src = addr_value(alloc, packet.src)?;
    json!(in alloc; {
        "dport": packet.dport,
        "dst": dst,
        "proto": packet.proto,
        "sport": packet.sport,
        "src": src
    })
}
