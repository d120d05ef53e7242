//! The JSON values of walks.

ghost use Rattle.std.specs.Prelude.{◌≡◌, IfOk, map, string_bytes};
ghost use Rattle.serde_json.specs.View.{view};
ghost use Rattle.cex_json.specs.Parts as parts;

use crate::parts::{addr_string, iface_name, router_name, text_value};
use ios_ast::File;
use mw_text::Addr;
use net_model::IfaceId;
use question_lang::{End, Start, Walk};
use serde_json::{Value, json};
use std::alloc::{AllocError, Global};

fn denied_in(alloc: Global, files: &[File], id: IfaceId) -> Result<String, AllocError>
    ensures { IfOk result (λ text. string_bytes text ≡ parts.end_text files.now (End.DeniedIn id)) }
{
    let router = String::from_utf8_lossy(alloc, router_name(files, id.router as usize))?;
    let name = iface_name(files, id.router as usize, id.at as usize);
    let iface = String::from_utf8_lossy(alloc, name)?;
    format!(in alloc; "deniedin {router} {iface}")
}

fn left_at(alloc: Global, files: &[File], a: Addr) -> Result<String, AllocError>
    ensures { IfOk result (λ text. string_bytes text ≡ parts.end_text files.now (End.Left a)) }
{
    let addr = addr_string(alloc, a)?;
    format!(in alloc; "left {addr}")
}

fn end_string(alloc: Global, files: &[File], end: End) -> Result<String, AllocError>
    ensures { IfOk result (λ text. string_bytes text ≡ parts.end_text files.now end) }
{
    match end {
        End::Delivered => String::from_str(alloc, "delivered"),
        End::Left(a) => left_at(alloc, files, a),
        End::NoRoute => String::from_str(alloc, "noroute"),
        End::Discarded => String::from_str(alloc, "discarded"),
        End::DeniedIn(id) => denied_in(alloc, files, id),
        End::DeniedOut => String::from_str(alloc, "deniedout"),
        End::Loop => String::from_str(alloc, "loop"),
        End::Open => String::from_str(alloc, "open"),
    }
}

#[tactic(auto, unfolding(crate::specs::Parts::hop_data))]
fn hop_value(alloc: Global, files: &[File], hop: &Start) -> Result<Value, AllocError>
    ensures { IfOk result (λ value. view value ≡ parts.hop_data files.now hop.now) }
{
    let router = text_value(alloc, router_name(files, hop.router as usize))?;
    match hop.iface {
        None => json!(in alloc; {"router": router}),
        Some(at) => {
            let name = iface_name(files, hop.router as usize, at as usize);
            let iface = text_value(alloc, name)?;
            json!(in alloc; {"in": iface, "router": router})
        }
    }
}

fn hop_values(alloc: Global, files: &[File], hops: &[Start]) -> Result<Vec<Value>, AllocError>
    ensures { IfOk result (λ values. map view values.items ≡ map (parts.hop_data files.now) hops.now) }
{
    let mut values = Vec::new(alloc);
    for hop in hops {
        values.push(hop_value(alloc, files, hop)?)?;
    }
    Ok(values)
}

/// How a walk ends and where it stood.
#[tactic(auto, unfolding(crate::specs::Parts::walk_data))]
pub fn walk_value(alloc: Global, files: &[File], walk: &Walk) -> Result<Value, AllocError>
    ensures { IfOk result (λ value. view value ≡ parts.walk_data files.now walk.now) }
{
    let end = end_string(alloc, files, walk.end)?;
    let hops = hop_values(alloc, files, walk.hops.as_slice())?;
    json!(in alloc; {"end": end, "hops": hops})
}
