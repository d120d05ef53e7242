//! The lists and route maps of a neighbour.

ghost use Rattle.std.specs.Prelude.{◌≡◌, ◌∷◌, IfOk, option_map};
ghost use Rattle.ios_ast.specs.Maps as maps;
ghost use Rattle.net_parts.specs.Exports as exports;
ghost use Rattle.net_parts.specs.Mapping as mapping;

use ios_ast::{Policies, Use};
use mw_text::{List, Prefix};
use policy_eval::{paths_permit, prefixes_permit};
use route_record::BgpRec;
use std::alloc::{AllocError, Global};

/// A list with one more in front.
pub fn with_front<T: Copy>(alloc: Global, first: T, rest: &List<T>) -> Result<List<T>, AllocError>
    ensures { IfOk result (λ made. made ≡ first ∷ rest.now) }
{
    let mut items = Vec::new(alloc);
    items.push(first)?;
    items.extend_from_slice(rest.as_slice())?;
    Ok(List { items })
}

/// Whether the prefix list that is applied, if one is, permits the prefix.
pub fn passes_prefixes(policies: &Policies, used: &Option<Use>, p: &Prefix) -> bool
    ensures { result ≡ exports.passes_prefixes policies.now used.now p.now }
{
    match used {
        None => true,
        Some(named) => prefixes_permit(policies, p, named),
    }
}

/// Whether the AS-path list that is applied, if one is, permits the path.
pub fn passes_paths(policies: &Policies, used: &Option<Use>, path: &[u32]) -> bool
    ensures { result ≡ exports.passes_paths policies.now used.now path.now }
{
    match used {
        None => true,
        Some(named) => paths_permit(policies, path, named),
    }
}

/// What the map that is applied, if one is, makes of the route. None where it drops the route.
#[tactic(auto, using(crate::proofs::Mapped::same_attributes))]
pub fn through_map(
    alloc: Global,
    policies: &Policies,
    used: &Option<Use>,
    p: &Prefix,
    external: bool,
    rec: BgpRec,
) -> Result<Option<BgpRec>, AllocError>
    ensures { IfOk result (λ made. made ≡ option_map (mapping.with_attributes rec)
        (maps.through_map policies.now used.now p.now external (mapping.attributes_of rec))) }
{
    policy_eval::through_map(alloc, policies, used, p, external, rec)
}
