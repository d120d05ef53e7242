//! What external peers are and announce, as terms, and where it stands.

ghost use Rattle.std.specs.Prelude.{◌≡◌, ◌<◌, ◌≤◌, ◌*◌, ℕ, All, IfOk, IfSome, length, map, option_copied, slice_get, take, unwrap_or};
ghost use Rattle.mw_text.specs.declared.address.Addr.{Addr as AddrOf};
ghost use Rattle.route_record.specs.declared.TheConstants as constants;
ghost use Rattle.net_parts.specs.Decisions.{external_count};
ghost use Rattle.plan_places.specs.Places.{item_at, places_below};
ghost use Rattle.sym_policy.specs.Records.{address_of};
ghost use Rattle.term_store.specs.Terms.{Reading, size};
ghost use Rattle.term_store.specs.Reading.{Builds, Gives, Reads};
ghost use Rattle.term_arith.specs.Bits.{ids_end, number};
ghost use Rattle.sym_rib.specs.Into.{list_end};

use mw_text::List;
use net_parts::SessionEnd;
use net_parts::ends::is_outside;
use plan_places::item_among;
use std::alloc::{AllocError, Global};
use sym_policy::SymBgp;
use term_arith::{Bits, constant, copy};
use term_store::Terms;

/// What external peers are and announce, as terms: the identifier of each, of 32 bits, by external end; and of each
/// external end at each prefix length at which slots stand an announcement that may be there, by end and then by length.
/// Of an announcement its path, metric, origin and communities are looked at.
#[derive(Drop)]
pub struct SymEnv {
    pub ids: List<Bits>,
    pub announced: List<SymBgp>,
}

// How many external ends stand before a place.
#[tactic(auto, using(crate::proofs::Environments::count_is, crate::proofs::Environments::count_small))]
pub(crate) fn external_number(ends: &[SessionEnd], at: u32) -> u32
    requires { at ≤ length ends.now }
    ensures { result ≡ external_count (take at ends.now) }
{
    let before = &ends[..at as usize];
    before.iter().filter(|end| is_outside(end)).count() as u32
}

// The announcement of the external end of that number at a length.
pub(crate) fn announcement_at<'a>(
    env: &'a SymEnv,
    lens: &[u8],
    k: u32,
    len: u8,
) -> Option<&'a SymBgp>
    requires few { length lens.now ≤ constants.LENGTHS }
    ensures { (ends : ℕ) → length env.now.announced ≡ ends * length lens.now →
        option_copied result ≡ item_at (places_below lens.now ends) env.now.announced k len }
{
    item_among(lens, env.announced.as_slice(), k, len)
}

// The item at a place.
pub(crate) fn item<T>(items: &[T], k: u32) -> Option<&T>
    ensures { option_copied result ≡ slice_get items.now k }
{
    items.get(k as usize)
}

// The identifier of that number among some.
#[tactic(auto, using(crate::proofs::Environments::ids_steps))]
fn id_of(ids: &[Bits], k: u32) -> Option<&Bits>
    requires wide { All (λ id. length id.nodes.items ≡ 32) ids.now }
    ensures place { option_copied result ≡ slice_get ids.now k }
    ensures wide { IfSome result (λ id. length id.now.nodes.items ≡ 32) }
    ensures within { IfSome result (λ id. ids_end id.now.nodes.items ≤ list_end (λ id. ids_end id.nodes.items) ids.now) }
{
    item(ids, k)
}

/// The identifier of the external peer of that number, 0 where none is given.
#[tactic(auto, using(crate::proofs::Environments::id_there, crate::proofs::Environments::id_missing))]
pub(crate) fn id_at(
    alloc: Global,
    terms: &mut Terms,
    ids: &[Bits],
    k: u32,
) -> Result<Bits, AllocError>
    requires wide { All (λ id. length id.nodes.items ≡ 32) ids.now }
    requires nodes { list_end (λ id. ids_end id.nodes.items) ids.now ≤ size terms.old }
    ensures builds { Builds terms.old terms.new }
    ensures within { IfOk result (λ r. ids_end r.nodes.items ≤ size terms.new) }
    ensures width { IfOk result (λ r. length r.nodes.items ≡ 32) }
    ensures value { Gives terms.new result (λ w r. number w r.nodes.items
        ≡ (unwrap_or (slice_get (map (address_of w) ids.now) k) (record { 0 = 0 })).0) }
{
    match id_of(ids, k) {
        None => constant(alloc, terms, 0, 32),
        Some(id) => copy(alloc, id),
    }
}
