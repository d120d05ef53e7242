//! The first fate that one of two lists alone has.

ghost use Rattle.std.specs.Prelude.{◌≡◌, ◌<◌, AllPairs, Contains, IfNone, IfSome, None, Some, true, false, length};
ghost use Rattle.std.specs.Prelude.{slice_get};
ghost use Rattle.packet_fates.specs.Order.{Precedes};
ghost use Rattle.packet_fates.specs.declared.fate.Fate.{Fate as FateOf};
ghost use Rattle.packet_fates.specs.Sides as sides;
ghost use Rattle.packet_fates.specs.Places as places;

use crate::fate::{Fate, order_of};
use mw_text::List;

/// One of two networks.
#[derive(Clone, Copy)]
pub enum Side {
    Left,
    Right,
}

/// A fate that packets have on one side alone.
#[derive(Drop)]
pub struct Apart {
    pub side: Side,
    pub fate: Fate,
}

// The place of a fate in the list of a side.
#[derive(Clone, Copy)]
struct Place {
    side: Side,
    at: usize,
}

fn is_same(a: &Fate, b: &Fate) -> bool
    ensures { result ≡ places.is_same a.now b.now }
{
    order_of(a, b).is_eq()
}

// Whether the fate stands in the list.
#[tactic(auto, using(crate::proofs::Firsts::same_there, crate::proofs::Firsts::none_there))]
fn has_fate(all: &[Fate], fate: &Fate) -> bool
    ensures yes { result ≡ true → Contains all.now fate.now }
    ensures no { result ≡ false → Contains all.now fate.now → ⊥ }
{
    for other in all {
        if is_same(fate, other) {
            return true;
        }
    }
    false
}

// The place of the first fate that the others do not have.
fn first_alone(own: &[Fate], others: &[Fate]) -> Option<usize>
    ensures some { IfSome result (places.IsFirstAlone own.now others.now) }
    ensures none { IfNone result ((fate : FateOf) → Contains own.now fate → Contains others.now fate) }
{
    for (at, fate) in own.iter().enumerate() {
        if !has_fate(others, fate) {
            return Some(at);
        }
    }
    None
}

// Of two places the one whose fate comes first.
fn earlier_of(left: &[Fate], right: &[Fate], one: usize, other: usize) -> Place
    requires one { one < length left.now }
    requires other { other < length right.now }
    ensures { places.IsEarlier left.now right.now one other result }
{
    if order_of(&left[one], &right[other]).is_lt() {
        return Place {
            side: Side::Left,
            at: one,
        };
    }
    Place {
        side: Side::Right,
        at: other,
    }
}

// The place of the first fate that one of the lists alone has.
#[tactic(auto, using(crate::proofs::Firsts::alone_left, crate::proofs::Firsts::alone_right, crate::proofs::Firsts::earlier_apart, crate::proofs::Firsts::both_same))]
fn place_apart(left: &[Fate], right: &[Fate]) -> Option<Place>
    requires left { AllPairs Precedes left.now }
    requires right { AllPairs Precedes right.now }
    ensures some { IfSome result (places.IsPlaceApart left.now right.now) }
    ensures none { IfNone result (sides.AreSame (Contains left.now) (Contains right.now)) }
{
    match (first_alone(left, right), first_alone(right, left)) {
        (None, None) => None,
        (Some(one), None) => Some(Place {
            side: Side::Left,
            at: one,
        }),
        (None, Some(other)) => Some(Place {
            side: Side::Right,
            at: other,
        }),
        (Some(one), Some(other)) => Some(earlier_of(left, right, one, other)),
    }
}

// The fate at the place.
fn take(list: List<Fate>, at: usize) -> Fate
    requires { at < length list }
    ensures { slice_get list at ≡ Some result }
{
    let mut list = list;
    list.items.swap_remove(at)
}

#[tactic(auto, using(crate::proofs::Firsts::taken_left, crate::proofs::Firsts::taken_right))]
fn take_at(left: List<Fate>, right: List<Fate>, place: Place) -> Apart
    requires { places.IsPlaceApart left right place }
    ensures { sides.IsFirstApart (Contains left) (Contains right) result.side result.fate }
{
    match place.side {
        Side::Left => Apart {
            side: place.side,
            fate: take(left, place.at),
        },
        Side::Right => Apart {
            side: place.side,
            fate: take(right, place.at),
        },
    }
}

/// The first fate, in their order, that one of two ordered lists alone has. None where both have the same.
pub fn first_apart(left: List<Fate>, right: List<Fate>) -> Option<Apart>
    requires left { AllPairs Precedes left }
    requires right { AllPairs Precedes right }
    ensures some { IfSome result (λ a. sides.IsFirstApart (Contains left) (Contains right) a.side a.fate) }
    ensures none { result ≡ None → sides.AreSame (Contains left) (Contains right) }
{
    match place_apart(left.as_slice(), right.as_slice()) {
        None => None,
        Some(place) => Some(take_at(left, right, place)),
    }
}
