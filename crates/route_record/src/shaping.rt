//! The shape of a BGP route: all that policies and the decision process can tell of its lists.

ghost use Rattle.std.specs.Prelude.{◌≡◌, ℕ, ◌+◌, ◌*◌, ◌≤◌, ◌<◌, ◌^◌, Bool, if◌then◌else◌, List, length, map};
ghost use Rattle.std.specs.List.{list_any};
ghost use Rattle.route_record.specs.Shape.{marked_number, saturated, shape_of, first_of, last_of, AlikeOf};

use crate::BgpRec;
use crate::tracked::{MOST_TRACKED, Shape, Tracked};

/// A set with one more position in front.
fn with_mark(set: u128, there: bool) -> u128
    requires { set < 2 ^ 127 }
    ensures { result ≡ (if there then 1 else 0) + 2 * set }
{
    2 * set + u128::from(there)
}

/// The set of the tracked values that stand in a list.
fn marks<T: PartialEq>(tracked: &[T], held: &[T]) -> u128
    requires { length tracked.now ≤ MOST_TRACKED }
    ensures { result ≡ marked_number (map (λ x. list_any (λ y. T.eq y x) held.now) tracked.now) }
{
    let mut set = 0u128;
    for i in (0..tracked.len()).rev() {
        let there = held.contains(&tracked[i]);
        set = with_mark(set, there);
    }
    set
}

/// The first number of a path, 0 where it is empty.
fn first_number(path: &[u32]) -> u32
    ensures { result ≡ first_of path.now }
{
    path.first().copied().unwrap_or(0)
}

/// The last number of a path, 0 where it is empty.
fn last_number(path: &[u32]) -> u32
    ensures { result ≡ last_of path.now }
{
    path.last().copied().unwrap_or(0)
}

/// A length in 32 bits; the greatest number of these where it does not fit.
#[tactic(auto, unfolding(crate::specs::Shape::saturated))]
pub fn saturated_length(len: usize) -> u32
    ensures { result ≡ saturated len }
{
    if len < u32::MAX as usize {
        len as u32
    } else {
        u32::MAX
    }
}

/// The shape of a record's lists. A length that has no 32 bits stands as the greatest number that has.
pub fn shape(rec: &BgpRec, tracked: &Tracked) -> Shape
    requires communities { length tracked.now.communities ≤ MOST_TRACKED }
    requires numbers { length tracked.now.numbers ≤ MOST_TRACKED }
    requires clusters { length tracked.now.clusters ≤ MOST_TRACKED }
    ensures value { result ≡ shape_of tracked.now rec.now }

    // Records that differ in untracked communities alone have one shape.
    ensures untracked { (other : BgpRec) → AlikeOf tracked.now rec.now other → result ≡ shape_of tracked.now other }
{
    let path = rec.path.as_slice();
    Shape {
        len: saturated_length(path.len()),
        first: first_number(path),
        last: last_number(path),
        numbers: marks(tracked.numbers.as_slice(), path),
        communities: marks(tracked.communities.as_slice(), rec.communities.as_slice()),
        cluster_len: saturated_length(rec.clusters.as_slice().len()),
        clusters: marks(tracked.clusters.as_slice(), rec.clusters.as_slice()),
    }
}
