//! Marks that values of variables say, as a set of positions.

ghost use Rattle.std.specs.Prelude.{◌≡◌, ◌+◌, ◌*◌, ◌^◌, ◌<◌, ◌≤◌, ◌&&◌, if◌then◌else◌, length};
ghost use Rattle.term_store.specs.Terms.{truth};
ghost use Rattle.route_record.specs.Shape.{marked_number};
ghost use Rattle.announced_shapes.specs.Sets.{marks_of};
ghost use Rattle.bgp_variables.specs.Marks.{mark_width, marks_from, marks_width};

use failed_links::value_at;
use route_record::MOST_TRACKED;

// A set with one more position in front.
fn with_mark(set: u128, there: bool) -> u128
    requires { set < 2 ^ 127 }
    ensures { result ≡ (if there then 1 else 0) + 2 * set }
{
    2 * set + u128::from(there)
}

// How many variables a mark has.
fn mark_size(may: bool) -> usize
    ensures { result ≡ mark_width may }
{
    usize::from(may)
}

// One mark: it is not set where it cannot be.
fn mark_at(values: &[bool], from: usize, may: bool) -> bool
    requires { from + mark_width may ≤ length values.now }
    ensures { result ≡ (may && truth values.now from) }
{
    may && value_at(values, from)
}

/// How many variables a row of marks has.
#[tactic(auto, using(crate::proofs::MarkSteps::width_on, crate::proofs::MarkSteps::width_end))]
pub fn marks_size(mays: &[bool]) -> usize
    requires { length mays.now ≤ MOST_TRACKED }
    ensures value { result ≡ marks_width mays.now }
    ensures few { result ≤ MOST_TRACKED }
{
    let mut size = 0usize;
    for may in mays {
        size += mark_size(*may);
    }
    size
}

/// The set of the marks that values say, where these can be set.
#[tactic(auto, using(crate::proofs::MarkSteps::width_before, crate::proofs::MarkSteps::width_part, crate::proofs::MarkSteps::room_for_more))]
pub fn marks_at(values: &[bool], from: usize, mays: &[bool]) -> u128
    requires few { length mays.now ≤ MOST_TRACKED }
    requires within { from + marks_width mays.now ≤ length values.now }
    ensures { result ≡ marked_number (marks_from mays.now (truth values.now) from) }
{
    let mut set = 0u128;
    let mut end = from + marks_size(mays);
    for i in (0..mays.len()).rev() {
        let may = mays[i];
        end -= mark_size(may);
        set = with_mark(set, mark_at(values, end, may));
    }
    set
}
