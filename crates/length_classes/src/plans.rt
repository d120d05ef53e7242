//! The coarsest plan of a network.

ghost use Rattle.std.specs.Prelude.{◌≡◌, ◌==◌, ◌+◌, ◌<◌, ◌≤◌, IfOk, if◌then◌else◌, length, slice_get, unwrap_or};
ghost use Rattle.std.specs.List.{count_by};
ghost use Rattle.route_record.specs.declared.TheConstants as constants;
ghost use Rattle.length_classes.specs.Lists as lists;
ghost use Rattle.sliced_routings.specs.Plans.{IsCoarsestPlan};

use crate::cuts::is_cut;
use mw_text::List;
use net_model::Net;
use question_lang::Question;
use route_record::{LENGTHS, Plan};
use std::alloc::{AllocError, Global};

// The class of the next length.
fn next_class(class: u8, cut: bool) -> u8
    requires { class < 255 }
    ensures { result ≡ class + (if cut then 1 else 0) }
{
    if cut { class + 1 } else { class }
}

// The class of each length: how many cuts there are up to it.
#[tactic(auto, using(crate::proofs::PlanSteps::cuts_more, crate::proofs::PlanSteps::classes_more, crate::proofs::PlanSteps::no_classes, crate::proofs::PlanSteps::no_cuts))]
fn classes_of(alloc: Global, net: &Net) -> Result<List<u8>, AllocError>
    ensures { IfOk result (λ all. all ≡ lists.classes_below net.now.files constants.LENGTHS) }
{
    let mut all = List::new(alloc);
    let mut class: u8 = 0;
    for len in 0..LENGTHS as u8 {
        all.items.push(class)?;
        class = next_class(class, is_cut(net, len + 1));
    }
    Ok(all)
}

// How many lengths are of that class.
fn size_of(classes: &[u8], class: u8) -> usize
    ensures { result ≡ count_by (λ c. c == class) classes.now }
{
    classes.iter().filter(|c| **c == class).count()
}

// The slices of a class: as many as it has lengths, and no more than there are routers.
#[tactic(auto, using(crate::proofs::PlanSteps::few_slices))]
fn slices_in(classes: &[u8], class: u8, routers: usize) -> u8
    requires few { length classes.now ≤ constants.LENGTHS }
    ensures { result ≡ lists.slices_in classes.now routers class }
{
    size_of(classes, class).min(routers) as u8
}

// Those of all classes, of which that one is the last.
#[tactic(auto, using(crate::proofs::PlanSteps::slices_more, crate::proofs::PlanSteps::no_slices))]
fn slices_of(
    alloc: Global,
    classes: &[u8],
    last: u8,
    routers: usize,
) -> Result<List<u8>, AllocError>
    requires few { length classes.now ≤ constants.LENGTHS }
    requires last { last < 255 }
    ensures { IfOk result (λ all. all ≡ lists.slices_below classes.now routers (last + 1)) }
{
    let mut all = List::new(alloc);
    for class in 0..last + 1 {
        all.items.push(slices_in(classes, class, routers))?;
    }
    Ok(all)
}

// The class of a length.
fn class_at(classes: &[u8], len: usize) -> u8
    ensures { result ≡ unwrap_or (slice_get classes.now len) 0 }
{
    match classes.get(len) {
        None => 0,
        Some(class) => *class,
    }
}

/// The coarsest plan that fits the network: a class begins at length 0 and at each cut, and has as many slices as it
/// has lengths, but no more than there are routers. It is the same for every question. Err is want of memory.
#[tactic(auto, using(crate::proofs::PlanSteps::coarsest_of, crate::proofs::PlanSteps::few_classes, crate::proofs::PlanSteps::low_last))]
pub fn plan_of(alloc: Global, net: &Net, _question: &Question) -> Result<Plan, AllocError>
    ensures { IfOk result (IsCoarsestPlan net.now.files) }
{
    let class = classes_of(alloc, net)?;
    let last = class_at(class.as_slice(), LENGTHS - 1);
    let slices = slices_of(alloc, class.as_slice(), last, net.routers().len())?;
    Ok(Plan { class, slices })
}
