//! The places of a plan: at which prefix lengths its slices stand, and so which slots a router has.

ghost use Rattle.std.specs.Prelude.{◌≡◌, ℕ, ◌==◌, ◌++◌, ◌*◌, ◌<◌, ◌≤◌, IfOk, IfSome, OnOk, length, map, position, slice_get, unwrap_or};
ghost use Rattle.std.specs.List.{count_by};
ghost use Rattle.std.specs.Option.{option_copied};
ghost use Rattle.route_record.specs.declared.TheConstants as constants;
ghost use Rattle.plan_places.specs.Places as standing;
ghost use Rattle.plan_places.specs.Plans as plans;

use mw_text::List;
use route_record::{LENGTHS, Plan};
use std::alloc::{AllocError, Global};

/// Where a slot stands: at a router, for a prefix length.
#[derive(Clone, Copy)]
pub struct Place {
    pub router: u32,
    pub len: u8,
}

// How many of some classes are that one.
fn count_of(classes: &[u8], class: u8) -> usize
    ensures { result ≡ count_by (λ c. c == class) classes.now }
{
    classes.iter().filter(|c| **c == class).count()
}

// How many of the shorter lengths are of that class.
fn earlier_in_class(plan: &Plan, len: u8, class: u8) -> usize
    ensures { result ≡ plans.earlier_in_class plan.now len class }
{
    let classes = plan.class.as_slice();
    let shorter = usize::from(len).min(classes.len());
    count_of(&classes[..shorter], class)
}

// How many slices a class has.
fn slices_of(plan: &Plan, class: u8) -> u8
    ensures { result ≡ unwrap_or (slice_get plan.now.slices class) 0 }
{
    match plan.slices.as_slice().get(usize::from(class)) {
        None => 0,
        Some(many) => *many,
    }
}

// Whether a slice stands at the length: fewer shorter lengths are of its class than the class has slices.
fn has_slice(plan: &Plan, len: u8) -> bool
    ensures { result ≡ plans.has_slice plan.now len }
{
    match plan.class.as_slice().get(usize::from(len)) {
        None => false,
        Some(class) => earlier_in_class(plan, len, *class) < usize::from(slices_of(plan, *class)),
    }
}

/// The lengths at which the slices of the plan stand, ascending: slice `i` of a class at the class's length `i`.
#[tactic(auto, using(crate::proofs::PlaceSteps::lens_with, crate::proofs::PlaceSteps::lens_without, crate::proofs::PlaceSteps::lens_none))]
pub fn lens_of(alloc: Global, plan: &Plan) -> Result<Vec<u8>, AllocError>
    ensures { IfOk result (λ lens. lens.items ≡ plans.lens_of plan.now) }
{
    let mut lens = Vec::new(alloc);
    for len in 0..LENGTHS as u8 {
        if has_slice(plan, len) {
            lens.push(len)?;
        }
    }
    Ok(lens)
}

// All lengths, ascending.
#[tactic(auto, using(crate::proofs::PlaceSteps::numbers_more, crate::proofs::PlaceSteps::numbers_none))]
fn all_lengths(alloc: Global) -> Result<List<u8>, AllocError>
    ensures { IfOk result (λ all. all ≡ plans.numbers_below constants.LENGTHS) }
{
    let mut all = List::new(alloc);
    for len in 0..LENGTHS as u8 {
        all.items.push(len)?;
    }
    Ok(all)
}

/// The plan in which each prefix length is a class of its own, with one slice.
#[tactic(auto, unfolding(crate::specs::Plans::single_plan))]
pub fn single_plan(alloc: Global) -> Result<Plan, AllocError>
    ensures { IfOk result (λ plan. plan ≡ plans.single_plan) }
{
    let class = all_lengths(alloc)?;
    let slices = vec![in alloc; 1u8; LENGTHS]?;
    Ok(Plan {
        class,
        slices: List { items: slices },
    })
}

// Puts the places of a router at the end.
fn add_places(places: &mut List<Place>, router: u32, lens: &[u8]) -> Result<(), AllocError>
    ensures { OnOk result (places.new ≡ places.old ++ map (standing.place router) lens.now) }
{
    for len in lens {
        places.items.push(Place { router, len: *len })?;
    }
    Ok(())
}

/// The places of so many routers: each has one at each length at which a slice of the plan stands. They come by router,
/// and then by length.
#[tactic(auto, using(crate::proofs::PlaceSteps::places_more, crate::proofs::PlaceSteps::places_none))]
pub fn places_of(alloc: Global, plan: &Plan, routers: u32) -> Result<List<Place>, AllocError>
    ensures { IfOk result (λ all. all ≡ standing.places_of plan.now routers) }
{
    let lens = lens_of(alloc, plan)?;
    let mut all = List::new(alloc);
    for router in 0..routers {
        add_places(&mut all, router, lens.as_slice())?;
    }
    Ok(all)
}

fn is_at(p: &Place, router: u32, len: u8) -> bool
    ensures { result ≡ standing.is_at router len p.now }
{
    p.router == router && p.len == len
}

/// Where the place of that router and length stands among some places. None exactly where it is none of them.
pub fn find_place(places: &[Place], router: u32, len: u8) -> Option<usize>
    ensures place { result ≡ position (standing.is_at router len) places.now }
    ensures within { IfSome result (λ at. at < length places.now) }
{
    places.iter().position(|p| is_at(p, router, len))
}

fn item<T>(items: &[T], at: usize) -> Option<&T>
    ensures { option_copied result ≡ slice_get items.now at }
{
    items.get(at)
}

/// Of things that stand at places, one at each, the one at the place of that router and length. None where that is none
/// of the places.
#[tactic(auto, using(crate::proofs::PlaceSteps::item_found, crate::proofs::PlaceSteps::item_none))]
pub fn item_at<'a, T>(places: &[Place], items: &'a [T], router: u32, len: u8) -> Option<&'a T>
    ensures { option_copied result ≡ standing.item_at places.now items.now router len }
{
    match find_place(places, router, len) {
        None => None,
        Some(at) => item(items, at),
    }
}

// Where a length stands among some.
fn find_length(lens: &[u8], len: u8) -> Option<usize>
    ensures place { result ≡ position (λ l. l == len) lens.now }
    ensures within { IfSome result (λ at. at < length lens.now) }
{
    lens.iter().position(|l| *l == len)
}

/// Of things that stand at the places of some routers, one at each, the one of that router and length, where each router
/// has a place at each of these lengths. None where there is no such place.
#[tactic(auto, using(crate::proofs::PlaceSteps::among_found, crate::proofs::PlaceSteps::among_none, crate::proofs::PlaceSteps::no_overflow))]
pub fn item_among<'a, T>(lens: &[u8], items: &'a [T], router: u32, len: u8) -> Option<&'a T>
    requires few { length lens.now ≤ constants.LENGTHS }
    ensures { (routers : ℕ) → length items.now ≡ routers * length lens.now →
        option_copied result ≡ standing.item_at (standing.places_below lens.now routers) items.now router len }
{
    match find_length(lens, len) {
        None => None,
        Some(at) => item(items, router as usize * lens.len() + at),
    }
}
