//! Which line names a router or a value too many.

ghost use Rattle.std.specs.Prelude.{◌≡◌, IfOk, filter, nat_le};
ghost use Rattle.net_refusals.specs.Refusals as refusals;
ghost use Rattle.net_interfaces.specs.Values as tracked;

use crate::lines::{earlier, line_if};
use ios_ast::File;
use mw_text::List;
use net_interfaces::MOST_FILES;
use net_interfaces::values::{
    MOST_COMMUNITIES, Said, add_communities, add_numbers, copy_of, put_said, tracked_communities,
    tracked_numbers,
};
use route_record::MOST_TRACKED;
use std::alloc::{AllocError, Global};

fn up_to(alloc: Global, said: &[Said], line: u32) -> Result<Vec<Said>, AllocError>
    ensures { IfOk result (λ some. some.items ≡ filter (λ y. nat_le y.line line) said.now) }
{
    said.iter()
        .copied()
        .filter(|y| y.line <= line)
        .collect(alloc)
}

fn too_many_at(
    alloc: Global,
    most: usize,
    known: &[u32],
    said: &[Said],
    x: &Said,
) -> Result<Option<u32>, AllocError>
    ensures { IfOk result (λ line. line ≡ refusals.too_many_at most known.now said.now x.now) }
{
    let some = up_to(alloc, said, x.line)?;
    let mut all = copy_of(alloc, known)?;
    put_said(&mut all, some.as_slice())?;
    Ok(line_if(most < all.as_slice().len(), x.line))
}

fn too_many_line(
    alloc: Global,
    most: usize,
    known: &[u32],
    said: &[Said],
) -> Result<Option<u32>, AllocError>
    ensures { IfOk result (λ line. line ≡ refusals.too_many_line most known.now said.now) }
{
    let mut first = None;
    for x in said {
        first = earlier(first, too_many_at(alloc, most, known, said, x)?);
    }
    Ok(first)
}

fn community_limit(alloc: Global, before: &[File], file: &File) -> Result<Option<u32>, AllocError>
    ensures { IfOk result (λ line. line ≡ refusals.too_many_line MOST_COMMUNITIES (tracked.tracked_communities before.now) (tracked.said_communities file.now)) }
{
    let known = tracked_communities(alloc, before)?;
    let mut said = List::new(alloc);
    add_communities(&mut said, file)?;
    too_many_line(alloc, MOST_COMMUNITIES, known.as_slice(), said.as_slice())
}

fn number_limit(alloc: Global, before: &[File], file: &File) -> Result<Option<u32>, AllocError>
    ensures { IfOk result (λ line. line ≡ refusals.too_many_line MOST_TRACKED (tracked.tracked_numbers before.now) (tracked.said_numbers file.now)) }
{
    let known = tracked_numbers(alloc, before)?;
    let mut said = List::new(alloc);
    add_numbers(&mut said, file)?;
    too_many_line(alloc, MOST_TRACKED, known.as_slice(), said.as_slice())
}

fn router_line(before: &[File], file: &File) -> Option<u32>
    ensures { result ≡ refusals.router_line before.now file.now }
{
    line_if(MOST_FILES <= before.len(), file.hostname_line)
}

/// The first line by which there are too many routers, tracked communities or tracked AS numbers.
pub fn limit_line(alloc: Global, before: &[File], file: &File) -> Result<Option<u32>, AllocError>
    ensures { IfOk result (λ line. line ≡ refusals.limit_line before.now file.now) }
{
    let communities = community_limit(alloc, before, file)?;
    let numbers = number_limit(alloc, before, file)?;
    Ok(earlier(earlier(router_line(before, file), communities), numbers))
}
