//! The whole story of a counterexample.

ghost use Rattle.std.specs.Prelude.{◌≡◌, ◌++◌, IfOk, map};
ghost use Rattle.std.specs.List.{flat_map};
ghost use Rattle.cex_json.specs.Parts as parts;
ghost use Rattle.cex_story.specs.Pages.{Adds};
ghost use Rattle.cex_story.specs.Stories as stories;

use crate::asked::put_wanted;
use crate::ended::{end_words, put_end};
use crate::outside::put_announcements;
use crate::page::Page;
use crate::places::{iface_name, router_name};
use crate::scenes::Scene;
use crate::steps::step_text;
use crate::surroundings::{put_failures, put_packet};
use ios_ast::File;
use mw_text::List;
use net_model::IfaceId;
use question_lang::{Start, Walk};
use std::alloc::{AllocError, Global};

/// A standing of the walk, and what is said of it beside the router and the interface.
#[derive(Drop)]
pub struct Said {
    pub standing: Start,
    pub text: List<u8>,
}

/// What is said before the walk.
fn front_text(alloc: Global, scene: &Scene<'_>) -> Result<List<u8>, AllocError> {
    let mut page = Page::new(alloc);
    page.put(&[b"broken ", scene.question.name.as_slice(), b"\n"]);
    put_wanted(&mut page, scene);
    put_packet(&mut page, scene);
    put_failures(&mut page, scene);
    put_announcements(&mut page, scene);
    page.done()
}

/// What is said of a standing.
fn said_of(
    alloc: Global,
    scene: &Scene<'_>,
    walk: &Walk,
    at: usize,
    now: &Start,
) -> Result<Said, AllocError>
    ensures { IfOk result (λ said. said.standing ≡ now.now) }
{
    let mut page = Page::new(alloc);
    step_text(
        &mut page,
        scene,
        now,
        walk.hops.as_slice().get(at.saturating_add(1)),
        &walk.end,
    )?;
    Ok(Said {
        standing: *now,
        text: page.done()?,
    })
}

/// What is said of all standings.
fn all_said(alloc: Global, scene: &Scene<'_>, walk: &Walk) -> Result<List<Said>, AllocError>
    ensures { IfOk result (λ saids. map (λ said. said.standing) saids ≡ walk.now.hops) }
{
    let hops = walk.hops.as_slice();
    let mut saids = List::new(alloc);
    for at in 0..hops.len() {
        saids
            .items
            .push(said_of(alloc, scene, walk, at, &hops[at])?)?;
    }
    Ok(saids)
}

/// The words before the interface by which the packet came in.
fn in_words(standing: &Start) -> &[u8]
    ensures { result.now ≡ stories.in_words standing.now.iface }
{
    match standing.iface {
        None => b"",
        Some(_) => b", in by ",
    }
}

/// The name of that interface, empty where there is none.
fn in_name<'a>(files: &'a [File], standing: &'a Start) -> &'a [u8]
    ensures { result.now ≡ stories.in_name files.entry.now standing.now }
{
    match standing.iface {
        None => b"",
        Some(at) => iface_name(
            files,
            IfaceId {
                router: standing.router,
                at,
            },
        ),
    }
}

/// Puts a standing with what is said of it.
fn put_said<'x>(page: &mut Page, files: &'x [File], said: &'x Said)
    ensures { Adds page.old page.new (stories.said_text files.now said.now) }
{
    page.put(&[
        b"  at ",
        router_name(files, said.standing.router),
        in_words(&said.standing),
        in_name(files, &said.standing),
        b"\n",
        said.text.as_slice(),
    ])
}

/// Puts all standings.
#[tactic(auto, using(crate::proofs::Adding::adds_none, crate::proofs::Adding::adds_more, crate::proofs::Adding::adds_all))]
fn put_all_said(page: &mut Page, files: &[File], saids: &[Said])
    ensures { Adds page.old page.new (flat_map (stories.said_text files.now) saids.now) }
{
    for said in saids {
        put_said(page, files, said);
    }
}

/// The router at which the walk stood last.
fn last_router(walk: &Walk) -> Option<u32> {
    match walk.hops.as_slice().last() {
        None => None,
        Some(standing) => Some(standing.router),
    }
}

/// What is said after the words for the end.
fn back_text(alloc: Global, scene: &Scene<'_>, walk: &Walk) -> Result<List<u8>, AllocError> {
    let mut page = Page::new(alloc);
    put_end(&mut page, scene, last_router(walk), &walk.end);
    page.done()
}

/// The text of a walk between what is said before and after it.
#[tactic(auto, using(crate::proofs::Adding::told))]
fn walk_text(
    alloc: Global,
    files: &[File],
    walk: &Walk,
    front: &[u8],
    saids: &[Said],
    back: &[u8],
) -> Result<List<u8>, AllocError>
    requires saids { map (λ said. said.standing) saids.now ≡ walk.now.hops }
    ensures { IfOk result (λ text. stories.TellsWalk files.now text walk.now) }
{
    let mut page = Page::new(alloc);
    page.bytes(front);
    put_all_said(&mut page, files, saids);
    page.bytes(b"  end: ");
    page.bytes(end_words(&walk.end));
    page.bytes(back);
    page.done()
}

/// The story of a counterexample with this walk.
fn walk_story(
    alloc: Global,
    scene: &Scene<'_>,
    walk: &Walk,
    front: &[u8],
) -> Result<List<u8>, AllocError>
    ensures { IfOk result (λ text. stories.TellsWalk scene.now.net.now.files text walk.now) }
{
    let saids = all_said(alloc, scene, walk)?;
    let back = back_text(alloc, scene, walk)?;
    walk_text(
        alloc,
        scene.net.routers(),
        walk,
        front,
        saids.as_slice(),
        back.as_slice(),
    )
}

/// The story of a counterexample: lines for a person. It has the question's name and what that wants, the packet, the
/// failed links and what external peers announce; then each standing of the walk, with the entry that sends the packet on,
/// the lines of the files behind it and the interface by which it goes out; and the end. The one error is want of memory.
pub fn story(alloc: Global, scene: &Scene<'_>) -> Result<List<u8>, AllocError>
    ensures { IfOk result (stories.IsStory scene.now.net.now.files scene.now.cex.now.walk) }
{
    let front = front_text(alloc, scene)?;
    match &scene.cex.walk {
        None => Ok(front),
        Some(walk) => walk_story(alloc, scene, walk, front.as_slice()),
    }
}
