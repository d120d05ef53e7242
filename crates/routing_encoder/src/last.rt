//! Which links' variables become nodes after those of a question's packet, so that a search that decides by order comes to
//! them last: of most questions those at the routers where its packets begin.

ghost use Rattle.std.specs.Prelude.{◌≡◌, ◌++◌, ◌∷◌, [], IfOk, OnOk, length};
ghost use Rattle.net_parts.specs.World.{links_of};

use mw_text::List;
use net_model::{Link, Net};
use question_lang::{Kind, Question};
use std::alloc::{AllocError, Global};

// Whether packets of a question of the kind begin at the router.
fn begins_at(kind: &Kind, router: u32) -> bool {
    match kind {
        Kind::Reach(start, _) => start.router == router,
        Kind::Isolate(start, _) => start.router == router,
        Kind::Waypoint(start, _, _) => start.router == router,
        Kind::NoLoop(start) => start.router == router,
        Kind::NoBlackHole(start) => start.router == router,
        Kind::Within(_, start) => start.router == router,
        Kind::Alike(one, other, _) => *one == router || *other == router,
        Kind::NoStable => false,
    }
}

// Whether the link is at such a router.
fn is_near(kind: &Kind, link: &Link) -> bool {
    link.ifaces
        .items
        .iter()
        .any(|iface| begins_at(kind, iface.router))
}

// Whether all links come last: where two routers are to do alike with packets while any one link has failed. Such questions
// mostly hold, and then fewer clauses are learnt with the packet decided before all links.
fn are_all_last(question: &Question) -> bool {
    match &question.kind {
        Kind::Alike(_, _, _) => question.failures < 2,
        _ => false,
    }
}

// Puts whether one more link comes last at the end.
fn put_last(made: &mut List<bool>, last: bool) -> Result<(), AllocError>
    ensures { OnOk result (made.new ≡ made.old ++ last ∷ []) }
{
    made.items.push(last)?;
    Ok(())
}

/// For each link, whether its variable comes after those of the packet.
#[tactic(auto, using(failed_links::proofs::Steps::row_steps))]
pub fn last_links(alloc: Global, net: &Net, question: &Question) -> Result<List<bool>, AllocError>
    ensures { IfOk result (λ r. length r ≡ length (links_of net.now.files)) }
{
    let links = net.links();
    let mut last = List::new(alloc);
    for i in 0..links.len() {
        let here = are_all_last(question) || is_near(&question.kind, &links[i]);
        put_last(&mut last, here)?;
    }
    Ok(last)
}
