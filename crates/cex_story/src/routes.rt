//! The parts of BGP routes.

use crate::page::Page;
use mw_text::List;
use route_record::Origin;

/// The name of an origin (RFC 4271, section 5.1.1).
fn origin_text(origin: Origin) -> &'static [u8] {
    match origin {
        Origin::Igp => b"igp",
        Origin::Egp => b"egp",
        Origin::Incomplete => b"incomplete",
    }
}

/// A number of a path, and how often it stands there in a row.
#[derive(Clone, Copy)]
struct Repeated {
    number: u32,
    times: u32,
}

/// Puts a number, and how often it stands in a row.
fn put_repeated(page: &mut Page, repeated: Repeated) {
    page.counted(b" ", repeated.number);
    if repeated.times > 1 {
        page.counted(b" (", repeated.times);
        page.bytes(b" times)");
    }
}

/// Puts the number before, where another one follows it, and keeps that.
fn follow(page: &mut Page, before: Option<Repeated>, number: u32) -> Repeated {
    let Some(repeated) = before else {
        return Repeated { number, times: 1 };
    };
    if repeated.number == number {
        return Repeated {
            number,
            times: repeated.times.saturating_add(1),
        };
    }
    put_repeated(page, repeated);
    Repeated { number, times: 1 }
}

/// Puts a path.
fn put_path(page: &mut Page, path: &[u32]) {
    let mut before: Option<Repeated> = None;
    for number in path {
        before = Some(follow(page, before, *number));
    }
    match before {
        None => page.bytes(b" empty"),
        Some(repeated) => put_repeated(page, repeated),
    }
}

/// Puts communities, each as its two halves (RFC 1997).
fn put_communities(page: &mut Page, communities: &[u32]) {
    if !communities.is_empty() {
        page.bytes(b", communities");
    }
    for value in communities {
        page.counted(b" ", *value / 0x1_0000);
        page.counted(b":", *value % 0x1_0000);
    }
}

/// Puts what every BGP route has.
pub fn put_attributes(
    page: &mut Page,
    path: &List<u32>,
    med: u32,
    origin: Origin,
    communities: &List<u32>,
) {
    page.bytes(b"path");
    put_path(page, path.as_slice());
    page.counted(b", MED ", med);
    page.put(&[b", origin ", origin_text(origin)]);
    put_communities(page, communities.as_slice())
}
