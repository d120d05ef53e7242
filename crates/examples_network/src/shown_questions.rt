//! Questions as text.

use crate::page::Page;
use mw_text::Prefix;
use question_lang::{Kind, PacketSet, Question, Start, Target};

fn show_start(out: &mut Page, start: Start) {
    out.number(" ", start.router);
    out.number_if(" in ", start.iface)
}

fn show_target(out: &mut Page, target: Target) {
    match target {
        Target::Router(router) => out.number(" to router ", router),
        Target::Subnet(prefix) => out.prefix(" to subnet ", prefix),
        Target::Peer { router, addr } => {
            out.number(" to peer ", router);
            out.address(" ", addr)
        }
    }
}

fn show_ends(out: &mut Page, kind: &str, start: Start, target: Target) {
    out.put(kind);
    show_start(out, start);
    show_target(out, target)
}

fn show_from(out: &mut Page, kind: &str, start: Start) {
    out.put(kind);
    show_start(out, start)
}

fn show_waypoint(out: &mut Page, start: Start, target: Target, via: u32) {
    show_ends(out, " waypoint", start, target);
    out.number(" via ", via)
}

fn show_within(out: &mut Page, most: u32, start: Start) {
    out.number(" within ", most);
    show_start(out, start)
}

fn show_alike(out: &mut Page, one: u32, other: u32, target: Target) {
    out.number(" alike ", one);
    out.number(" ", other);
    show_target(out, target)
}

fn show_kind(out: &mut Page, kind: Kind) {
    match kind {
        Kind::Reach(start, target) => show_ends(out, " reach", start, target),
        Kind::Isolate(start, target) => show_ends(out, " isolate", start, target),
        Kind::Waypoint(start, target, via) => show_waypoint(out, start, target, via),
        Kind::NoLoop(start) => show_from(out, " noloop", start),
        Kind::NoBlackHole(start) => show_from(out, " noblackhole", start),
        Kind::Within(most, start) => show_within(out, most, start),
        Kind::Alike(one, other, target) => show_alike(out, one, other, target),
        Kind::NoStable => out.put(" nostable"),
    }
}

/// The addresses and ports of one side of a packet.
fn show_side(out: &mut Page, addresses: Prefix, ports: (u16, u16)) {
    out.prefix(" ", addresses);
    out.number(" ", u32::from(ports.0));
    out.number("-", u32::from(ports.1))
}

fn show_packets(out: &mut Page, set: PacketSet) {
    match set.proto {
        None => out.put("; ip"),
        Some(number) => out.number("; ", u32::from(number)),
    }
    show_side(out, set.src, set.sport);
    show_side(out, set.dst, set.dport)
}

fn show_question(out: &mut Page, question: &Question) {
    show_kind(out, question.kind);
    show_packets(out, question.packets);
    out.number("; ", question.failures)
}

/// Each question behind a space, its name first.
pub fn show_questions(out: &mut Page, questions: &[Question]) {
    for question in questions {
        out.bytes(" ", question.name.as_slice());
        show_question(out, question);
    }
}
