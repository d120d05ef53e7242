//! What a line orders.

ghost use Rattle.std.specs.Prelude.{◌≡◌, ◌≢◌, ◌-◌, ◌<◌, ◌^◌, IfErr, IfOk, Ok, Err, length, option_map};
ghost use Rattle.event_lines.specs.Orders as orders;

use crate::heads::{Form, find_head};
use crate::named::{adjacency_said, end_said, link_said, peer_said};
use crate::said::read_words;
use async_machine::Event;
use ios_policy_reader::said::{address_said_under, is_said, number_said};
use ios_policy_reader::values::numbers_said;
use ios_policy_reader::{Cause, Said, Tag};
use mw_text::{Addr, List};
use net_model::Net;
use question_lang::named::router_said;
use route_record::{Announcement, Origin};
use std::alloc::{AllocError, Global};

/// What a line orders: the destination; the identifier of an external peer, by its end; an event; or that the event
/// which comes next is taken, again and again, so many times. None where the line names what is not there.
#[derive(Drop)]
pub enum Order {
    Destination(Addr),
    Identify(Option<u32>, Addr),
    Take(Option<Event>),
    Run(u32),
}

fn origin_of(code: u32) -> Origin
    ensures { result ≡ orders.origin_of_code code }
{
    match code {
        0 => Origin::Igp,
        1 => Origin::Egp,
        _ => Origin::Incomplete,
    }
}

fn len_said(said: &[Said]) -> u8
    ensures { result ≡ orders.len_said said.now }
{
    number_said(Tag::Number, said, 0).min(32) as u8
}

fn announcement_said(alloc: Global, end: u32, said: &[Said]) -> Result<Announcement, AllocError>
    ensures { IfOk result (λ a. a ≡ orders.announcement_said end said.now) }
{
    let path = numbers_said(alloc, Tag::Remote, said)?;
    let communities = numbers_said(alloc, Tag::Community, said)?;
    Ok(Announcement {
        end,
        len: len_said(said),
        path,
        med: number_said(Tag::Metric, said, 0),
        origin: origin_of(number_said(Tag::Origin, said, 0)),
        communities,
    })
}

fn announced_said(
    alloc: Global,
    end: u32,
    said: &[Said],
) -> Result<Option<Announcement>, AllocError>
    ensures { IfOk result (λ what. what ≡ orders.announced_said end said.now) }
{
    if !is_said(Tag::Remote, said) {
        return Ok(None);
    }
    Ok(Some(announcement_said(alloc, end, said)?))
}

fn announce_said(
    alloc: Global,
    net: &Net,
    words: &[List<u8>],
    said: &[Said],
) -> Result<Option<Event>, AllocError>
    ensures { IfOk result (λ event. event ≡ option_map
        (λ end. Event.Announce end (orders.len_said said.now) (orders.announced_said end said.now))
        (orders.end_said net.now.files words.now said.now)) }
{
    let Some(end) = end_said(net, words, said) else {
        return Ok(None);
    };
    Ok(Some(Event::Announce {
        end,
        len: len_said(said),
        what: announced_said(alloc, end, said)?,
    }))
}

fn bgp_said(net: &Net, words: &[List<u8>], said: &[Said]) -> Option<Event>
    ensures { result ≡ option_map (λ end. Event.DeliverBgp end) (orders.end_said net.now.files words.now said.now) }
{
    Some(Event::DeliverBgp {
        end: end_said(net, words, said)?,
    })
}

fn ospf_said(net: &Net, words: &[List<u8>], said: &[Said]) -> Option<Event>
    ensures { result
        ≡ option_map (λ at. Event.DeliverOspf at) (orders.adjacency_said net.now.files words.now said.now) }
{
    Some(Event::DeliverOspf {
        adjacency: adjacency_said(net, words, said)?,
    })
}

fn decide_said(net: &Net, words: &[List<u8>], said: &[Said]) -> Option<Event>
    ensures { result ≡ option_map (λ router. Event.Decide router (orders.len_said said.now))
        (orders.router_said net.now.files words.now said.now) }
{
    Some(Event::Decide {
        router: router_said(Tag::Router, net, words, said)?,
        len: len_said(said),
    })
}

fn cut_said(net: &Net, said: &[Said]) -> Option<Event>
    ensures { result ≡ option_map (λ link. Event.Cut link) (orders.link_said net.now.files said.now) }
{
    Some(Event::Cut {
        link: link_said(net, said)?,
    })
}

fn mend_said(net: &Net, said: &[Said]) -> Option<Event>
    ensures { result ≡ option_map (λ link. Event.Mend link) (orders.link_said net.now.files said.now) }
{
    Some(Event::Mend {
        link: link_said(net, said)?,
    })
}

fn order_of(
    alloc: Global,
    net: &Net,
    form: Form,
    words: &[List<u8>],
    said: &[Said],
) -> Result<Order, AllocError>
    ensures { IfOk result (λ order. order ≡ orders.order_of net.now.files form words.now said.now) }
{
    let address = address_said_under(Tag::Address, said, Addr(0));
    Ok(match form {
        Form::Destination => Order::Destination(address),
        Form::Identify => Order::Identify(peer_said(net, words, said), address),
        Form::DeliverBgp => Order::Take(bgp_said(net, words, said)),
        Form::DeliverOspf => Order::Take(ospf_said(net, words, said)),
        Form::Decide => Order::Take(decide_said(net, words, said)),
        Form::Announce => Order::Take(announce_said(alloc, net, words, said)?),
        Form::Cut => Order::Take(cut_said(net, said)),
        Form::Mend => Order::Take(mend_said(net, said)),
        Form::Run => Order::Run(number_said(Tag::Number, said, 0)),
    })
}

/// What a line of these words orders of a machine of the network.
///
/// # Errors
///
/// `UnknownCommand` where the line begins with no head, and `BadWord` with the first word that is bad. Names that are
/// not there are none of these: what the line orders is then an event, or an end, that is none.
#[tactic(auto, unfolding(crate::specs::Orders::order_in))]
pub fn read_order(alloc: Global, net: &Net, words: &[List<u8>]) -> Result<Order, Cause>
    requires few { length words.now < 2 ^ 32 - 1 }
    ensures ok { IfOk result (λ order. orders.order_in net.now.files words.now ≡ Ok order) }
    ensures refused { IfErr result
        (λ cause. cause ≢ Cause.Memory → orders.order_in net.now.files words.now ≡ Err cause) }
{
    let Some(head) = find_head(words) else {
        return Err(Cause::UnknownCommand);
    };
    let said = read_words(alloc, &head, words)?;
    Ok(order_of(alloc, net, head.3, words, said.as_slice())?)
}
