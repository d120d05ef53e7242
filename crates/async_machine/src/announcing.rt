//! Announcements of external peers, which arrive over their sessions.

ghost use Rattle.std.specs.Prelude.{◌≡◌, ◌==◌, ◌<◌, IfErr, OnErr, OnOk, Some, length, slice_get, slice_set};
ghost use Rattle.async_machine.specs.Taking.{Takes};
ghost use Rattle.machine_laws.specs.Channels as channels;
ghost use Rattle.machine_laws.specs.declared.state.Channel.{Channel as ChannelOf};
ghost use Rattle.machine_laws.specs.declared.state.Event.TheVariants as events;
ghost use Rattle.machine_laws.specs.Sending as sending;
ghost use Rattle.machine_sending.specs.Plans.{HasChannels};
ghost use Rattle.route_candidates.specs.Underlays.{IsUnderlay};
ghost use Rattle.route_record.specs.declared.BgpMsg.{BgpMsg as BgpMsgOf};

use crate::announcements::{announced_with, may_announce};
use machine_channels::post;
use machine_laws::{Channel, EventRefused, State};
use machine_sending::{arriving_at, session_up_at};
use mw_text::{Addr, List};
use net_model::Net;
use route_candidates::Underlay;
use route_record::{Announcement, BgpMsg};
use std::alloc::Global;
use std::mem;

// Puts a message behind the mail of the channel at that place.
fn post_at(
    sessions: &mut List<Channel<BgpMsg>>,
    at: u32,
    len: u8,
    what: Option<BgpMsg>,
) -> Result<(), EventRefused>
    requires { at < length sessions.old }
    ensures ok { OnOk result ((c : ChannelOf BgpMsgOf) → slice_get sessions.old at ≡ Some c →
        sessions.new ≡ slice_set sessions.old at (channels.posted (channels.one len what) c)) }
    ensures memory { IfErr result (λ why. why ≡ EventRefused.Memory) }
    ensures unchanged { OnErr result (sessions.new ≡ sessions.old) }
{
    match post(&mut sessions.items[at as usize], len, what) {
        Ok(()) => Ok(()),
        Err(_) => Err(EventRefused::Memory),
    }
}

// What the far side of the end at that place sends now is sent, where the session is up.
fn send_at(
    alloc: Global,
    net: &Net,
    d: Addr,
    state: &mut State,
    underlay: &Underlay,
    end: u32,
    len: u8,
) -> Result<(), EventRefused>
    requires underlay { IsUnderlay net.now.files state.old.failures underlay.now }
    requires channels { HasChannels net.now.files state.old }
    ensures ok { OnOk result (state.new ≡ record state.old {
      sessions = channels.published (λ at. at == end) (sending.session_up_at net.now.files state.old.failures)
          (sending.arriving_at net.now.files d state.old.environment state.old.tables) len state.old.sessions;
    }) }
    ensures memory { IfErr result (λ why. why ≡ EventRefused.Memory) }
    ensures unchanged { OnErr result (state.new ≡ state.old) }
    ensures failures { state.new.failures ≡ state.old.failures }
{
    if !session_up_at(net, &state.failures, underlay, end) {
        return Ok(());
    }
    let Ok(what) = arriving_at(alloc, net, d, &state.environment, &state.tables, end, len) else {
        return Err(EventRefused::Memory);
    };
    post_at(&mut state.sessions, end, len, what)
}

/// That is announced for the end and the length in the place of what was.
#[tactic(auto, unfolding(machine_laws::specs::Events::after))]
pub fn announce(
    alloc: Global,
    net: &Net,
    d: Addr,
    state: &mut State,
    underlay: &Underlay,
    end: u32,
    len: u8,
    what: Option<Announcement>,
) -> Result<(), EventRefused>
    requires underlay { IsUnderlay net.now.files state.old.failures underlay.now }
    requires channels { HasChannels net.now.files state.old }
    ensures takes { Takes net.now.files d state.old (events.Announce end len what) result state.new }
    ensures failures { state.new.failures ≡ state.old.failures }
{
    if !may_announce(net, end, len, &what) {
        return Err(EventRefused::UnknownName);
    }
    let announced = state.environment.announced.as_slice();
    let Ok(list) = announced_with(alloc, announced, end, len, what) else {
        return Err(EventRefused::Memory);
    };
    let former = mem::replace(&mut state.environment.announced, list);
    match send_at(alloc, net, d, state, underlay, end, len) {
        Ok(()) => Ok(()),
        Err(why) => {
            state.environment.announced = former;
            Err(why)
        }
    }
}
