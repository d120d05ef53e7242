//! Deliveries and changes of channels.

ghost use Rattle.std.specs.Prelude.{◌≡◌, ◌<◌, ◌++◌, ◌∷◌, [], All, IsTrue, OnErr, OnOk, Some, None, false, length, slice_get, if◌then◌else◌};
ghost use Rattle.machine_channels.specs.Changes as specs;
ghost use Rattle.machine_channels.specs.Changes.{IsSmall, IsSmallChange};
ghost use Rattle.machine_laws.specs.Channels as channels;
ghost use Rattle.machine_laws.specs.Events.{delivered_at};

use machine_laws::{Channel, EventRefused, Mail};
use mw_text::List;
use std::collections::LinkedList;
use std::mem;

/// What becomes of a channel: it stays, it gets more mail, or another one takes its place.
#[derive(Drop)]
pub enum Change<M> {
    Keep,
    Add(LinkedList<Mail<M>>),
    Replace(Channel<M>),
}

/// So much mail a channel has at most before it gets more.
const MOST_MAIL: usize = 0x4000_0000_0000_0000;

// Delivers the front message, if there is one.
fn deliver<M: Drop>(channel: &mut Channel<M>) -> bool
    ensures value { channels.taken channel.old channel.old.mail ≡ (if result then Some channel.new else None) }
    ensures unchanged { result ≡ false → channel.new ≡ channel.old }
{
    let Some(front) = channel.mail.pop_front() else {
        return false;
    };
    let at = front.len as usize;
    if at < channel.received.items.len() {
        channel.received.items[at] = front.what;
    }
    true
}

/// Delivers the front message of the channel at that place. `UnknownName` where there is no such channel, and
/// `NothingToDeliver` where it has no mail; then nothing changed.
pub fn deliver_at<M: Drop>(channels: &mut List<Channel<M>>, at: u32) -> Result<(), EventRefused>
    ensures value { delivered_at channels.old at ≡ specs.as_delivered result channels.new }
    ensures unchanged { OnErr result (channels.new ≡ channels.old) }
{
    if at as usize >= channels.items.len() {
        return Err(EventRefused::UnknownName);
    }
    if deliver(&mut channels.items[at as usize]) {
        Ok(())
    } else {
        Err(EventRefused::NothingToDeliver)
    }
}

/// Puts a message behind the mail of a channel. Where memory is short nothing changed.
pub fn post<M: Drop>(channel: &mut Channel<M>, len: u8, what: Option<M>) -> Result<(), EventRefused>
    ensures ok { OnOk result (channel.new ≡ channels.posted (channels.one len what) channel.old) }
    ensures unchanged { OnErr result (channel.new ≡ channel.old) }
{
    match channel.mail.push_back(Mail { len, what }) {
        Ok(()) => Ok(()),
        Err(_) => Err(EventRefused::Memory),
    }
}

/// Whether all channels have room for more mail.
pub fn have_room<M>(channels: &[Channel<M>]) -> bool
    ensures { IsTrue result → All IsSmall channels.now }
{
    channels.iter().all(|c| c.mail.len() < MOST_MAIL)
}

// Changes one channel.
fn apply<M: Drop>(channel: &mut Channel<M>, by: Change<M>)
    requires small { IsSmall channel.old }
    requires small_change { IsSmallChange by }
    ensures { channel.new ≡ specs.changed by channel.old }
{
    match by {
        Change::Keep => {}
        Change::Add(mut more) => {
            let _joined = channel.mail.append(&mut more);
        }
        Change::Replace(new) => *channel = new,
    }
}

/// Changes each channel by the change at its place. This takes no memory.
pub fn change_all<M: Drop>(channels: &mut [Channel<M>], mut changes: List<Change<M>>)
    requires small { All IsSmall channels.old }
    requires small_changes { All IsSmallChange changes }
    requires as_many { length changes ≡ length channels.old }
    ensures { channels.new ≡ specs.all_changed channels.old changes }
{
    for at in 0..channels.len() {
        let by = mem::replace(&mut changes.items[at], Change::Keep);
        apply(&mut channels[at], by);
    }
}
