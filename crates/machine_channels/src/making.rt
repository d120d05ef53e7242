//! Messages, and channels over which nothing was received.

ghost use Rattle.std.specs.Prelude.{◌≡◌, ◌++◌, IfOk, None, OnOk, Some, option_map, replicate};
ghost use Rattle.std.specs.Option.{option_to_list};
ghost use Rattle.machine_laws.specs.Channels as channels;

use machine_laws::{Channel, Mail};
use mw_text::List;
use route_record::LENGTHS;
use std::alloc::{AllocError, Global};
use std::collections::LinkedList;

/// One message about a length.
pub fn one<M: Drop>(
    alloc: Global,
    len: u8,
    what: Option<M>,
) -> Result<LinkedList<Mail<M>>, AllocError>
    ensures { IfOk result (λ mail. mail ≡ channels.one len what) }
{
    let mut mail = LinkedList::new(alloc);
    mail.push_back(Mail { len, what })?;
    Ok(mail)
}

/// That nothing was received for any length.
#[tactic(auto, using(crate::proofs::Made::replicate_more))]
pub fn nothing_received<M: Drop>(alloc: Global) -> Result<List<Option<M>>, AllocError>
    ensures { IfOk result (λ made. made ≡ replicate LENGTHS None) }
{
    let mut made = List::new(alloc);
    for at in 0..LENGTHS {
        made.items.push(None)?;
    }
    Ok(made)
}

/// A channel over which nothing was received, without mail.
pub fn silent<M: Drop>(alloc: Global) -> Result<Channel<M>, AllocError>
    ensures { IfOk result (λ made. made ≡ channels.silent) }
{
    Ok(Channel {
        received: nothing_received(alloc)?,
        mail: LinkedList::new(alloc),
    })
}

/// Puts a message about that length behind the mail, where there is something to send.
pub fn add_greeting<M: Drop>(
    mail: &mut LinkedList<Mail<M>>,
    len: u8,
    what: Option<M>,
) -> Result<(), AllocError>
    ensures { OnOk result (mail.new ≡ mail.old
        ++ option_to_list (option_map (λ m. record { len = len; what = Some m }) what)) }
{
    match what {
        None => Ok(()),
        Some(m) => {
            mail.push_back(Mail { len, what: Some(m) })?;
            Ok(())
        }
    }
}
