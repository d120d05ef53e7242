//! Where walks begin: at a router, or at one of its interfaces, where the packet may come in.

ghost use Rattle.std.specs.Prelude.{◌≡◌, ℕ, ◌+◌, ◌<◌, ◌≤◌, Bool, IfOk, Option};
ghost use Rattle.sym_policy.specs.Held.{failures_of};
ghost use Rattle.sym_policy.specs.Records.{packet_end};
ghost use Rattle.sym_forwarding.specs.Beginnings.{begins_at, begins_in};
ghost use Rattle.sym_policy.specs.Packets.{packet_of};
ghost use Rattle.sym_forwarding.specs.Symbolic.{beginning_of, beginning_end};
ghost use Rattle.term_store.specs.Terms.{Reading, size, at};
ghost use Rattle.term_store.specs.Reading.{Reads, Builds, Gives};
ghost use Rattle.term_arith.specs.Bits.{ids_end};

use crate::forwarding::SymBeginning;
use crate::permits::sym_permits_in;
use net_model::{IfaceId, Net};
use question_lang::Start;
use std::alloc::{AllocError, Global};
use sym_ospf::sym_up_at;
use sym_policy::{SymNet, SymPacket};
use term_arith::gates::{both, constant_node, negate};
use term_store::Terms;

// At an interface: it is up, and its in list permits the packet or denies it.
fn sym_begin_in(
    alloc: Global,
    terms: &mut Terms,
    net: &Net,
    sym: &SymNet,
    packet: &SymPacket,
    i: IfaceId,
) -> Result<SymBeginning, AllocError>
    requires downs { ids_end sym.now.down ≤ size terms.old }
    requires packet { packet_end packet.now ≤ size terms.old }
    ensures builds { Builds terms.old terms.new }
    ensures within { IfOk result (λ r. beginning_end r ≤ size terms.new) }
    ensures value { Gives terms.new result (λ w r. beginning_of w r ≡
        begins_in net.now.files (failures_of w sym.now) (packet_of w packet.now) i) }
{
    let up = sym_up_at(alloc, terms, net, sym, i)?;
    let permit = sym_permits_in(alloc, terms, net, packet, i)?;
    let refused = negate(terms, permit)?;
    let begins = both(terms, up, permit)?;
    let denied = both(terms, up, refused)?;
    Ok(SymBeginning { begins, denied })
}

/// Whether a walk may begin at the start, and whether the in list of its interface denies the packet.
pub fn sym_begin(
    alloc: Global,
    terms: &mut Terms,
    net: &Net,
    sym: &SymNet,
    packet: &SymPacket,
    start: Start,
) -> Result<SymBeginning, AllocError>
    requires downs { ids_end sym.now.down ≤ size terms.old }
    requires packet { packet_end packet.now ≤ size terms.old }
    ensures builds { Builds terms.old terms.new }
    ensures within { IfOk result (λ r. beginning_end r ≤ size terms.new) }
    ensures value { Gives terms.new result (λ w r. beginning_of w r ≡
        begins_at net.now.files (failures_of w sym.now) (packet_of w packet.now) start) }
{
    match start.iface {
        None => {
            let begins = constant_node(terms, true)?;
            let denied = constant_node(terms, false)?;
            Ok(SymBeginning { begins, denied })
        }
        Some(at) => {
            let i = IfaceId {
                router: start.router,
                at,
            };
            sym_begin_in(alloc, terms, net, sym, packet, i)
        }
    }
}
