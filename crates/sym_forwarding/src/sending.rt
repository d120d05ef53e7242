//! Out of an interface to an address, as forwardings.

ghost use Rattle.std.specs.Prelude.{◌≡◌, ℕ, ◌+◌, ◌<◌, ◌≤◌, ◌==◌, ◌&&◌, Bool, IfOk, [], ◌∷◌, if◌then◌else◌};
ghost use Rattle.std.specs.Prelude.{List as ListOf, length, drop};
ghost use Rattle.mw_text.specs.Address.{covers, block};
ghost use Rattle.net_interfaces.specs.Interfaces.{addressed};
ghost use Rattle.net_parts.specs.Routing.{up_interfaces};
ghost use Rattle.net_parts.specs.World.{is_up};
ghost use Rattle.question_lang.specs.declared.walk.End.TheVariants.{Left};
ghost use Rattle.question_lang.specs.declared.walk.Hop.{Hop as HopOf};
ghost use Rattle.question_lang.specs.declared.walk.Hop.TheVariants.{Ends};
ghost use Rattle.question_lang.specs.Hops as hops;
ghost use Rattle.sym_policy.specs.Held.{failures_of};
ghost use Rattle.sym_policy.specs.Records.{address_of, packet_end};
ghost use Rattle.sym_forwarding.specs.Aims.{sought_by};
ghost use Rattle.sym_policy.specs.Packets.{packet_of};
ghost use Rattle.sym_forwarding.specs.Symbolic.{forwarding_of, forwarding_end};
ghost use Rattle.sym_forwarding.specs.Twins.{IsTwin};
ghost use Rattle.term_store.specs.Terms.{Reading, size, at};
ghost use Rattle.term_store.specs.Reading.{Reads, Builds, Gives};
ghost use Rattle.term_arith.specs.Bits.{ids_end, number};

use crate::aims::{SymAim, sym_left};
use crate::forwarding::SymForwarding;
use crate::lists::sym_depart;
use crate::owners::sym_owner;
use crate::sent::Sent;
use net_model::Addressed;
use std::alloc::{AllocError, Global};
use term_arith::Bits;
use term_store::Terms;

/// Out of the network, to that address.
#[tactic(auto, using(crate::proofs::Twins::end_twin))]
pub(crate) fn sym_leaves(
    alloc: Global,
    terms: &mut Terms,
    aim: &SymAim,
    a: &Bits,
) -> Result<SymForwarding, AllocError>
    requires aim { aim.now.here.0 < size terms.old }
    requires nodes { ids_end a.now.nodes.items ≤ size terms.old }
    ensures builds { Builds terms.old terms.new }
    ensures within { IfOk result (λ r. forwarding_end r ≤ size terms.new) }
    ensures value { Gives terms.new result (λ w r. IsTwin (sought_by w aim.now) (Ends (Left (address_of w a.now)) ∷
        []) (forwarding_of w r)) }
{
    let ends = sym_left(terms, aim, a)?;
    Ok(SymForwarding {
        next: Vec::new(alloc),
        ends,
    })
}

/// Out of an interface to an address on its subnet: to the router that has it, or out of the network.
pub(crate) fn sym_send_to(
    alloc: Global,
    terms: &mut Terms,
    sent: &Sent<'_>,
    out: &Addressed,
    a: &Bits,
) -> Result<SymForwarding, AllocError>
    requires downs { ids_end sent.now.sym.now.down ≤ size terms.old }
    requires packet { packet_end sent.now.packet.now ≤ size terms.old }
    requires aim { sent.now.aim.now.here.0 < size terms.old }
    requires nodes { ids_end a.now.nodes.items ≤ size terms.old }
    ensures builds { Builds terms.old terms.new }
    ensures within { IfOk result (λ r. forwarding_end r ≤ size terms.new) }
    ensures value { Gives terms.new result (λ w r. IsTwin (sought_by w sent.now.aim.now)
        (hops.send_to sent.now.net.now.files (packet_of w sent.now.packet.now)
        (hops.all_up sent.now.net.now.files (failures_of w sent.now.sym.now)) out.now (address_of w a.now) ∷ [])
        (forwarding_of w r)) }
{
    let left = sym_leaves(alloc, terms, sent.aim, a)?;
    let on = sym_owner(alloc, terms, sent, &out.subnet, a, left)?;
    let made = sym_depart(alloc, terms, sent.net, sent.packet, sent.aim, out.id, &on)?;
    Ok(made)
}
