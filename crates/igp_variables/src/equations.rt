//! Whether the routes of a network are its interior distances, as a term.

ghost use Rattle.std.specs.Prelude.{◌≡◌, ◌<◌, ◌≤◌, IfOk, length, true};
ghost use Rattle.term_store.specs.Terms.{size, at};
ghost use Rattle.term_store.specs.Reading.{Builds, Gives};
ghost use Rattle.sym_ospf.specs.Rows.{HasDistances, net_end};
ghost use Rattle.igp_variables.specs.Rows as igp;
ghost use Rattle.igp_variables.specs.Rows.{HasRows};

use crate::rows::runs_bgp;
use net_model::Net;
use std::alloc::{AllocError, Global};
use sym_ospf::sym_igp;
use sym_policy::SymNet;
use term_arith::gates::constant_node;
use term_store::{NodeId, Terms};

/// True exactly where the routes of `sym` are the interior distances while its links have failed (RFC 2328, section 16.1);
/// true where no router runs BGP.
pub fn sym_distances(
    alloc: Global,
    terms: &mut Terms,
    net: &Net,
    sym: &SymNet,
) -> Result<NodeId, AllocError>
    requires rows { HasRows net.now.files sym.now }
    requires nodes { net_end sym.now ≤ size terms.old }
    ensures builds { Builds terms.old terms.new }
    ensures within { IfOk result (λ r. r.0 < size terms.new) }
    ensures sound { Gives terms.new result (λ w r. at w r ≡ true → igp.runs_bgp net.now.files ≡ true →
        HasDistances w net.now.files sym.now) }
    ensures complete { Gives terms.new result (λ w r. (igp.runs_bgp net.now.files ≡ true →
        HasDistances w net.now.files sym.now) → at w r ≡ true) }
{
    if runs_bgp(net.routers()) {
        sym_igp(alloc, terms, net, sym)
    } else {
        constant_node(terms, true)
    }
}
