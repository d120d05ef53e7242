//! A law about external sessions. The function only carries it.

ghost use Rattle.std.specs.Prelude.{◌≡◌, ℕ, List as ListOf, slice_get, Some, true};
ghost use Rattle.ios_ast.specs.declared.bgp.Neighbour.{Neighbour as NeighbourOf};
ghost use Rattle.ios_ast.specs.declared.file.File.{File as FileOf};
ghost use Rattle.route_record.specs.declared.Failures.{Failures as FailuresOf};
ghost use Rattle.net_parts.specs.declared.sessions.SessionEnd.{SessionEnd as SessionEndOf};
ghost use Rattle.net_parts.specs.Resolution.{resolved, session_up};
ghost use Rattle.net_parts.specs.Sessions.{ends_of, is_outside, neighbour_of};

/// While the session with an external peer is up the peer's address costs nothing: it lies on the subnet of the interface
/// from which the router speaks (RFC 4271, section 5.1.3).
pub fn external_cost_law()
    ensures { (files : ListOf FileOf) (failures : FailuresOf) (at : ℕ) (end : SessionEndOf) (neighbour : NeighbourOf) →
        slice_get (ends_of files) at ≡ Some end → is_outside end.far ≡ true →
        neighbour_of files end ≡ Some neighbour → session_up files failures end ≡ true →
        resolved files failures end.router neighbour.addr ≡ Some 0 }
{}
