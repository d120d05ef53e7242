//! What the definitions ask of routers, their neighbours and their sessions.

ghost use Rattle.std.specs.Prelude.{◌≡◌, ◌==◌};
ghost use Rattle.std.specs.List.{list_any};
ghost use Rattle.ios_ast.specs.Deciding.{carries};
ghost use Rattle.net_parts.specs.Exports as exports;

use ios_ast::Bgp;
use mw_text::Addr;

/// Whether a number stands in a list.
pub fn carries(list: &[u32], number: u32) -> bool
    ensures { result ≡ carries list.now number }
{
    list.iter().any(|x| *x == number)
}

/// Whether an identifier stands among others.
pub fn has_id(ids: &[Addr], own: Addr) -> bool
    ensures { result ≡ list_any (λ id. id.0 == own.0) ids.now }
{
    ids.iter().any(|id| id.0 == own.0)
}

/// Whether a neighbour of the process is a client of it, so that it reflects routes (RFC 4456, section 6).
pub fn is_reflector(process: &Bgp) -> bool
    ensures { result ≡ exports.is_reflector process.now }
{
    process
        .neighbours
        .as_slice()
        .iter()
        .any(|neighbour| neighbour.client)
}
