//! Laws about the interior distances as unknowns. Each function only carries its law.

ghost use Rattle.std.specs.Prelude.{◌≡◌, ◌+◌, ◌≤◌, ◌++◌, ℕ, Bool, List as ListOf, [], false, true, length, map, option_map};
ghost use Rattle.std.specs.List.{list_all};
ghost use Rattle.ios_ast.specs.declared.file.File.{File as FileOf};
ghost use Rattle.route_record.specs.declared.Failures.{Failures as FailuresOf};
ghost use Rattle.net_interfaces.specs.declared.interfaces.TheConstants.{MOST_FILES};
ghost use Rattle.net_interfaces.specs.Limits.{keeps_limits};
ghost use Rattle.net_parts.specs.Sessions.{ends_of};
ghost use Rattle.term_store.specs.Terms.{Reading};
ghost use Rattle.sym_policy.specs.declared.records.SymNet.{SymNet as SymNetOf};
ghost use Rattle.sym_policy.specs.Held.{failures_of, internal_route, ospf_of};
ghost use Rattle.sym_ospf.specs.Rows.{HasDistances};
ghost use Rattle.failed_links.specs.Rows.{IsAt};
ghost use Rattle.igp_variables.specs.Rows.{distances, rows_bits, rows_from, rows_width, runs_bgp};

/// In a network whose files keep their limits, of at most 64 routers, each interior distance has room in its bits: the
/// distances are read from their bits, and what stands behind these stands behind their variables.
pub fn rows_law()
    ensures { (files : ListOf FileOf) (failures : FailuresOf) (v : ℕ → Bool) (from : ℕ) (rest : ListOf Bool) →
        list_all keeps_limits files ≡ true → length files ≤ MOST_FILES →
        IsAt v from (rows_bits files failures ++ rest) →
        (rows_from files v from ≡ map (option_map internal_route) (distances files failures))
        × IsAt v (from + rows_width files) rest }
{}

/// Where some router runs BGP, routes that read as the distances are the interior distances of the network.
pub fn distances_law()
    ensures { (w : Reading) (files : ListOf FileOf) (sym : SymNetOf) → runs_bgp files ≡ true →
        map (ospf_of w) sym.igp ≡ map (option_map internal_route) (distances files (failures_of w sym)) →
        HasDistances w files sym }
{}

/// Where no router runs BGP there is no end of a session.
pub fn ends_law()
    ensures { (files : ListOf FileOf) → runs_bgp files ≡ false → ends_of files ≡ [] }
{}
