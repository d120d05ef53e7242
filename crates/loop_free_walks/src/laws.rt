//! The law on walks that do not loop. Its function only carries it.

ghost use Rattle.std.specs.Prelude.{◌≡◌, ◌≢◌, ◌<◌, ◌≤◌, List as ListOf, true, length};
ghost use Rattle.std.specs.List.{list_all};
ghost use Rattle.ios_ast.specs.declared.file.File.{File as FileOf};
ghost use Rattle.net_interfaces.specs.Limits.{keeps_limits};
ghost use Rattle.net_parts.specs.Stable.{Stable};
ghost use Rattle.question_lang.specs.declared.walk.End.TheVariants.{Loop};
ghost use Rattle.question_lang.specs.declared.walk.Walk.{Walk as WalkOf};
ghost use Rattle.question_lang.specs.Walks.{IsWalk};
ghost use Rattle.route_record.specs.declared.Environment.{Environment as EnvironmentOf};
ghost use Rattle.route_record.specs.declared.World.{World as WorldOf};
ghost use Rattle.loop_free_walks.specs.Entries.{AreInterior, is_plain};

/// In a stable routing whose table entries are all of connected subnets or of OSPF no walk of the packet ends in a
/// loop, and one of more than one router has no more of them than there are. With each hop either the longest prefix
/// with an entry is longer, or the OSPF route for it costs less, and a connected subnet leads to the router that has
/// the destination.
pub fn loop_free_law()
    ensures loops { (files : ListOf FileOf) (world : WorldOf) (environment : EnvironmentOf) →
        Stable files world.packet.dst world.failures environment world.tables → list_all keeps_limits files ≡ true →
        AreInterior world.tables → (walk : WalkOf) → IsWalk files world walk →
        walk.end ≢ Loop }
    ensures short { (files : ListOf FileOf) (world : WorldOf) (environment : EnvironmentOf) →
        Stable files world.packet.dst world.failures environment world.tables → list_all keeps_limits files ≡ true →
        AreInterior world.tables → (walk : WalkOf) → IsWalk files world walk →
        1 < length walk.hops → length walk.hops ≤ length files }
{}

/// In a stable routing of files without static routes and BGP processes all table entries are of connected subnets or of
/// OSPF.
pub fn interior_law()
    ensures { (files : ListOf FileOf) (world : WorldOf) (environment : EnvironmentOf) →
        Stable files world.packet.dst world.failures environment world.tables → list_all is_plain files ≡ true →
        AreInterior world.tables }
{}
