//! Laws about the addresses to which packets leave a network. Each function only carries its law.

ghost use Rattle.std.specs.Prelude.{◌≡◌, ℕ, Contains, true, List as ListOf};
ghost use Rattle.std.specs.List.{list_all};
ghost use Rattle.mw_text.specs.declared.address.Addr.{Addr as AddrOf};
ghost use Rattle.ios_ast.specs.declared.file.File.{File as FileOf};
ghost use Rattle.ios_ast.specs.Limits.{keeps_limits};
ghost use Rattle.route_record.specs.declared.Environment.{Environment as EnvironmentOf};
ghost use Rattle.route_record.specs.declared.World.{World as WorldOf};
ghost use Rattle.route_record.specs.declared.tracked.Tracked.{Tracked as TrackedOf};
ghost use Rattle.net_parts.specs.Stable.{Stable};
ghost use Rattle.net_parts.specs.Tracked.{TracksNet};
ghost use Rattle.net_parts.specs.World.{IsEnvironment};
ghost use Rattle.question_lang.specs.declared.walk.End.TheVariants.{Left};
ghost use Rattle.question_lang.specs.declared.walk.Hop.TheVariants.{Ends};
ghost use Rattle.question_lang.specs.Hops.{next_hops};
ghost use Rattle.leaving_addresses.specs.Leaving.{leaving};

/// In a stable routing a router sends no packet out of the network but to one of its leaving addresses.
pub fn leaving_law()
    ensures { (tracked : TrackedOf) (files : ListOf FileOf) (world : WorldOf) (environment : EnvironmentOf) →
        TracksNet files tracked → list_all keeps_limits files ≡ true → IsEnvironment files environment →
        Stable files world.packet.dst world.failures environment world.tables → (router : ℕ) (a : AddrOf) →
        Contains (next_hops files world router) (Ends (Left a)) → Contains (leaving files router) a }
{}
