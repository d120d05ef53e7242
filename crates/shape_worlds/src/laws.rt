//! Laws about worlds by shapes. Each function only carries its law.

ghost use Rattle.std.specs.Prelude.{◌≡◌, All, IfSome, List as ListOf, true};
ghost use Rattle.std.specs.List.{list_all};
ghost use Rattle.ios_ast.specs.declared.file.File.{File as FileOf};
ghost use Rattle.ios_ast.specs.Limits.{keeps_limits};
ghost use Rattle.route_record.specs.declared.Environment.{Environment as EnvironmentOf};
ghost use Rattle.route_record.specs.declared.Slot.{Slot as SlotOf};
ghost use Rattle.route_record.specs.declared.tracked.Tracked.{Tracked as TrackedOf};
ghost use Rattle.route_record.specs.declared.World.{World as WorldOf};
ghost use Rattle.route_record.specs.Fits.{FitsBgp};
ghost use Rattle.net_parts.specs.Stable.{Stable};
ghost use Rattle.net_parts.specs.Tracked.{TracksNet};
ghost use Rattle.net_parts.specs.World.{IsEnvironment};
ghost use Rattle.bgp_shapes.specs.Candidates.{ShapeSlot};
ghost use Rattle.rebuilt_routes.specs.Words.{HasWordNumbers, HasWordValues};
ghost use Rattle.shape_worlds.specs.Worlds.{IsRealWorld, ShapeWorld, environment_of, rebuilt_world, shape_holds};
ghost use Rattle.shape_worlds.specs.Worlds.{rebuilt_tables, shapes_of};

/// Of shapes that hold, a real world and an environment are made which have these shapes: the peers may make the
/// environment, and the BGP part of each slot is what the decision process leaves of the candidates that follow from the
/// tables themselves (RFC 4271, section 9.1.2).
pub fn real_world_law()
    ensures { (tracked : TrackedOf) (files : ListOf FileOf) (s : ShapeWorld) → TracksNet files tracked →
        list_all keeps_limits files ≡ true → shape_holds tracked files s ≡ true →
        IsRealWorld tracked files s (rebuilt_world tracked files s) (environment_of tracked s) }
{}

/// The BGP routes of the world that is made of shapes that hold fit their fields, where the numbers of the shapes do, and the
/// values that lines of the files bring into lists.
pub fn fits_law()
    ensures { (tracked : TrackedOf) (files : ListOf FileOf) (s : ShapeWorld) → TracksNet files tracked →
        list_all keeps_limits files ≡ true → shape_holds tracked files s ≡ true → HasWordValues tracked files →
        All (λ (slot : ShapeSlot). IfSome slot.bgp HasWordNumbers) s.slots →
        All (λ (slot : SlotOf). IfSome slot.bgp FitsBgp) (rebuilt_tables tracked files s).slots }
{}

/// The shapes of a stable routing, with those of its environment, hold.
pub fn stable_law()
    ensures { (tracked : TrackedOf) (files : ListOf FileOf) (world : WorldOf) (environment : EnvironmentOf) →
        TracksNet files tracked → list_all keeps_limits files ≡ true → IsEnvironment files environment →
        Stable files world.packet.dst world.failures environment world.tables →
        shape_holds tracked files (shapes_of tracked world environment) ≡ true }
{}
