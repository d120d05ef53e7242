//! Laws about what is open of the slots of a network with BGP. Each function only carries its law.

ghost use Rattle.std.specs.Prelude.{◌≡◌, ◌<◌, ℕ, All, List as ListOf, length, true};
ghost use Rattle.std.specs.List.{list_all};
ghost use Rattle.mw_text.specs.declared.address.Prefix.{Prefix as PrefixOf};
ghost use Rattle.mw_text.specs.Address.{covers};
ghost use Rattle.ios_ast.specs.declared.file.File.{File as FileOf};
ghost use Rattle.ios_ast.specs.Limits.{keeps_limits};
ghost use Rattle.route_record.specs.declared.Environment.{Environment as EnvironmentOf};
ghost use Rattle.route_record.specs.declared.Failures.{Failures as FailuresOf};
ghost use Rattle.route_record.specs.declared.Packet.{Packet as PacketOf};
ghost use Rattle.route_record.specs.declared.Plan.{Plan as PlanOf};
ghost use Rattle.route_record.specs.declared.tracked.Tracked.{Tracked as TrackedOf};
ghost use Rattle.route_record.specs.declared.World.{World as WorldOf};
ghost use Rattle.net_parts.specs.Ospf.{adjacencies};
ghost use Rattle.net_parts.specs.Stable.{Stable};
ghost use Rattle.net_parts.specs.Tracked.{TracksNet};
ghost use Rattle.net_parts.specs.World.{IsEnvironment};
ghost use Rattle.bgp_shapes.specs.Candidates.{ShapeEnvironment, environment_shape};
ghost use Rattle.plan_places.specs.Places.{places_of};
ghost use Rattle.sliced_routings.specs.Plans.{IsFittingPlan};
ghost use Rattle.sliced_routings.specs.Slicing.{IsSliced};
ghost use Rattle.shape_worlds.specs.Worlds.{IsRealWorld, ShapeWorld, environment_of, rebuilt_tables, rebuilt_world};
ghost use Rattle.shape_worlds.specs.Worlds.{shapes_of};
ghost use Rattle.bgp_worlds.specs.Opens.{AnnounceAtSlices, FitOpens, HaveRooms, OpenSlot, opens_hold, opens_of, shape_world_of};

/// Where what is open at the places of a plan passes its test, and external peers announce at its slices alone, the real
/// world that is made of its shapes has these shapes, in an environment that the peers may make (`real`); and off the
/// slices nothing stands, and nobody announces anything (`sliced`). Its tables are a stable routing, where the plan fits
/// the files and the numbers of what is open fit their fields (`stable`).
pub fn routing_law()
    ensures real { (tracked : TrackedOf) (files : ListOf FileOf) (destinations : PrefixOf) (plan : PlanOf)
        (packet : PacketOf) (failures : FailuresOf) (opens : ListOf OpenSlot) (announced : ShapeEnvironment)
        (s : ShapeWorld) → s ≡ shape_world_of files destinations plan packet failures opens announced →
        TracksNet files tracked → list_all keeps_limits files ≡ true → AnnounceAtSlices plan announced →
        opens_hold tracked files destinations plan s opens ≡ true →
        IsRealWorld tracked files s (rebuilt_world tracked files s) (environment_of tracked s) }
    ensures sliced { (tracked : TrackedOf) (files : ListOf FileOf) (destinations : PrefixOf) (plan : PlanOf)
        (packet : PacketOf) (failures : FailuresOf) (opens : ListOf OpenSlot) (announced : ShapeEnvironment)
        (s : ShapeWorld) → s ≡ shape_world_of files destinations plan packet failures opens announced →
        TracksNet files tracked → list_all keeps_limits files ≡ true → AnnounceAtSlices plan announced →
        opens_hold tracked files destinations plan s opens ≡ true →
        IsSliced plan (rebuilt_world tracked files s) (environment_of tracked s) }
    ensures stable { (tracked : TrackedOf) (files : ListOf FileOf) (destinations : PrefixOf) (plan : PlanOf)
        (packet : PacketOf) (failures : FailuresOf) (opens : ListOf OpenSlot) (announced : ShapeEnvironment)
        (s : ShapeWorld) → s ≡ shape_world_of files destinations plan packet failures opens announced →
        TracksNet files tracked → list_all keeps_limits files ≡ true → AnnounceAtSlices plan announced →
        IsFittingPlan files plan → covers destinations packet.dst ≡ true →
        HaveRooms files destinations (places_of plan (length files)) opens → FitOpens tracked files opens →
        opens_hold tracked files destinations plan s opens ≡ true →
        Stable files packet.dst failures (environment_of tracked s) (rebuilt_tables tracked files s) }
{}

/// The shapes of a stable routing that stands at the slices of a plan alone follow from what is open of its slots at the
/// places of the plan (`again`), and that passes the test (`passes`).
pub fn opens_law()
    ensures again { (tracked : TrackedOf) (files : ListOf FileOf) (destinations : PrefixOf) (plan : PlanOf)
        (world : WorldOf) (environment : EnvironmentOf) → TracksNet files tracked →
        list_all keeps_limits files ≡ true → IsSliced plan world environment →
        covers destinations world.packet.dst ≡ true → All (λ a. 0 < a.cost) (adjacencies files) →
        IsEnvironment files environment → Stable files world.packet.dst world.failures environment world.tables →
        shape_world_of files destinations plan world.packet world.failures
        (opens_of tracked world.tables (places_of plan (length files))) (environment_shape tracked environment)
        ≡ shapes_of tracked world environment }
    ensures passes { (tracked : TrackedOf) (files : ListOf FileOf) (destinations : PrefixOf) (plan : PlanOf)
        (world : WorldOf) (environment : EnvironmentOf) → TracksNet files tracked →
        list_all keeps_limits files ≡ true → IsSliced plan world environment →
        covers destinations world.packet.dst ≡ true → All (λ a. 0 < a.cost) (adjacencies files) →
        IsEnvironment files environment → Stable files world.packet.dst world.failures environment world.tables →
        opens_hold tracked files destinations plan (shapes_of tracked world environment)
        (opens_of tracked world.tables (places_of plan (length files))) ≡ true }
{}
