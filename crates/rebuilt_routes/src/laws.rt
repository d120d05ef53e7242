//! Laws about routes that are made again from their shapes. Each function only carries its law.

ghost use Rattle.std.specs.Prelude.{◌≡◌, ◌<◌, ℕ, Bool, List as ListOf, Option as OptionOf, Some, true};
ghost use Rattle.std.specs.List.{list_all};
ghost use Rattle.mw_text.specs.declared.address.Addr.{Addr as AddrOf};
ghost use Rattle.mw_text.specs.declared.address.Prefix.{Prefix as PrefixOf};
ghost use Rattle.mw_text.specs.Address.{prefix_at};
ghost use Rattle.ios_ast.specs.declared.file.File.{File as FileOf};
ghost use Rattle.ios_ast.specs.Limits.{keeps_limits};
ghost use Rattle.route_record.specs.declared.BgpRec.{BgpRec as BgpRecOf};
ghost use Rattle.route_record.specs.declared.Environment.{Environment as EnvironmentOf};
ghost use Rattle.route_record.specs.declared.Failures.{Failures as FailuresOf};
ghost use Rattle.route_record.specs.declared.Slot.{Slot as SlotOf};
ghost use Rattle.route_record.specs.declared.Tables.{Tables as TablesOf};
ghost use Rattle.route_record.specs.declared.TheConstants.{LENGTHS};
ghost use Rattle.route_record.specs.declared.tracked.Tracked.{Tracked as TrackedOf};
ghost use Rattle.route_record.specs.Fits.{FitsBgp};
ghost use Rattle.route_record.specs.Places.{slot_at};
ghost use Rattle.net_parts.specs.Stable.{Stable};
ghost use Rattle.net_parts.specs.Tracked.{TracksNet};
ghost use Rattle.net_parts.specs.World.{IsEnvironment};
ghost use Rattle.route_shapes.specs.Bgp.{BgpShape};
ghost use Rattle.bgp_shapes.specs.Candidates.{ShapeSlot, environment_shape, slots_shape};
ghost use Rattle.rebuilt_routes.specs.Clusters.{HoldsOfLocalRoutes, IsKeptBySessions, HasBoundedLists};
ghost use Rattle.rebuilt_routes.specs.Deciding.{AreDecided, AreDecidedShapes, HaveRealRoutes};
ghost use Rattle.rebuilt_routes.specs.Following.{AllFollow, AreReal, held_at, real_routes};
ghost use Rattle.rebuilt_routes.specs.Ranks.{RanksLessBehind};
ghost use Rattle.rebuilt_routes.specs.Words.{HasWordNumbers, HasWordValues};

/// Where each held shape follows, the routes that are followed back over as many routers as there are have these shapes,
/// and each is the first local route of its shape, or what its router makes of what the far side of its session then
/// sends (RFC 4271, section 9.1).
pub fn followed_law()
    ensures { (tracked : TrackedOf) (files : ListOf FileOf) (environment : EnvironmentOf)
        (slots : ℕ → OptionOf ShapeSlot) (p : PrefixOf) → TracksNet files tracked →
        AllFollow tracked files environment slots p →
        AreReal tracked files environment slots p (real_routes tracked files environment slots p) }
{}

/// Where each held shape follows, no route is learnt in a circle: the router behind the session of a held shape holds one
/// of less rank.
pub fn rank_law()
    ensures { (tracked : TrackedOf) (files : ListOf FileOf) (environment : EnvironmentOf)
        (slots : ℕ → OptionOf ShapeSlot) (p : PrefixOf) → TracksNet files tracked →
        AllFollow tracked files environment slots p → RanksLessBehind files slots }
{}

/// Shapes that are decided follow.
pub fn shapes_follow_law()
    ensures { (tracked : TrackedOf) (files : ListOf FileOf) (failures : FailuresOf) (environment : EnvironmentOf)
        (slots : ℕ → OptionOf ShapeSlot) (p : PrefixOf) → TracksNet files tracked →
        list_all keeps_limits files ≡ true →
        AreDecidedShapes tracked files failures (environment_shape tracked environment) slots p →
        AllFollow tracked files environment slots p }
{}

/// Where the shapes for a prefix are decided, tables with the routes that are followed back have these shapes, and each
/// of their routes is what the decision process leaves of the candidates that follow from the tables themselves
/// (RFC 4271, section 9.1.2).
pub fn decided_law()
    ensures { (tracked : TrackedOf) (files : ListOf FileOf) (failures : FailuresOf) (environment : EnvironmentOf)
        (slots : ℕ → OptionOf ShapeSlot) (p : PrefixOf) (tables : TablesOf) → TracksNet files tracked →
        list_all keeps_limits files ≡ true →
        AreDecidedShapes tracked files failures (environment_shape tracked environment) slots p →
        HaveRealRoutes tracked files environment slots p tables →
        AreDecided tracked files failures environment slots p tables }
{}

/// The routes that are followed back fit their fields, where the numbers of their shapes do, and the values that lines of
/// the files bring into lists.
pub fn fits_law()
    ensures { (tracked : TrackedOf) (files : ListOf FileOf) (environment : EnvironmentOf)
        (slots : ℕ → OptionOf ShapeSlot) (p : PrefixOf) → TracksNet files tracked →
        list_all keeps_limits files ≡ true → AllFollow tracked files environment slots p →
        HasWordValues tracked files → IsEnvironment files environment →
        ((router : ℕ) (s : BgpShape) → held_at slots router ≡ Some s → HasWordNumbers s) → (router : ℕ) (rec : BgpRecOf) →
        real_routes tracked files environment slots p router ≡ Some rec → FitsBgp rec }
{}

/// The shapes of a stable routing are decided.
pub fn stable_law()
    ensures { (tracked : TrackedOf) (files : ListOf FileOf) (destination : AddrOf) (failures : FailuresOf)
        (environment : EnvironmentOf) (tables : TablesOf) (len : ℕ) → TracksNet files tracked →
        list_all keeps_limits files ≡ true → Stable files destination failures environment tables → len < LENGTHS →
        AreDecidedShapes tracked files failures (environment_shape tracked environment) (slots_shape tracked tables len)
        (prefix_at destination len) }
{}

/// What is true of local routes and of what routers make of announcements, and is kept by sessions, is true of all routes
/// that a stable routing holds.
pub fn supported_law()
    ensures { (tracked : TrackedOf) (files : ListOf FileOf) (destination : AddrOf) (failures : FailuresOf)
        (environment : EnvironmentOf) (tables : TablesOf) (len : ℕ) (P : ℕ → BgpRecOf → Bool) →
        TracksNet files tracked → list_all keeps_limits files ≡ true →
        Stable files destination failures environment tables → len < LENGTHS →
        HoldsOfLocalRoutes files tables (prefix_at destination len) P →
        IsKeptBySessions files environment (prefix_at destination len) P →
        (router : ℕ) (slot : SlotOf) (held : BgpRecOf) → slot_at tables router len ≡ Some slot →
        slot.bgp ≡ Some held → P router held ≡ true }
{}

/// In a stable routing no cluster list names a reflector twice, a route without one has no originator (RFC 4456,
/// section 8), and no path has more than 255 numbers.
pub fn lists_law()
    ensures { (tracked : TrackedOf) (files : ListOf FileOf) (destination : AddrOf) (failures : FailuresOf)
        (environment : EnvironmentOf) (tables : TablesOf) (len : ℕ) → TracksNet files tracked →
        list_all keeps_limits files ≡ true → Stable files destination failures environment tables → len < LENGTHS →
        (router : ℕ) (slot : SlotOf) (held : BgpRecOf) → slot_at tables router len ≡ Some slot →
        slot.bgp ≡ Some held → HasBoundedLists tracked held }
{}
