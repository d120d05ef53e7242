//! Laws about BGP on shapes. Each function only carries its law.

ghost use Rattle.std.specs.Prelude.{◌≡◌, ◌<◌, ◌^◌, ℕ, All, Bool, IfSome, length, List as ListOf, map};
ghost use Rattle.std.specs.Prelude.{Option as OptionOf};
ghost use Rattle.std.specs.Prelude.{option_map, Some, true};
ghost use Rattle.std.specs.List.{list_all};
ghost use Rattle.mw_text.specs.declared.address.Addr.{Addr as AddrOf};
ghost use Rattle.mw_text.specs.declared.address.Prefix.{Prefix as PrefixOf};
ghost use Rattle.mw_text.specs.Address.{prefix_at};
ghost use Rattle.ios_ast.specs.declared.bgp.Bgp.{Bgp as BgpOf};
ghost use Rattle.ios_ast.specs.declared.file.File.{File as FileOf};
ghost use Rattle.ios_ast.specs.Limits.{keeps_limits};
ghost use Rattle.route_record.specs.declared.BgpMsg.{BgpMsg as BgpMsgOf};
ghost use Rattle.route_record.specs.declared.BgpRec.{BgpRec as BgpRecOf};
ghost use Rattle.route_record.specs.declared.Environment.{Environment as EnvironmentOf};
ghost use Rattle.route_record.specs.declared.Failures.{Failures as FailuresOf};
ghost use Rattle.route_record.specs.declared.Slot.{Slot as SlotOf};
ghost use Rattle.route_record.specs.declared.Tables.{Tables as TablesOf};
ghost use Rattle.route_record.specs.declared.TheConstants.{LENGTHS};
ghost use Rattle.route_record.specs.Places.{slot_at};
ghost use Rattle.route_record.specs.declared.tracked.Tracked.{Tracked as TrackedOf};
ghost use Rattle.net_parts.specs.declared.sessions.SessionEnd.{SessionEnd as SessionEndOf};
ghost use Rattle.net_parts.specs.Decisions.{Candidate, IsHeld, candidates, survivors, survivors_by};
ghost use Rattle.net_parts.specs.Exports.{exported, imported};
ghost use Rattle.net_parts.specs.Stable.{Stable};
ghost use Rattle.net_parts.specs.Tracked.{TracksNet};
ghost use Rattle.route_shapes.specs.Bgp.{BgpShape, bgp_shape};
ghost use Rattle.bgp_shapes.specs.Candidates.{candidate_shape, environment_shape, shape_candidates, shape_key};
ghost use Rattle.bgp_shapes.specs.Candidates.{slots_shape};
ghost use Rattle.bgp_shapes.specs.Exporting.{shape_exported};
ghost use Rattle.bgp_shapes.specs.Held.{HasMarks, IsHeldByShape, held_shape};
ghost use Rattle.bgp_shapes.specs.Importing.{shape_imported};
ghost use Rattle.bgp_shapes.specs.Lengths.{IsShort};
ghost use Rattle.bgp_shapes.specs.Messages.{message_shape};
ghost use Rattle.bgp_shapes.specs.Tracking.{TracksTests};

/// What the files of a network name is all that the tests of its routers ask for: lists that contain it are enough.
pub fn tracked_law()
    ensures { (files : ListOf FileOf) (tracked : TrackedOf) → TracksNet files tracked → TracksTests files tracked }
{}

/// Import makes of the shape of a message the shape of what it makes of the message (RFC 4271, section 9.1.1).
pub fn import_law()
    ensures { (tracked : TrackedOf) (files : ListOf FileOf) (end : SessionEndOf) (p : PrefixOf) (message : BgpMsgOf) →
        TracksNet files tracked →
        shape_imported tracked files end p (message_shape tracked message)
        ≡ option_map (bgp_shape tracked) (imported files end p message) }
{}

/// Export sends of the shape of a held route the shape of what it sends of the route (RFC 4271, section 9.1.3).
pub fn export_law()
    ensures { (tracked : TrackedOf) (files : ListOf FileOf) (end : SessionEndOf) (p : PrefixOf) (held : BgpRecOf) →
        TracksNet files tracked →
        shape_exported tracked files end p (bgp_shape tracked held)
        ≡ option_map (message_shape tracked) (exported files end p held) }
{}

/// The shapes of a router's candidates are the candidates that follow from the shapes of the slots and of the
/// environment, in the same order.
pub fn candidates_law()
    ensures { (tracked : TrackedOf) (files : ListOf FileOf) (failures : FailuresOf) (environment : EnvironmentOf)
        (tables : TablesOf) (router : ℕ) (file : FileOf) (process : BgpOf) (p : PrefixOf) →
        TracksNet files tracked →
        map (candidate_shape tracked) (candidates files failures environment tables router file process p)
        ≡ shape_candidates tracked files failures (environment_shape tracked environment)
        (slots_shape tracked tables p.len) router file process p }
{}

/// In a stable routing 32 bits tell the lengths of every candidate's lists: a held route has fewer clusters than there
/// are routers, since each cluster was put in front by another one, and an imported path has at most 255 numbers.
pub fn length_law()
    ensures fewer { (files : ListOf FileOf) (destination : AddrOf) (failures : FailuresOf) (environment : EnvironmentOf)
        (tables : TablesOf) → list_all keeps_limits files ≡ true →
        Stable files destination failures environment tables →
        (router len : ℕ) (slot : SlotOf) (held : BgpRecOf) → len < LENGTHS → slot_at tables router len ≡ Some slot →
        slot.bgp ≡ Some held → length held.clusters < length files }
    ensures short { (files : ListOf FileOf) (destination : AddrOf) (failures : FailuresOf) (environment : EnvironmentOf)
        (tables : TablesOf) → list_all keeps_limits files ≡ true → length files < 2 ^ 32 →
        Stable files destination failures environment tables → (router len : ℕ) (file : FileOf) (process : BgpOf) →
        len < LENGTHS →
        All IsShort (candidates files failures environment tables router file process (prefix_at destination len)) }
{}

/// The shapes of the candidates that survive the decision process are the shapes that survive it, where 32 bits tell
/// the lengths of their lists (RFC 4271, section 9.1.2.2).
pub fn survivors_law()
    ensures { (tracked : TrackedOf) (always compare_id : Bool) (all : ListOf Candidate) → All IsShort all →
        map (candidate_shape tracked) (survivors always compare_id all)
        ≡ survivors_by shape_key always compare_id (map (candidate_shape tracked) all) }
{}

/// A held route is held by its shape; and a shape with a mark for each tracked value that is held is the shape of some
/// survivor, or there is neither a route nor a candidate.
pub fn held_law()
    ensures complete { (tracked : TrackedOf) (always compare_id : Bool) (all : ListOf Candidate)
        (held : OptionOf BgpRecOf) → All IsShort all → IsHeld all (survivors always compare_id all) held →
        held_shape always compare_id (map (candidate_shape tracked) all) (option_map (bgp_shape tracked) held) ≡ true }
    ensures sound { (tracked : TrackedOf) (always compare_id : Bool) (all : ListOf Candidate)
        (held : OptionOf BgpShape) → All IsShort all → IfSome held (HasMarks tracked) →
        held_shape always compare_id (map (candidate_shape tracked) all) held ≡ true →
        IsHeldByShape tracked all (survivors always compare_id all) held }
{}
