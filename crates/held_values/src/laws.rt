//! Laws about the values of held BGP routes. Each function only carries its law.

ghost use Rattle.std.specs.Prelude.{◌≡◌, ◌<◌, ℕ, List as ListOf, Some, true};
ghost use Rattle.std.specs.List.{list_all};
ghost use Rattle.mw_text.specs.declared.address.Addr.{Addr as AddrOf};
ghost use Rattle.ios_ast.specs.declared.file.File.{File as FileOf};
ghost use Rattle.ios_ast.specs.Limits.{keeps_limits};
ghost use Rattle.route_record.specs.declared.BgpRec.{BgpRec as BgpRecOf};
ghost use Rattle.route_record.specs.declared.Environment.{Environment as EnvironmentOf};
ghost use Rattle.route_record.specs.declared.Failures.{Failures as FailuresOf};
ghost use Rattle.route_record.specs.declared.Slot.{Slot as SlotOf};
ghost use Rattle.route_record.specs.declared.Tables.{Tables as TablesOf};
ghost use Rattle.route_record.specs.declared.TheConstants.{LENGTHS};
ghost use Rattle.route_record.specs.declared.tracked.Tracked.{Tracked as TrackedOf};
ghost use Rattle.route_record.specs.Places.{slot_at};
ghost use Rattle.net_parts.specs.Stable.{Stable};
ghost use Rattle.net_parts.specs.Tracked.{TracksNet};
ghost use Rattle.net_parts.specs.World.{IsEnvironment};
ghost use Rattle.held_values.specs.Rooms.{FitsHeldValues, values_room};
ghost use Rattle.held_values.specs.Values.{HasHeldValues};

/// The weight, the local preference and the next hop of each BGP route that a router of a stable routing holds, and the
/// first AS number of its path, are among those that lines of the files say; it is local, or learnt of the address of a
/// neighbour line; its originator, if any, is the identifier of a router or 0.0.0.0; and where no router has an external
/// peer the last AS number of its path is among those that lines say, too, and so is its MED, or it has room in the bits of
/// the metrics of OSPF routes.
pub fn values_law()
    ensures { (tracked : TrackedOf) (files : ListOf FileOf) (destination : AddrOf) (failures : FailuresOf)
        (environment : EnvironmentOf) (tables : TablesOf) (len : ℕ) → TracksNet files tracked →
        list_all keeps_limits files ≡ true → IsEnvironment files environment →
        Stable files destination failures environment tables → len < LENGTHS →
        (router : ℕ) (slot : SlotOf) (held : BgpRecOf) → slot_at tables router len ≡ Some slot →
        slot.bgp ≡ Some held → HasHeldValues files held }
{}

/// So the fields for these values have room for the numbers of each such route.
pub fn fields_law()
    ensures { (tracked : TrackedOf) (files : ListOf FileOf) (destination : AddrOf) (failures : FailuresOf)
        (environment : EnvironmentOf) (tables : TablesOf) (len : ℕ) → TracksNet files tracked →
        list_all keeps_limits files ≡ true → IsEnvironment files environment →
        Stable files destination failures environment tables → len < LENGTHS →
        (router : ℕ) (slot : SlotOf) (held : BgpRecOf) → slot_at tables router len ≡ Some slot →
        slot.bgp ≡ Some held → FitsHeldValues (values_room files) held }
{}
