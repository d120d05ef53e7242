//! Laws about the places of a plan, and about what stands in the slots of stable routings. Each function only carries its
//! law.

ghost use Rattle.std.specs.Prelude.{◌≡◌, ◌<◌, ◌≤◌, ◌+◌, ◌*◌, ◌^◌, ℕ, All, AllPairs, Bool, Contains, IsTrue, List as ListOf, Option as OptionOf, Some, None, [], length, slice_get, true, false};
ghost use Rattle.mw_text.specs.declared.address.Addr.{Addr as AddrOf};
ghost use Rattle.mw_text.specs.declared.address.Prefix.{Prefix as PrefixOf};
ghost use Rattle.mw_text.specs.Address.{covers, prefix_at};
ghost use Rattle.ios_ast.specs.declared.file.File.{File as FileOf};
ghost use Rattle.route_record.specs.declared.Environment.{Environment as EnvironmentOf};
ghost use Rattle.route_record.specs.declared.Failures.{Failures as FailuresOf};
ghost use Rattle.route_record.specs.declared.OspfRec.{OspfRec as OspfRecOf};
ghost use Rattle.route_record.specs.declared.Plan.{Plan as PlanOf};
ghost use Rattle.route_record.specs.declared.Slot.{Slot as SlotOf};
ghost use Rattle.route_record.specs.declared.Tables.{Tables as TablesOf};
ghost use Rattle.route_record.specs.declared.TheConstants.{LENGTHS};
ghost use Rattle.route_record.specs.Places.{slot_at};
ghost use Rattle.net_parts.specs.Ospf.{adjacencies};
ghost use Rattle.net_parts.specs.Stable.{IsStableSlot, Stable};
ghost use Rattle.slot_places.specs.declared.fields.Field.{Field as FieldOf};
ghost use Rattle.plan_places.specs.declared.places.Place.{Place as PlaceOf};
ghost use Rattle.slot_places.specs.declared.rooms.Room.{Room as RoomOf};
ghost use Rattle.slot_places.specs.Origins.{origins_at};
ghost use Rattle.plan_places.specs.Places.{IsBefore, has_place, place, places_of};
ghost use Rattle.plan_places.specs.Plans.{has_slice, lens_of, single_plan};
ghost use Rattle.slot_places.specs.Rooms.{FitsIn, HasUsed, can_be_used, dearest_of, dearest_walk, room_at, room_for, used_among};
ghost use Rattle.slot_places.specs.Supported.{AreOrigins, IsKept};
ghost use Rattle.plan_places.specs.Tables.{empty_slot};
ghost use Rattle.slot_places.specs.Values.{FitsField, field_width, read_as, told_as};

/// The places of a plan over so many routers are each router's at each length at which a slice stands (`there`), and no
/// others (`only`). They ascend by router and then by length, so none comes twice (`ascending`), and are as many as there
/// are routers times lengths (`many`). Where each length is a class of its own all have a slice (`single`).
pub fn places_law()
    ensures there { (plan : PlanOf) (routers router len : ℕ) → router < routers → len < LENGTHS →
        has_slice plan len ≡ true → Contains (places_of plan routers) (place router len) }
    ensures only { (plan : PlanOf) (routers : ℕ) (p : PlaceOf) → Contains (places_of plan routers) p →
        (p.router < routers) × (p.len < LENGTHS) × (has_slice plan p.len ≡ true) }
    ensures ascending { (plan : PlanOf) (routers : ℕ) → AllPairs IsBefore (places_of plan routers) }
    ensures many { (plan : PlanOf) (routers : ℕ) → length (places_of plan routers) ≡ routers * length (lens_of plan) }
    ensures single { (len : ℕ) → len < LENGTHS → has_slice single_plan len ≡ true }
{}

/// A number for which a field has room is told by a number of the field's width, and read back from it.
pub fn fields_law()
    ensures small { (field : FieldOf) (n : ℕ) → FitsField field n → told_as field n < 2 ^ field_width field }
    ensures again { (field : FieldOf) (n : ℕ) → FitsField field n → read_as field (told_as field n) ≡ n }
{}

/// Whatever is true of all that routers originate into OSPF for a prefix, and stays true when a route costs more, is true
/// of each OSPF route for it that a stable routing holds, since each adjacency costs something.
pub fn origins_law()
    ensures { (files : ListOf FileOf) (destination : AddrOf) (failures : FailuresOf) (environment : EnvironmentOf)
        (tables : TablesOf) (len : ℕ) (P : OspfRecOf → Bool) →
        Stable files destination failures environment tables → len < LENGTHS →
        All (λ a. 0 < a.cost) (adjacencies files) → IsKept (λ r. IsTrue (P r)) →
        AreOrigins files failures tables (prefix_at destination len) (λ r. IsTrue (P r)) →
        (router : ℕ) (slot : SlotOf) (held : OspfRecOf) → slot_at tables router len ≡ Some slot →
        slot.ospf ≡ Some held → IsTrue (P held) }
{}

/// No OSPF route of a stable routing costs more than the dearest origin and, for each router once, the dearest adjacency.
pub fn cost_bound_law()
    ensures { (files : ListOf FileOf) (destination : AddrOf) (failures : FailuresOf) (environment : EnvironmentOf)
        (tables : TablesOf) (len most step : ℕ) →
        Stable files destination failures environment tables → len < LENGTHS →
        All (λ a. 0 < a.cost) (adjacencies files) → All (λ a. a.cost ≤ step) (adjacencies files) →
        AreOrigins files failures tables (prefix_at destination len) (λ o. o.cost ≤ most) →
        (router : ℕ) (slot : SlotOf) (held : OspfRecOf) → slot_at tables router len ≡ Some slot →
        slot.ospf ≡ Some held → held.cost ≤ most + length files * step }
{}

/// All that routers originate into OSPF in a stable routing, redistributed connected, static and BGP routes and default
/// routes among it, is among the records that lines of the files bring in: every metric is a constant of the files.
pub fn origins_known_law()
    ensures { (files : ListOf FileOf) (destinations : PrefixOf) (destination : AddrOf) (failures : FailuresOf)
        (environment : EnvironmentOf) (tables : TablesOf) (len : ℕ) → covers destinations destination ≡ true →
        Stable files destination failures environment tables → len < LENGTHS →
        AreOrigins files failures tables (prefix_at destination len) (Contains (origins_at files destinations len)) }
{}

/// Each OSPF route that a router of a stable routing holds has the kind and the metric of a record that lines of the files
/// bring in (`comes_from`), and costs no more than the dearest of these and a walk that comes to each router once
/// (`cost`). So where no line brings in any no router holds one (`nothing`), and else each is one of those for which its
/// slot has room (`fits`).
pub fn held_law()
    ensures comes_from { (files : ListOf FileOf) (destinations : PrefixOf) (destination : AddrOf) (failures : FailuresOf)
        (environment : EnvironmentOf) (tables : TablesOf) (len router : ℕ) (slot : SlotOf) (held : OspfRecOf) →
        covers destinations destination ≡ true → Stable files destination failures environment tables →
        All (λ a. 0 < a.cost) (adjacencies files) → len < LENGTHS → slot_at tables router len ≡ Some slot →
        slot.ospf ≡ Some held → (origin : OspfRecOf) × Contains (origins_at files destinations len) origin
        × (origin.kind ≡ held.kind) × (origin.metric ≡ held.metric) }
    ensures cost { (files : ListOf FileOf) (destinations : PrefixOf) (destination : AddrOf) (failures : FailuresOf)
        (environment : EnvironmentOf) (tables : TablesOf) (len router : ℕ) (slot : SlotOf) (held : OspfRecOf) →
        covers destinations destination ≡ true → Stable files destination failures environment tables →
        All (λ a. 0 < a.cost) (adjacencies files) → len < LENGTHS → slot_at tables router len ≡ Some slot →
        slot.ospf ≡ Some held → held.cost ≤ dearest_of (origins_at files destinations len) + dearest_walk files }
    ensures nothing { (files : ListOf FileOf) (destinations : PrefixOf) (destination : AddrOf) (failures : FailuresOf)
        (environment : EnvironmentOf) (tables : TablesOf) (len router : ℕ) (slot : SlotOf) →
        covers destinations destination ≡ true → Stable files destination failures environment tables →
        All (λ a. 0 < a.cost) (adjacencies files) → len < LENGTHS → origins_at files destinations len ≡ [] →
        slot_at tables router len ≡ Some slot → slot.ospf ≡ None }
    ensures fits { (files : ListOf FileOf) (destinations : PrefixOf) (destination : AddrOf) (failures : FailuresOf)
        (environment : EnvironmentOf) (tables : TablesOf) (len router : ℕ) (slot : SlotOf) (held : OspfRecOf) →
        covers destinations destination ≡ true → Stable files destination failures environment tables →
        All (λ a. 0 < a.cost) (adjacencies files) → len < LENGTHS → slot_at tables router len ≡ Some slot →
        slot.ospf ≡ Some held →
        (room : RoomOf) × (room_for files destinations router len ≡ Some room) × FitsIn room held }
{}

/// Where nothing can stand in a slot nothing stands in any stable routing: no OSPF route, no BGP route, no entry (`empty`).
/// So where a plan has a slice at each length at which something can stand, nothing stands off its used places
/// (`off_places`). And an empty slot is stable there, in any tables in which no router holds an OSPF route of a length
/// without room (`stable`).
pub fn unused_law()
    ensures empty { (files : ListOf FileOf) (destinations : PrefixOf) (destination : AddrOf) (failures : FailuresOf)
        (environment : EnvironmentOf) (tables : TablesOf) (len router : ℕ) (slot : SlotOf) →
        covers destinations destination ≡ true → Stable files destination failures environment tables →
        All (λ a. 0 < a.cost) (adjacencies files) → len < LENGTHS → slot_at tables router len ≡ Some slot →
        can_be_used files destinations router len ≡ false → slot ≡ empty_slot }
    ensures off_places { (files : ListOf FileOf) (destinations : PrefixOf) (destination : AddrOf) (failures : FailuresOf)
        (environment : EnvironmentOf) (tables : TablesOf) (plan : PlanOf) (len router : ℕ) (slot : SlotOf) →
        covers destinations destination ≡ true → Stable files destination failures environment tables →
        All (λ a. 0 < a.cost) (adjacencies files) → HasUsed files destinations plan → router < length files →
        len < LENGTHS → slot_at tables router len ≡ Some slot →
        has_place (used_among files destinations (places_of plan (length files))) router len ≡ false →
        slot ≡ empty_slot }
    ensures stable { (files : ListOf FileOf) (destinations : PrefixOf) (destination : AddrOf) (failures : FailuresOf)
        (environment : EnvironmentOf) (tables : TablesOf) (len router : ℕ) (file : FileOf) →
        covers destinations destination ≡ true → slice_get files router ≡ Some file → len < LENGTHS →
        can_be_used files destinations router len ≡ false → slot_at tables router len ≡ Some empty_slot →
        ((r : ℕ) (slot : SlotOf) → room_at files destinations len ≡ None → slot_at tables r len ≡ Some slot →
        slot.ospf ≡ None) →
        IsStableSlot files failures environment tables router file (prefix_at destination len) empty_slot }
{}
