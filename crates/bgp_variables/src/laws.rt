//! Laws about the variables of BGP. Each function only carries its law.

ghost use Rattle.std.specs.Prelude.{◌≡◌, ◌+◌, ◌<◌, ℕ, All, Bool, length, List as ListOf, Option as OptionOf, option_map, slice_get, Some, true};
ghost use Rattle.std.specs.List.{list_all};
ghost use Rattle.mw_text.specs.declared.address.Addr.{Addr as AddrOf};
ghost use Rattle.mw_text.specs.declared.address.Prefix.{Prefix as PrefixOf};
ghost use Rattle.ios_ast.specs.Deciding.{carries};
ghost use Rattle.ios_ast.specs.declared.bgp.Neighbour.{Neighbour as NeighbourOf};
ghost use Rattle.ios_ast.specs.declared.file.File.{File as FileOf};
ghost use Rattle.ios_ast.specs.Limits.{keeps_limits};
ghost use Rattle.route_record.specs.declared.Environment.{Environment as EnvironmentOf};
ghost use Rattle.route_record.specs.declared.Failures.{Failures as FailuresOf};
ghost use Rattle.route_record.specs.declared.Slot.{Slot as SlotOf};
ghost use Rattle.route_record.specs.declared.Tables.{Tables as TablesOf};
ghost use Rattle.route_record.specs.declared.TheConstants.{LENGTHS};
ghost use Rattle.route_record.specs.declared.tracked.Tracked.{Tracked as TrackedOf};
ghost use Rattle.route_record.specs.Fits.{IsAddress};
ghost use Rattle.route_record.specs.Places.{slot_at};
ghost use Rattle.net_parts.specs.declared.sessions.SessionEnd.{SessionEnd as SessionEndOf};
ghost use Rattle.net_parts.specs.Sessions.{ends_of, is_outside, neighbour_of};
ghost use Rattle.net_parts.specs.Stable.{Stable};
ghost use Rattle.net_parts.specs.Tracked.{TracksNet};
ghost use Rattle.net_parts.specs.World.{IsEnvironment, is_word};
ghost use Rattle.route_shapes.specs.Bgp.{BgpShape, bgp_shape};
ghost use Rattle.failed_links.specs.Rows.{IsAt};
ghost use Rattle.bgp_shapes.specs.Candidates.{ShapeAnnouncement, ShapeEnvironment, ShapeSlot, shape_announced, shape_arriving};
ghost use Rattle.announced_places.specs.Announced.{Ascend};
ghost use Rattle.announced_places.specs.Environments.{announcement_of, environment_of};
ghost use Rattle.announced_shapes.specs.Announcements.{IsAnnouncementShape, is_announcement_shape};
ghost use Rattle.bgp_variables.specs.Announced.{is_announced};
ghost use Rattle.bgp_variables.specs.declared.rooms.BgpRoom.{BgpRoom as BgpRoomOf};
ghost use Rattle.bgp_variables.specs.Environments.{announced_from, announced_rooms, arrivals, environment_bits, environment_width, ids_from, peers_count};
ghost use Rattle.bgp_variables.specs.Rooms.{announcement_room, bgp_room};
ghost use Rattle.bgp_variables.specs.Shapes.{FitBgpRooms, FitsBgpRoom, FitsShape, bgp_bits, bgp_from, bgp_width, bgps_bits, bgps_from, bgps_width, shape_from};

/// A route that fits its room is read from its bits, and so are routes one after another.
pub fn reading_law()
    ensures one { (room : OptionOf BgpRoomOf) (x : OptionOf BgpShape) (v : ℕ → Bool) (from : ℕ) (rest : ListOf Bool) →
        FitsBgpRoom room x → IsAt v from (bgp_bits room x rest) →
        (bgp_from room v from ≡ x) × IsAt v (from + bgp_width room) rest }
    ensures all { (rooms : ListOf (OptionOf BgpRoomOf)) (xs : ListOf (OptionOf BgpShape)) (v : ℕ → Bool) (from : ℕ)
        (rest : ListOf Bool) → FitBgpRooms rooms xs → IsAt v from (bgps_bits rooms xs rest) →
        (bgps_from rooms v from ≡ xs) × IsAt v (from + bgps_width rooms) rest }
{}

/// In a stable routing what a slot holds fits its room: no route where none can come, its weight, local preference, next
/// hop and first AS number are among those that lines of the files say, the path has at most 255 numbers, and the cluster
/// list names each reflector of the network at most once (RFC 4456, section 8).
pub fn held_law()
    ensures { (files : ListOf FileOf) (destination : AddrOf) (failures : FailuresOf) (environment : EnvironmentOf)
        (tables : TablesOf) (tracked : TrackedOf) → TracksNet files tracked → list_all keeps_limits files ≡ true →
        IsEnvironment files environment → Stable files destination failures environment tables → (router len : ℕ)
        (slot : SlotOf) → len < LENGTHS → slot_at tables router len ≡ Some slot →
        FitsBgpRoom (bgp_room tracked files router len) (option_map (bgp_shape tracked) slot.bgp) }
{}

/// What an external peer may announce fits the room of its announcements, as the message that arrives of it.
pub fn announcement_law()
    ensures { (files : ListOf FileOf) (tracked : TrackedOf) (s : ShapeAnnouncement) →
        (is : IsAnnouncementShape files tracked s) →
        FitsShape (announcement_room tracked is.peer.neighbour) (shape_announced tracked is.peer.neighbour.addr s) }
{}

/// Identifiers and announcements are read from their bits, and what the peers may announce fits the rooms.
pub fn environment_law()
    ensures read { (tracked : TrackedOf) (files : ListOf FileOf) (lens : ListOf ℕ) (ids : ListOf AddrOf)
        (shapes : ListOf (OptionOf BgpShape)) (v : ℕ → Bool) (from : ℕ) (rest : ListOf Bool) →
        length ids ≡ peers_count files → All IsAddress ids →
        FitBgpRooms (announced_rooms tracked files (length lens)) shapes →
        IsAt v from (environment_bits tracked files lens ids shapes rest) →
        (ids_from files v from ≡ ids) × (announced_from tracked files lens v from ≡ shapes)
        × IsAt v (from + environment_width tracked files lens) rest }
    ensures fits { (tracked : TrackedOf) (files : ListOf FileOf) (announced : ListOf ShapeAnnouncement) (lens : ListOf ℕ) →
        All (IsAnnouncementShape files tracked) announced →
        FitBgpRooms (announced_rooms tracked files (length lens)) (arrivals tracked files lens announced) }
{}

/// The environment of the messages at all places is that of the announcements, as far as routers look at it: the same
/// arrives over each session for a prefix of one of these lengths.
pub fn arriving_law()
    ensures { (tracked : TrackedOf) (files : ListOf FileOf) (s : ShapeEnvironment) (lens : ListOf ℕ)
        (slots : ℕ → OptionOf ShapeSlot) (p : PrefixOf) (at : ℕ) (end : SessionEndOf) →
        All (IsAnnouncementShape files tracked) s.announced → Ascend lens → carries lens p.len ≡ true →
        slice_get (ends_of files) at ≡ Some end →
        shape_arriving tracked files (environment_of files lens s.ids (arrivals tracked files lens s.announced)) slots p at end
        ≡ shape_arriving tracked files s slots p at end }
{}

/// Where tracked communities have 32 bits, what is asked of an announcement of new variables is all that its peer may
/// announce: one of an external end at a length.
pub fn test_law()
    ensures { (files : ListOf FileOf) (tracked : TrackedOf) (at : ℕ) (end : SessionEndOf) (neighbour : NeighbourOf)
        (len : ℕ) (v : ℕ → Bool) (from : ℕ) → slice_get (ends_of files) at ≡ Some end → is_outside end.far ≡ true →
        neighbour_of files end ≡ Some neighbour → len < LENGTHS → list_all is_word tracked.communities ≡ true →
        is_announcement_shape files tracked
        (announcement_of at len (shape_from (announcement_room tracked neighbour) v from))
        ≡ is_announced tracked neighbour.asn (shape_from (announcement_room tracked neighbour) v from) }
{}
