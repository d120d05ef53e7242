//! Laws of the machine. Each function only carries its law.

ghost use Rattle.std.specs.Prelude.{◌≡◌, ◌↔◌, All, List as ListOf, None, Ok};
ghost use Rattle.std.specs.Bool.{Decides};
ghost use Rattle.mw_text.specs.declared.address.Addr.{Addr as AddrOf};
ghost use Rattle.ios_ast.specs.declared.file.File.{File as FileOf};
ghost use Rattle.route_record.specs.declared.Announcement.{Announcement as AnnouncementOf};
ghost use Rattle.route_record.specs.Fits.{FitsSlot};
ghost use Rattle.net_parts.specs.Stable.{Stable};
ghost use Rattle.net_parts.specs.World.{IsAnnouncement};
ghost use Rattle.machine_laws.specs.declared.state.Event.{Event as EventOf};
ghost use Rattle.machine_laws.specs.declared.state.State.{State as StateOf};
ghost use Rattle.machine_laws.specs.Announcing.{is_announcement};
ghost use Rattle.machine_laws.specs.Events.{AreIds, IsReached, after, start};
ghost use Rattle.machine_laws.specs.Quiet.{IsQuiet, next_event};
ghost use Rattle.machine_laws.specs.Sound.{IsSound};

/// What every list of events keeps, in any order of deliveries, decisions, announcements, cuts and mends: each channel
/// that is up states what its far side sends now, in what was last received and the mail after it.
pub fn reached_law()
    ensures start { (files : ListOf FileOf) (d : AddrOf) (ids : ListOf AddrOf) → AreIds files ids →
        IsReached files d (start files ids) }
    ensures next { (files : ListOf FileOf) (d : AddrOf) (s next : StateOf) (event : EventOf) → IsReached files d s →
        after files d s event ≡ Ok next → IsReached files d next }
    ensures sound { (files : ListOf FileOf) (d : AddrOf) (s : StateOf) → IsReached files d s → IsSound files d s }
{}

/// So the tables of a quiet state are a stable routing for the failures and the environment of that moment.
pub fn quiet_law()
    ensures { (files : ListOf FileOf) (d : AddrOf) (s : StateOf) → IsReached files d s → All FitsSlot s.tables.slots →
        IsQuiet files d s → Stable files d s.failures s.environment s.tables }
{}

/// No event comes next by itself exactly where the state is quiet.
pub fn next_law()
    ensures { (files : ListOf FileOf) (d : AddrOf) (s : StateOf) → (next_event files d s ≡ None) ↔ IsQuiet files d s }
{}

/// The test of an announcement is true exactly of those that their peers may make (RFC 4271, section 4.3).
pub fn announcement_law()
    ensures { (files : ListOf FileOf) (a : AnnouncementOf) →
        Decides (is_announcement files a) (IsAnnouncement files a) }
{}
