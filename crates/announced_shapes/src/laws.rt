//! Laws about announcements and their shapes. Each function only carries its law.

ghost use Rattle.std.specs.Prelude.{◌≡◌, List as ListOf, true};
ghost use Rattle.ios_ast.specs.declared.file.File.{File as FileOf};
ghost use Rattle.route_record.specs.declared.Announcement.{Announcement as AnnouncementOf};
ghost use Rattle.route_record.specs.declared.Environment.{Environment as EnvironmentOf};
ghost use Rattle.route_record.specs.declared.tracked.Tracked.{Tracked as TrackedOf};
ghost use Rattle.net_parts.specs.World.{IsAnnouncement, IsEnvironment, ascends};
ghost use Rattle.bgp_shapes.specs.Candidates.{ShapeAnnouncement, ShapeEnvironment, announcement_shape};
ghost use Rattle.bgp_shapes.specs.Candidates.{environment_shape};
ghost use Rattle.announced_shapes.specs.Announcements.{IsAnnouncementShape, is_announcement_shape};
ghost use Rattle.announced_shapes.specs.Announcements.{rebuilt_announcement};
ghost use Rattle.announced_shapes.specs.Environments.{IsShapeEnvironment, rebuilt_environment};

/// The test of a shape is true exactly of the shapes of what external peers may announce.
pub fn test_law()
    ensures tested { (files : ListOf FileOf) (tracked : TrackedOf) (s : ShapeAnnouncement) →
        is_announcement_shape files tracked s ≡ true → IsAnnouncementShape files tracked s }
    ensures passes { (files : ListOf FileOf) (tracked : TrackedOf) (s : ShapeAnnouncement) →
        IsAnnouncementShape files tracked s → is_announcement_shape files tracked s ≡ true }
{}

/// The announcement that is made of such a shape has the shape, and its peer may make it (RFC 4271, section 4.3).
pub fn rebuilt_law()
    ensures shape { (files : ListOf FileOf) (tracked : TrackedOf) (s : ShapeAnnouncement) →
        ascends tracked.numbers ≡ true → ascends tracked.communities ≡ true → IsAnnouncementShape files tracked s →
        announcement_shape tracked (rebuilt_announcement tracked s) ≡ s }
    ensures may { (files : ListOf FileOf) (tracked : TrackedOf) (s : ShapeAnnouncement) →
        ascends tracked.numbers ≡ true → ascends tracked.communities ≡ true → IsAnnouncementShape files tracked s →
        IsAnnouncement files (rebuilt_announcement tracked s) }
{}

/// What an external peer may announce has such a shape.
pub fn announced_law()
    ensures { (files : ListOf FileOf) (tracked : TrackedOf) (a : AnnouncementOf) → ascends tracked.numbers ≡ true →
        IsAnnouncement files a → IsAnnouncementShape files tracked (announcement_shape tracked a) }
{}

/// The environment that is made of shapes has these shapes, and is one that the peers may make; and each environment has
/// such shapes.
pub fn environment_law()
    ensures shape { (files : ListOf FileOf) (tracked : TrackedOf) (s : ShapeEnvironment) →
        ascends tracked.numbers ≡ true → ascends tracked.communities ≡ true → IsShapeEnvironment files tracked s →
        environment_shape tracked (rebuilt_environment tracked s) ≡ s }
    ensures may { (files : ListOf FileOf) (tracked : TrackedOf) (s : ShapeEnvironment) →
        ascends tracked.numbers ≡ true → ascends tracked.communities ≡ true → IsShapeEnvironment files tracked s →
        IsEnvironment files (rebuilt_environment tracked s) }
    ensures shapes { (files : ListOf FileOf) (tracked : TrackedOf) (environment : EnvironmentOf) →
        ascends tracked.numbers ≡ true → IsEnvironment files environment →
        IsShapeEnvironment files tracked (environment_shape tracked environment) }
{}
