//! What two environments have in common by the shapes of their announcements. Each function only carries its law.

ghost use Rattle.std.specs.Prelude.{List as ListOf};
ghost use Rattle.ios_ast.specs.declared.file.File.{File as FileOf};
ghost use Rattle.route_record.specs.declared.Environment.{Environment as EnvironmentOf};
ghost use Rattle.route_record.specs.declared.tracked.Tracked.{Tracked as TrackedOf};
ghost use Rattle.bgp_shapes.specs.Candidates.{ShapeEnvironment, environment_shape};
ghost use Rattle.announced_shapes.specs.Environments.{rebuilt_environment};
ghost use Rattle.paired_nets.specs.Common.{AreCommon};
ghost use Rattle.peers_beside.specs.Shared.{AreCommonShapes};

/// Environments that are made of shapes are parts of one where their shapes are (`from`); and where environments are
/// parts of one, their shapes are (`to`).
pub fn common_law()
    ensures from { (tracked : TrackedOf) (left right : ListOf FileOf) (one other : ShapeEnvironment) →
        AreCommonShapes left right one other →
        AreCommon left right (rebuilt_environment tracked one) (rebuilt_environment tracked other) }
    ensures to { (tracked : TrackedOf) (left right : ListOf FileOf) (around about : EnvironmentOf) →
        AreCommon left right around about →
        AreCommonShapes left right (environment_shape tracked around) (environment_shape tracked about) }
{}
