//! The law on silent routers. Its function only carries it.

ghost use Rattle.std.specs.Prelude.{◌≡◌, ℕ, List as ListOf, Option as OptionOf};
ghost use Rattle.mw_text.specs.declared.address.Prefix.{Prefix as PrefixOf};
ghost use Rattle.ios_ast.specs.declared.file.File.{File as FileOf};
ghost use Rattle.route_record.specs.declared.Failures.{Failures as FailuresOf};
ghost use Rattle.route_record.specs.declared.tracked.Tracked.{Tracked as TrackedOf};
ghost use Rattle.route_shapes.specs.Bgp.{BgpShape};
ghost use Rattle.bgp_shapes.specs.Candidates.{ShapeEnvironment, ShapeSlot};
ghost use Rattle.rebuilt_routes.specs.Deciding.{is_decided_shape};
ghost use Rattle.silent_routers.specs.Silent.{IsSettled, sending};

/// Where each router holds no BGP route, or what the decision process leaves it while the others hold what they hold or
/// while silent ones hold nothing, the decision process leaves each router the same in both.
pub fn silent_law()
    ensures { (tracked : TrackedOf) (files : ListOf FileOf) (failures : FailuresOf) (environment : ShapeEnvironment)
        (p : PrefixOf) (slots others : ℕ → OptionOf ShapeSlot) →
        ((router : ℕ) → IsSettled tracked files failures environment p others slots router) →
        (router : ℕ) (file : FileOf) (held : OptionOf BgpShape) →
        is_decided_shape tracked files failures environment (sending files slots) router file p held
        ≡ is_decided_shape tracked files failures environment slots router file p held }
{}
