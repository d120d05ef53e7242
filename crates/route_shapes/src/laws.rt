//! Laws about the shapes of routes. Each function only carries its law.

ghost use Rattle.std.specs.Prelude.{◌≡◌, Bool, true, List as ListOf};
ghost use Rattle.std.specs.Option.{option_map};
ghost use Rattle.mw_text.specs.declared.address.Prefix.{Prefix as PrefixOf};
ghost use Rattle.ios_ast.specs.declared.policies.MapEntry.{MapEntry as MapEntryOf};
ghost use Rattle.ios_ast.specs.declared.policies.Policies.{Policies as PoliciesOf};
ghost use Rattle.ios_ast.specs.Maps.{mapped};
ghost use Rattle.ios_ast.specs.Setting.{Attributes};
ghost use Rattle.route_record.specs.declared.tracked.Tracked.{Tracked as TrackedOf};
ghost use Rattle.route_shapes.specs.Shapes.{all_tracked, route_shape, shape_mapped};

/// A route map makes of the shape of a route the shape of what it makes of the route, on each side of its use, whatever
/// the length of the path: the values that its lists test are tracked, and that is all that it asks.
pub fn route_map_law()
    ensures { (policies : PoliciesOf) (entries : ListOf MapEntryOf) (tracked : TrackedOf) (p : PrefixOf)
        (external : Bool) (r : Attributes) → all_tracked tracked policies ≡ true →
        shape_mapped policies entries tracked p external (route_shape tracked r)
        ≡ option_map (route_shape tracked) (mapped policies entries p external r) }
{}
