//! A law about what is read of variables. The function only carries it.

ghost use Rattle.std.specs.Prelude.{◌≡◌};
ghost use Rattle.route_record.specs.declared.BgpRec.{BgpRec as BgpRecOf};
ghost use Rattle.route_record.specs.declared.tracked.Tracked.{Tracked as TrackedOf};
ghost use Rattle.route_shapes.specs.Bgp.{bgp_shape};
ghost use Rattle.bgp_values.specs.Told.{as_told};

/// The shapes of real routes are read as they are.
pub fn real_law()
    ensures { (tracked : TrackedOf) (r : BgpRecOf) → as_told (bgp_shape tracked r) ≡ bgp_shape tracked r }
{}
