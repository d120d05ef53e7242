//! Laws about values that two networks track. Each function only carries its law.

ghost use Rattle.std.specs.Prelude.{◌≡◌};
ghost use Rattle.route_record.specs.declared.tracked.Tracked.{Tracked as TrackedOf};
ghost use Rattle.net_parts.specs.Tracked.{united_tracked};
ghost use Rattle.tracked_alike.specs.United.{AreUnited, DoAscend};

/// What two networks track together does not depend on their order, is what it is again where one of them takes it once
/// more, and has exactly the values that either has.
pub fn united_law()
    ensures turned { (one other : TrackedOf) → DoAscend one → DoAscend other →
        united_tracked one other ≡ united_tracked other one }
    ensures again { (one other : TrackedOf) → DoAscend one → DoAscend other →
        united_tracked other (united_tracked one other) ≡ united_tracked one other }
    ensures values { (one other : TrackedOf) → DoAscend one → DoAscend other →
        AreUnited one other (united_tracked one other) }
{}
