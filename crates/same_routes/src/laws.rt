//! The law of the tests. The function only carries it.

ghost use Rattle.std.specs.Prelude.{◌≡◌, Option as OptionOf};
ghost use Rattle.std.specs.Bool.{Decides};
ghost use Rattle.route_record.specs.declared.BgpRec.{BgpRec as BgpRecOf};
ghost use Rattle.route_record.specs.declared.OspfRec.{OspfRec as OspfRecOf};
ghost use Rattle.route_record.specs.declared.RibEntry.{RibEntry as RibEntryOf};
ghost use Rattle.route_record.specs.declared.Slot.{Slot as SlotOf};
ghost use Rattle.same_routes.specs.Same.{same_rec};
ghost use Rattle.same_routes.specs.Slots.{same_bgp, same_ospf, same_rib, same_slot};

/// Each test is true exactly where both are equal.
pub fn same_law()
    ensures route { (a b : BgpRecOf) → Decides (same_rec a b) (a ≡ b) }
    ensures ospf { (a b : OptionOf OspfRecOf) → Decides (same_ospf a b) (a ≡ b) }
    ensures bgp { (a b : OptionOf BgpRecOf) → Decides (same_bgp a b) (a ≡ b) }
    ensures rib { (a b : OptionOf RibEntryOf) → Decides (same_rib a b) (a ≡ b) }
    ensures slot { (a b : SlotOf) → Decides (same_slot a b) (a ≡ b) }
{}
