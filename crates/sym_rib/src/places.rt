//! The symbolic slot of a router for a prefix length.

ghost use Rattle.std.specs.Prelude.{◌≡◌, ◌≤◌, IfSome, option_copied};
ghost use Rattle.sym_rib.specs.Slots.{slot_end};
ghost use Rattle.sym_rib.specs.Worlds.{slot_placed, slots_end};

use crate::slots::{SymSlot, SymTables};
use plan_places::item_among;

// The same, without what is known of its nodes.
fn slot_there<'a>(tables: &SymTables<'a>, router: u32, len: u8) -> Option<&'a SymSlot>
    ensures { option_copied result ≡ slot_placed tables.now router len }
{
    item_among(tables.lens, tables.slots, router, len)
}

/// The symbolic slot of a router for a prefix length. None exactly where no slot stands there: at a length at which no
/// slice of the plan does, and at a number that is no router's.
pub fn slot_for<'a>(tables: &SymTables<'a>, router: u32, len: u8) -> Option<&'a SymSlot>
    ensures place { option_copied result ≡ slot_placed tables.now router len }
    ensures within { IfSome result (λ r. slot_end r.now ≤ slots_end tables.now.slots.now) }
{
    slot_there(tables, router, len)
}
