//! What is made of the parts of a slot that are looked at is what the definitions of the network make of the slot. Each
//! function only carries its law.

ghost use Rattle.std.specs.Prelude.{◌≡◌, ℕ, Bool, List as ListOf, option_map, true};
ghost use Rattle.mw_text.specs.declared.address.Prefix.{Prefix as PrefixOf};
ghost use Rattle.ios_ast.specs.declared.file.File.{File as FileOf};
ghost use Rattle.ios_ast.specs.declared.ospf.Ospf.{Ospf as OspfOf};
ghost use Rattle.net_parts.specs.Entries.{entry_with};
ghost use Rattle.net_parts.specs.Origins.{redistributed};
ghost use Rattle.route_record.specs.declared.Failures.{Failures as FailuresOf};
ghost use Rattle.route_record.specs.declared.Slot.{Slot as SlotOf};
ghost use Rattle.route_record.specs.declared.tracked.Tracked.{Tracked as TrackedOf};
ghost use Rattle.route_shapes.specs.Bgp.{bgp_shape, learnt_number};
ghost use Rattle.route_shapes.specs.Shapes.{all_tracked};
ghost use Rattle.sym_rib.specs.Redistributed.{shape_redistributed};
ghost use Rattle.sym_rib.specs.Sources.{entry_from};

/// The entry of a table for a slot follows from the number that tells where its BGP route was learnt, and from its OSPF
/// route (`entry`); what OSPF takes from the table, from the shape of its BGP route and from its entry, where the values
/// that the lists of the file test are tracked (`redistributed`).
pub fn parts_law()
    ensures entry { (files : ListOf FileOf) (failures : FailuresOf) (router : ℕ) (file : FileOf) (p : PrefixOf)
        (slot : SlotOf) (own : Bool) →
        entry_from files failures router file p (option_map (λ h. learnt_number h.from) slot.bgp) slot.ospf own
        ≡ entry_with files failures router file p slot own }
    ensures redistributed { (tracked : TrackedOf) (file : FileOf) (process : OspfOf) (p : PrefixOf) (slot : SlotOf) →
        all_tracked tracked file.policies ≡ true →
        shape_redistributed tracked file process p (option_map (bgp_shape tracked) slot.bgp) slot.rib
        ≡ redistributed file process p slot }
{}
