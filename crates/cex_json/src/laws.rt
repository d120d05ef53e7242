//! That what was written is read back. Each function only carries its law.

ghost use Rattle.std.specs.Prelude.{◌≡◌, ◌≤◌, ◌<◌, ◌^◌, ◌*◌, ◌/◌, ◌++◌, ◌∷◌, [], List, ℕ, Some, Ok, length};
ghost use Rattle.mw_text.specs.declared.address.Addr.{Addr};
ghost use Rattle.mw_text.specs.declared.address.Prefix.{Prefix};
ghost use Rattle.mw_text.specs.Address.{prefix_at};
ghost use Rattle.mw_text.specs.Digits.{addr_of, prefix_of_text};
ghost use Rattle.ios_ast.specs.declared.file.File.{File};
ghost use Rattle.route_record.specs.declared.BgpRec.{BgpRec};
ghost use Rattle.route_record.specs.declared.OspfRec.{OspfRec};
ghost use Rattle.route_record.specs.declared.Packet.{Packet};
ghost use Rattle.route_record.specs.declared.RibEntry.{RibEntry};
ghost use Rattle.route_record.specs.declared.Slot.{Slot};
ghost use Rattle.route_record.specs.declared.TheConstants.{LENGTHS};
ghost use Rattle.question_lang.specs.declared.question.PacketSet.{PacketSet};
ghost use Rattle.question_lang.specs.declared.question.Question.{Question};
ghost use Rattle.question_lang.specs.Packets.{IsInSet};
ghost use Rattle.cex_json.specs.declared.counterexample.Counterexample.{Counterexample};
ghost use Rattle.cex_json.specs.Entries.{bgp_in, filled, ospf_in, rib_in, slot_at};
ghost use Rattle.cex_json.specs.Fields.{greatest};
ghost use Rattle.cex_json.specs.Parts.{addr_text, bgp_data, ospf_data, packet_data, parts_data, rib_data};
ghost use Rattle.cex_json.specs.Reading.{cex_in, reading};
ghost use Rattle.cex_json.specs.Surroundings.{packet_at};
ghost use Rattle.cex_json.specs.Text.{cex_data, cex_text};
ghost use Rattle.cex_json.specs.Writable.{AreNamed, AreWritableFiles, IsWritable, IsWritableCex, IsWritableNet};
ghost use Rattle.cex_json.specs.Writable.{IsWritableSlot};
ghost use Rattle.cex_json.specs.Worlds.{prefix_text};

/// Addresses and prefixes are read back from their texts; bits past a prefix's length are not.
pub fn texts_law()
    ensures address { (a : Addr) → a.0 < 2 ^ 32 → addr_of (addr_text a) ≡ Some a }
    ensures prefix { (p : Prefix) → p.addr.0 < 2 ^ 32 → p.len ≤ 32 → prefix_of_text (prefix_text p) ≡ Some (prefix_at p.addr p.len) }
{}

/// A packet of the question's set, an OSPF record, a BGP record and an entry of the routing table are read back from
/// their values.
pub fn parts_law()
    ensures packet { (set : PacketSet) (packet : Packet) (at : List ℕ) → IsInSet set packet → packet_at (Some set) at (packet_data packet) ≡ Ok packet }
    ensures ospf { (at : List ℕ) (held : OspfRec) → held.cost ≤ greatest → held.metric ≤ greatest → ospf_in at (ospf_data held) ≡ Ok held }
    ensures bgp { (files : List File) (router : ℕ) (at : List ℕ) (held : BgpRec) → IsWritable files router held → bgp_in files (Some router) at (bgp_data held) ≡ Ok held }
    ensures rib { (at : List ℕ) (entry : RibEntry) → entry.distance ≤ 255 → rib_in at (rib_data entry) ≡ Ok entry }
{}

/// A slot that is written for a place is read back behind those before it, with the empty slots between.
pub fn slot_law()
    ensures { (files : List File) (place : ℕ) (slot : Slot) (so_far : List Slot) (at : List ℕ) → AreNamed files → place < LENGTHS * length files → length so_far ≤ place → IsWritableSlot files (place / LENGTHS) slot → slot_at files at so_far (parts_data files place slot) ≡ Ok (filled so_far place ++ slot ∷ []) }
{}

/// A network is one that a text can speak of where its names are UTF-8, its host names have no blanks, no two
/// interfaces of a router have one name and no two of its neighbour lines one address, and all numbers fit their types.
pub fn network_law()
    ensures { (files : List File) → AreWritableFiles files → IsWritableNet files }
{}

/// A counterexample that was written is read back as it was: from its JSON value, and from its text.
pub fn counterexample_law()
    ensures value { (files : List File) (questions : List Question) (cex : Counterexample) → IsWritableCex files questions cex → cex_in files questions (cex_data files questions cex) ≡ Ok cex }
    ensures text { (files : List File) (questions : List Question) (cex : Counterexample) → IsWritableCex files questions cex → reading files questions (cex_text files questions cex) ≡ Ok cex }
{}
