//! What the definition of reading says of every file. The function only carries its law.

ghost use Rattle.std.specs.Prelude.{◌≡◌, ◌≤◌, ℕ, List, Ok, true};
ghost use Rattle.ios_ast.specs.Limits.{keeps_limits};
ghost use Rattle.ios_ast.specs.declared.file.File.{File};
ghost use Rattle.ios_ast.specs.declared.file.TheConstants.{MOST_POLICY_ENTRIES};
ghost use Rattle.ios_policy_reader.specs.Lists.{policy_entries};
ghost use Rattle.ios_reader.specs.Reading.{reading};

/// The file that a text reads as keeps the limits of a file: not too many interfaces and neighbours, OSPF costs in
/// their range, the lengths of prefix lists in their order, each neighbour named once, and addresses by different
/// lines; and it has not too many entries of lists and route maps.
pub fn limits_law()
    ensures limits { (bytes : List ℕ) (file : File) → reading bytes ≡ Ok file → keeps_limits file ≡ true }
    ensures entries { (bytes : List ℕ) (file : File) → reading bytes ≡ Ok file → policy_entries file.policies ≤ MOST_POLICY_ENTRIES }
{}
