//! Announcements that are made of their shapes.

ghost use Rattle.std.specs.Prelude.{◌≡◌, ◌++◌, true, false, [], ◌∷◌, replicate};
ghost use Rattle.announced_shapes.specs.Paths.{is_path_shape, rebuilt_path, taken};
ghost use Rattle.examples_definitions.specs.Networks.{path_shape};

/// The first number, the marked ones between the ends, the first again as often as the length needs, the last.
pub fn paths_of_shapes()
    ensures worked { rebuilt_path (65001 ∷ 65005 ∷ 65009 ∷ []) (path_shape 4 65001 65009 (true ∷ true ∷ true ∷ [])) ≡ 65001 ∷ 65005 ∷ 65001 ∷ 65009 ∷ [] }
    ensures one { rebuilt_path (65001 ∷ 65005 ∷ []) (path_shape 1 65001 65001 (true ∷ false ∷ [])) ≡ 65001 ∷ [] }
    ensures two { rebuilt_path (65001 ∷ 65005 ∷ []) (path_shape 2 65001 65005 (true ∷ true ∷ [])) ≡ 65001 ∷ 65005 ∷ [] }
    ensures all_marks { rebuilt_path (65002 ∷ 65003 ∷ 65004 ∷ []) (path_shape 5 65001 65009 (true ∷ true ∷ true ∷ [])) ≡ 65001 ∷ 65002 ∷ 65003 ∷ 65004 ∷ 65009 ∷ [] }
    ensures one_end { rebuilt_path (65001 ∷ 65005 ∷ []) (path_shape 3 65001 65001 (true ∷ true ∷ [])) ≡ 65001 ∷ 65005 ∷ 65001 ∷ [] }
    ensures longest { rebuilt_path (65005 ∷ []) (path_shape 255 65001 65009 (false ∷ [])) ≡ replicate 254 65001 ++ 65009 ∷ [] }
    ensures communities { taken (10 ∷ 20 ∷ 30 ∷ []) (true ∷ false ∷ true ∷ []) ≡ 10 ∷ 30 ∷ [] }
{}

/// Which shapes the announcements of a peer in AS 65001 have.
pub fn shapes_of_announcements()
    ensures worked { is_path_shape 65001 (65001 ∷ 65005 ∷ 65009 ∷ []) (path_shape 4 65001 65009 (true ∷ true ∷ true ∷ [])) ≡ true }
    ensures other_peer { is_path_shape 65002 (65001 ∷ 65005 ∷ 65009 ∷ []) (path_shape 4 65001 65009 (true ∷ true ∷ true ∷ [])) ≡ false }
    ensures no_room { is_path_shape 65001 (65003 ∷ 65005 ∷ []) (path_shape 3 65001 65009 (true ∷ true ∷ [])) ≡ false }
    ensures unmarked_end { is_path_shape 65001 (65009 ∷ []) (path_shape 3 65001 65009 (false ∷ [])) ≡ false }
    ensures one_of_two_ends { is_path_shape 65001 [] (path_shape 1 65001 65009 []) ≡ false }
    ensures no_number { is_path_shape 65001 [] (path_shape 0 65001 65001 []) ≡ false }
    ensures longest { is_path_shape 65001 [] (path_shape 255 65001 65009 []) ≡ true }
    ensures too_long { is_path_shape 65001 [] (path_shape 256 65001 65009 []) ≡ false }
    ensures zero { is_path_shape 65001 (0 ∷ []) (path_shape 3 65001 65009 (true ∷ [])) ≡ false }
    ensures mark_wanting { is_path_shape 65001 (65005 ∷ []) (path_shape 3 65001 65009 []) ≡ false }
{}
