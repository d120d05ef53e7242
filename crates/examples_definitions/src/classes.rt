//! The classes of prefix lengths.

ghost use Rattle.std.specs.Prelude.{◌≡◌, ◌++◌, [], ◌∷◌, replicate};
ghost use Rattle.examples_definitions.specs.Networks.{coarsest_plan, filtered, plan, triangle, two_routers};

/// Two routers with a link of length 30 and a static route to a loopback: classes 0, 1 to 29, 30, 31 and 32, of which the
/// second has two slices. A triangle with a loopback that runs OSPF has the same classes, the second with three slices.
/// With a prefix list of one /16 and no loopback: 0, 1 to 15, 16, 17 to 29, 30, 31 to 32, and two slices in each of several
/// lengths.
pub fn coarsest_plans()
    ensures two { coarsest_plan two_routers ≡ plan (0 ∷ replicate 29 1 ++ 2 ∷ 3 ∷ 4 ∷ []) (1 ∷ 2 ∷ 1 ∷ 1 ∷ 1 ∷ []) }
    ensures three { coarsest_plan triangle ≡ plan (0 ∷ replicate 29 1 ++ 2 ∷ 3 ∷ 4 ∷ []) (1 ∷ 3 ∷ 1 ∷ 1 ∷ 1 ∷ []) }
    ensures filtered { coarsest_plan filtered ≡ plan (0 ∷ replicate 15 1 ++ 2 ∷ replicate 13 3 ++ 4 ∷ 5 ∷ 5 ∷ []) (1 ∷ 2 ∷ 1 ∷ 2 ∷ 1 ∷ 2 ∷ []) }
{}
