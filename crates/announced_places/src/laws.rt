//! Laws about announcements by place. Each function only carries its law.

ghost use Rattle.std.specs.Prelude.{◌≡◌, ◌==◌, ◌&&◌, ◌*◌, ℕ, AllPairs, length, List as ListOf, option_map, slice_get, Some, take};
ghost use Rattle.std.specs.Prelude.{Option as OptionOf, true};
ghost use Rattle.std.specs.List.{find};
ghost use Rattle.mw_text.specs.declared.address.Addr.{Addr as AddrOf};
ghost use Rattle.ios_ast.specs.declared.file.File.{File as FileOf};
ghost use Rattle.net_parts.specs.declared.sessions.SessionEnd.{SessionEnd as SessionEndOf};
ghost use Rattle.net_parts.specs.Decisions.{external_count};
ghost use Rattle.net_parts.specs.Sessions.{ends_of, external_ends, is_outside};
ghost use Rattle.route_record.specs.declared.Plan.{Plan as PlanOf};
ghost use Rattle.plan_places.specs.Plans.{lens_of};
ghost use Rattle.plan_places.specs.Places.{IsBefore, item_at, places_below};
ghost use Rattle.route_shapes.specs.Bgp.{BgpShape};
ghost use Rattle.announced_places.specs.Announced.{Ascend, thing_at, thing_over};
ghost use Rattle.announced_places.specs.Environments.{announcement_of, environment_of, external_places, stands_at};

/// In the environment of shapes by place an end announces at a length what stands there, and nothing else (`found`); the
/// announcements stand in the order of their places (`order`).
pub fn environment_law()
    ensures found { (files : ListOf FileOf) (lens : ListOf ℕ) (ids : ListOf AddrOf) (shapes : ListOf (OptionOf BgpShape))
        (end len : ℕ) → Ascend lens →
        find (λ a. (a.end == end) && (a.len == len)) (environment_of files lens ids shapes).announced
        ≡ option_map (announcement_of end len) (thing_at (external_places files) lens shapes end len) }
    ensures order { (files : ListOf FileOf) (lens : ListOf ℕ) (ids : ListOf AddrOf) (shapes : ListOf (OptionOf BgpShape)) →
        Ascend lens →
        AllPairs (λ a b. IsBefore (stands_at a) (stands_at b)) (environment_of files lens ids shapes).announced }
{}

/// The lengths of a plan ascend.
pub fn lens_law()
    ensures { (plan : PlanOf) → Ascend (lens_of plan) }
{}

/// The external ends stand in the order of their places. One that stands at a place has as many external ends before it
/// as its own place among them says; and what stands at its place and a length stands there in the rows of all external
/// ends, by that number.
pub fn external_law()
    ensures ascend { (files : ListOf FileOf) → Ascend (external_places files) }
    ensures many { (files : ListOf FileOf) → length (external_places files) ≡ length (external_ends files) }
    ensures place { (files : ListOf FileOf) (at : ℕ) (end : SessionEndOf) → slice_get (ends_of files) at ≡ Some end →
        is_outside end.far ≡ true →
        slice_get (external_places files) (external_count (take at (ends_of files))) ≡ Some at }
    ensures row { (files : ListOf FileOf) (lens : ListOf ℕ) (shapes : ListOf (OptionOf BgpShape)) (at len : ℕ)
        (end : SessionEndOf) → slice_get (ends_of files) at ≡ Some end → is_outside end.far ≡ true →
        thing_at (external_places files) lens shapes at len
        ≡ thing_over (places_below lens (length (external_ends files))) shapes (external_count (take at (ends_of files)))
        len }
{}
