//! Laws about the worlds of values of variables. Each function only carries its law.

ghost use Rattle.std.specs.Prelude.{◌≡◌, ℕ, Bool, List as ListOf, true};
ghost use Rattle.ios_ast.specs.declared.file.File.{File as FileOf};
ghost use Rattle.route_record.specs.declared.Environment.{Environment as EnvironmentOf};
ghost use Rattle.route_record.specs.declared.Plan.{Plan as PlanOf};
ghost use Rattle.route_record.specs.declared.tracked.Tracked.{Tracked as TrackedOf};
ghost use Rattle.route_record.specs.declared.World.{World as WorldOf};
ghost use Rattle.question_lang.specs.declared.question.Question.{Question as QuestionOf};
ghost use Rattle.sliced_routings.specs.Plans.{IsFittingPlan};
ghost use Rattle.sliced_routings.specs.Slicing.{IsSliced};
ghost use Rattle.failed_links.specs.Rows.{IsAt};
ghost use Rattle.shape_worlds.specs.Worlds.{shapes_of};
ghost use Rattle.routing_worlds.specs.Worlds.{HasWordNetwork, IsRouting, environment_from, is_routing, shape_world_from};
ghost use Rattle.routing_worlds.specs.Worlds.{world_bits, world_from, worlds_end};

/// Values of variables stand for a world by shapes, whatever they are. Where they pass the test, the real world and the
/// environment that are made of it have these shapes (`shapes`) and stand at the slices of the plan alone (`sliced`); and
/// they are a routing of the question, where the plan fits the files (`routing`). Every number fits its field.
pub fn sound_law()
    ensures routing { (files : ListOf FileOf) (tracked : TrackedOf) (question : QuestionOf) (plan : PlanOf)
        (v : ℕ → Bool) (from : ℕ) → HasWordNetwork files tracked question → IsFittingPlan files plan →
        is_routing files tracked question plan v from ≡ true →
        IsRouting files question (world_from files tracked question plan v from)
        (environment_from files tracked question plan v from) }
    ensures sliced { (files : ListOf FileOf) (tracked : TrackedOf) (question : QuestionOf) (plan : PlanOf)
        (v : ℕ → Bool) (from : ℕ) → HasWordNetwork files tracked question →
        is_routing files tracked question plan v from ≡ true →
        IsSliced plan (world_from files tracked question plan v from)
        (environment_from files tracked question plan v from) }
    ensures shapes { (files : ListOf FileOf) (tracked : TrackedOf) (question : QuestionOf) (plan : PlanOf)
        (v : ℕ → Bool) (from : ℕ) → HasWordNetwork files tracked question →
        is_routing files tracked question plan v from ≡ true →
        shapes_of tracked (world_from files tracked question plan v from)
        (environment_from files tracked question plan v from) ≡ shape_world_from files tracked question plan v from }
{}

/// The shapes of a routing of the question that stands at the slices of a plan alone are read from its own bits (`read`),
/// which pass the test (`passes`), and what stands behind its bits is read behind its variables (`behind`).
pub fn complete_law()
    ensures read { (files : ListOf FileOf) (tracked : TrackedOf) (question : QuestionOf) (plan : PlanOf)
        (world : WorldOf) (environment : EnvironmentOf) (rest : ListOf Bool) (v : ℕ → Bool) (from : ℕ) →
        HasWordNetwork files tracked question → IsSliced plan world environment →
        IsRouting files question world environment →
        IsAt v from (world_bits files tracked question plan world environment rest) →
        shape_world_from files tracked question plan v from ≡ shapes_of tracked world environment }
    ensures passes { (files : ListOf FileOf) (tracked : TrackedOf) (question : QuestionOf) (plan : PlanOf)
        (world : WorldOf) (environment : EnvironmentOf) (rest : ListOf Bool) (v : ℕ → Bool) (from : ℕ) →
        HasWordNetwork files tracked question → IsSliced plan world environment →
        IsRouting files question world environment →
        IsAt v from (world_bits files tracked question plan world environment rest) →
        is_routing files tracked question plan v from ≡ true }
    ensures behind { (files : ListOf FileOf) (tracked : TrackedOf) (question : QuestionOf) (plan : PlanOf)
        (world : WorldOf) (environment : EnvironmentOf) (rest : ListOf Bool) (v : ℕ → Bool) (from : ℕ) →
        HasWordNetwork files tracked question → IsSliced plan world environment →
        IsRouting files question world environment →
        IsAt v from (world_bits files tracked question plan world environment rest) →
        IsAt v (worlds_end files tracked question plan from) rest }
{}
