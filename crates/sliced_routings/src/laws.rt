//! Laws of length classes. Each function only carries its law.

ghost use Rattle.std.specs.Prelude.{◌≡◌, ◌<◌, ℕ, List as ListOf, Option as OptionOf, false, length};
ghost use Rattle.alike_prefixes.specs.Alike.{IsBare};
ghost use Rattle.ios_ast.specs.declared.file.File.{File as FileOf};
ghost use Rattle.mw_text.specs.declared.address.Addr.{Addr as AddrOf};
ghost use Rattle.mw_text.specs.Address.{prefix_at};
ghost use Rattle.plan_places.specs.Plans.{has_slice};
ghost use Rattle.question_lang.specs.declared.question.Question.{Question as QuestionOf};
ghost use Rattle.question_lang.specs.declared.walk.Walk.{Walk as WalkOf};
ghost use Rattle.question_lang.specs.Breaking.{IsBreakable, IsBreaking};
ghost use Rattle.route_record.specs.declared.Environment.{Environment as EnvironmentOf};
ghost use Rattle.route_record.specs.declared.Plan.{Plan as PlanOf};
ghost use Rattle.route_record.specs.declared.TheConstants.{LENGTHS};
ghost use Rattle.route_record.specs.declared.World.{World as WorldOf};
ghost use Rattle.sliced_routings.specs.Plans.{IsFittingPlan};
ghost use Rattle.sliced_routings.specs.Slicing.{HasSlicedBreak, IsSlicedBreakable};

/// For every fitting plan a stable routing that breaks the question exists exactly where a sliced one does, each with its
/// packet, environment and failures. To each routing that breaks it there is a sliced one for the same packet, with the
/// same failures, that breaks it by the same walk: its routes, and the announcements from outside, are moved to the first
/// lengths of their classes.
pub fn sliced_law()
    ensures sliced { (files : ListOf FileOf) (question : QuestionOf) (plan : PlanOf) → IsFittingPlan files plan →
        (world : WorldOf) (environment : EnvironmentOf) (walk : OptionOf WalkOf) →
        IsBreaking files question world environment walk → HasSlicedBreak files question plan world environment walk }
    ensures there { (files : ListOf FileOf) (question : QuestionOf) (plan : PlanOf) → IsFittingPlan files plan →
        IsBreakable files question → IsSlicedBreakable files question plan }
    ensures back { (files : ListOf FileOf) (question : QuestionOf) (plan : PlanOf) → IsFittingPlan files plan →
        IsSlicedBreakable files question plan → IsBreakable files question }
{}

/// At a length without a slice of a plan that fits no line of the files gives anything, for any destination: the length is
/// one of a class that has more of them than there are routers.
pub fn bare_law()
    ensures { (files : ListOf FileOf) (plan : PlanOf) → IsFittingPlan files plan → 0 < length files → (d : AddrOf)
        (len : ℕ) → len < LENGTHS → has_slice plan len ≡ false → IsBare files (prefix_at d len) }
{}
