//! What walks read of routing tables, and what the layers say of walks. Each function only carries its law.

ghost use Rattle.std.specs.Prelude.{◌≡◌, ℕ, List as ListOf, Option};
ghost use Rattle.ios_ast.specs.declared.file.File.{File};
ghost use Rattle.route_record.specs.declared.World.{World as WorldOf};
ghost use Rattle.question_lang.specs.declared.question.Kind.{Kind as KindOf};
ghost use Rattle.question_lang.specs.declared.walk.Walk.{Walk as WalkOf};
ghost use Rattle.question_lang.specs.Breaking.{Breaks};
ghost use Rattle.question_lang.specs.Hops.{next_hops};
ghost use Rattle.route_record.specs.declared.tracked.Tracked.{Tracked as TrackedOf};
ghost use Rattle.sym_rib.specs.declared.slots.SymSlot.{SymSlot as SymSlotOf};
ghost use Rattle.term_store.specs.Terms.{Reading};
ghost use Rattle.sym_rib.specs.Worlds.{StandForTables, tables_of};

pub use sym_forwarding::laws::{forwardings_law, layers_law};

/// A walk reads of a BGP route its next hop alone: the world with tables and the one with symbolic slots that stand for
/// theirs have the same next hops, and a walk breaks a question in the one exactly where it does in the other.
pub fn tables_law()
    ensures hops { (w : Reading) (tracked : TrackedOf) (lens : ListOf ℕ) (routers : ℕ) (slots : ListOf SymSlotOf)
        (world : WorldOf) → StandForTables w tracked lens routers slots world.tables →
        (files : ListOf File) (router : ℕ) →
        next_hops files (record world { tables = tables_of w lens routers slots }) router
        ≡ next_hops files world router }
    ensures breaks { (w : Reading) (tracked : TrackedOf) (lens : ListOf ℕ) (routers : ℕ) (slots : ListOf SymSlotOf)
        (world : WorldOf) → StandForTables w tracked lens routers slots world.tables → (files : ListOf File)
        (kind : KindOf) (walk : Option WalkOf) → Breaks files world kind walk →
        Breaks files (record world { tables = tables_of w lens routers slots }) kind walk }
    ensures only { (w : Reading) (tracked : TrackedOf) (lens : ListOf ℕ) (routers : ℕ) (slots : ListOf SymSlotOf)
        (world : WorldOf) → StandForTables w tracked lens routers slots world.tables → (files : ListOf File)
        (kind : KindOf) (walk : Option WalkOf) →
        Breaks files (record world { tables = tables_of w lens routers slots }) kind walk →
        Breaks files world kind walk }
{}
