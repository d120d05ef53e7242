//! What the layers say of walks. Each function only carries its law.

ghost use Rattle.std.specs.Prelude.{◌≡◌, ℕ, true, List as ListOf, Option, Some, length, slice_get};
ghost use Rattle.ios_ast.specs.declared.file.File.{File};
ghost use Rattle.route_record.specs.declared.World.{World as WorldOf};
ghost use Rattle.question_lang.specs.declared.question.Kind.{Kind as KindOf};
ghost use Rattle.question_lang.specs.declared.question.Start.{Start as StartOf};
ghost use Rattle.question_lang.specs.declared.walk.Walk.{Walk as WalkOf};
ghost use Rattle.question_lang.specs.Breaking.{Breaks};
ghost use Rattle.question_lang.specs.Hops.{next_hops};
ghost use Rattle.sym_forwarding.specs.Beginnings.{begins_at};
ghost use Rattle.sym_forwarding.specs.Forwardings.{AreForwarding, IsBeginningOf, start_asked};
ghost use Rattle.sym_forwarding.specs.Here.{ends_here};
ghost use Rattle.sym_forwarding.specs.Layers.{Beginning, Forwarding, is_broken};
ghost use Rattle.sym_forwarding.specs.Twins.{IsTwin, is_sought};

/// For each kind of question the layers say whether it is broken: where they do some walk breaks it (or, for a question
/// of no stable routing, the routing itself), and where a walk breaks it they do. The table has what each router does
/// with the packet in that world, and the beginning what the interface says at which the packet comes in.
pub fn layers_law()
    ensures broken { (files : ListOf File) (world : WorldOf) (kind : KindOf) (start : Beginning) (table : ListOf
        Forwarding) →
        AreForwarding files world kind table → IsBeginningOf files world kind start →
        is_broken kind start table ≡ true → (walk : Option WalkOf) × Breaks files world kind walk }
    ensures all { (files : ListOf File) (world : WorldOf) (kind : KindOf) (start : Beginning) (table : ListOf
        Forwarding) →
        AreForwarding files world kind table → IsBeginningOf files world kind start →
        (walk : Option WalkOf) → Breaks files world kind walk → is_broken kind start table ≡ true }
{}

/// What each router does with the packet in a world is known from lists of its next hops: a table whose forwardings
/// send and end as these do is that of the world. And what `begins_at` says of the start of a question is so.
pub fn forwardings_law()
    ensures table { (files : ListOf File) (world : WorldOf) (kind : KindOf) (table : ListOf Forwarding) →
        length table ≡ length files →
        ((router : ℕ) (f : Forwarding) → slice_get table router ≡ Some f →
        IsTwin (is_sought kind (ends_here files world.failures world.packet router kind))
        (next_hops files world router) f) →
        AreForwarding files world kind table }
    ensures beginning { (files : ListOf File) (world : WorldOf) (kind : KindOf) (start : StartOf) →
        start_asked kind ≡ Some start →
        IsBeginningOf files world kind (begins_at files world.failures world.packet start) }
{}
