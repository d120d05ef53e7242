//! What the terms say of routings. Each function only carries its law.

ghost use Rattle.std.specs.Prelude.{◌≡◌, ◌<◌, ℕ, Bool, true, List as ListOf, length, option_map};
ghost use Rattle.mw_text.specs.declared.address.Addr.{Addr as AddrOf};
ghost use Rattle.mw_text.specs.Address.{prefix_at};
ghost use Rattle.ios_ast.specs.declared.file.File.{File as FileOf};
ghost use Rattle.route_record.specs.declared.Failures.{Failures as FailuresOf};
ghost use Rattle.route_record.specs.declared.Tables.{Tables as TablesOf};
ghost use Rattle.route_record.specs.declared.tracked.Tracked.{Tracked as TrackedOf};
ghost use Rattle.route_record.specs.declared.TheConstants.{LENGTHS};
ghost use Rattle.net_parts.specs.Tracked.{TracksNet};
ghost use Rattle.route_shapes.specs.Bgp.{bgp_shape};
ghost use Rattle.term_store.specs.Terms.{Reading};
ghost use Rattle.sym_rib.specs.declared.slots.SymSlot.{SymSlot as SymSlotOf};
ghost use Rattle.sym_rib.specs.Worlds.{StandForTables};
ghost use Rattle.export_asks.specs.declared.ask.Ask.{Ask as AskOf};
ghost use Rattle.export_asks.specs.Exported.{held_at, is_exported};
ghost use Rattle.export_terms.specs.Routes.{routes_at};
ghost use Rattle.export_terms.specs.Shapes.{any_below, shape_out};

/// By the shapes of the routes that routers hold for a prefix length a route of an ask goes out exactly where one does by
/// these routes.
pub fn shapes_law()
    ensures { (tracked : TrackedOf) (files : ListOf FileOf) (ask : AskOf) (d : AddrOf) (failures : FailuresOf)
        (tables : TablesOf) (len : ℕ) → TracksNet files tracked →
        is_exported files ask d failures tables len
        ≡ shape_out tracked files ask failures (λ router. option_map (bgp_shape tracked) (held_at tables router len))
        (prefix_at d len) }
{}

/// By what symbolic tables read as a route of an ask goes out at some prefix length exactly where one does by the tables for
/// which they stand.
pub fn tables_law()
    ensures { (w : Reading) (tracked : TrackedOf) (files : ListOf FileOf) (ask : AskOf) (d : AddrOf)
        (failures : FailuresOf) (lens : ListOf ℕ) (slots : ListOf SymSlotOf) (tables : TablesOf) →
        TracksNet files tracked → StandForTables w tracked lens (length files) slots tables →
        any_below LENGTHS (λ len. shape_out tracked files ask failures (routes_at w lens (length files) slots len)
        (prefix_at d len)) ≡ any_below LENGTHS (is_exported files ask d failures tables) }
{}

/// It is so of some number below a bound exactly where there is such a number.
pub fn any_law()
    ensures some { (n : ℕ) (is : ℕ → Bool) → any_below n is ≡ true → (k : ℕ) × (k < n) × (is k ≡ true) }
    ensures each { (n : ℕ) (is : ℕ → Bool) (k : ℕ) → k < n → is k ≡ true → any_below n is ≡ true }
{}
