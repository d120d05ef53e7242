//! Laws about the worlds that values of variables stand for. Each function only carries its law.

ghost use Rattle.std.specs.Prelude.{◌≡◌, Bool, List as ListOf};
ghost use Rattle.failed_links.specs.Rows.{IsAt};
ghost use Rattle.term_store.specs.Terms.{truth};

/// Every row of values is that of some variables.
pub fn row_law()
    ensures { (values : ListOf Bool) → IsAt (truth values) 0 values }
{}
