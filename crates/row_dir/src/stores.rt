// What the calls mean for a whole store.
ghost use Rattle.std.specs.Prelude.{List};
ghost use Rattle.page_model.specs.Pages.{Pages};
ghost use Rattle.store_data.specs.Store.{Store};
ghost use Rattle.undo_model.specs.Rows.{RowPage, IsRows, row_base};
ghost use Rattle.store_parts.specs.Shows.{IsStore};
ghost use Rattle.store_pages.specs.Stands.{RowsStand};
ghost use Rattle.row_dir.specs.Stores.{RowsIn};

/// A law, and no code: the row pages in the pages of a store are the store's, and where a row is
/// put or removed there, the pages hold the store whose rows are changed at that document alone.
pub fn rows_in_store()
    ensures { (old : Pages) (store : Store) (there : List RowPage) → IsStore old store
        → IsRows old row_base there → RowsIn old store there }
{}

/// A law, and no code: where a change of another part lets the row pages of a store stand
/// (`store_pages` says of each that it does), those that were known stand on, so that a directory
/// of them stays theirs.
pub fn known_rows_stand()
    ensures { (old new : Pages) (there : List RowPage) → RowsStand old new
        → IsRows old row_base there → IsRows new row_base there }
{}
