ghost use Rattle.std.specs.Prelude.{◌≡◌, [], ◌∷◌, Some, None};
ghost use Rattle.store_model.specs.History.{under, history, changes, row_of};
ghost use Rattle.store_model.specs.Owned.{owned};
ghost use Rattle.store_model.specs.Rows.{first, patched_store, second, versioned_store, third, fourth, unversioned, unpatched, purged_first, purged_second, purged_third, purged_fourth, inserted_over, undone_over, fifth, half_purged, passed_over, open_over, undone_late, both_open, later_first, both_done, rebuilt_store, half_undone, rebuilt_undone, rebuilt_purged, small_twice};

/// Each number of commits has its own bytes, whatever came later.
pub fn row_under()
    ensures before { under first 7 0 ≡ None }
    ensures inserted { under first 7 1 ≡ Some (1 ∷ 2 ∷ 3 ∷ 4 ∷ []) }
    ensures patching { under patched_store 7 1 ≡ Some (1 ∷ 2 ∷ 3 ∷ 4 ∷ []) }
    ensures patched { under second 7 2 ≡ Some (1 ∷ 2 ∷ 3 ∷ 9 ∷ []) }
    ensures versioning { under versioned_store 7 2 ≡ Some (1 ∷ 2 ∷ 3 ∷ 9 ∷ []) }
    ensures oldest { under third 7 1 ≡ Some (1 ∷ 2 ∷ 3 ∷ 4 ∷ []) }
    ensures older { under third 7 2 ≡ Some (1 ∷ 2 ∷ 3 ∷ 9 ∷ []) }
    ensures newest { under third 7 3 ≡ Some (8 ∷ 2 ∷ 3 ∷ 9 ∷ []) }
    ensures deleted { under fourth 7 4 ≡ None }
    ensures behind { under fourth 7 1 ≡ Some (1 ∷ 2 ∷ 3 ∷ 4 ∷ []) }
    ensures other { under fourth 8 4 ≡ None }
{}

/// What is undone leaves the history before it.
pub fn row_undone()
    ensures patched { history unpatched 7 ≡ history first 7 }
    ensures versioned { history unversioned 7 ≡ history second 7 }
{}

/// Purge leaves what the commits from its own on show.
pub fn row_purged()
    ensures first { under purged_first 7 1 ≡ Some (1 ∷ 2 ∷ 3 ∷ 4 ∷ []) }
    ensures second { under purged_second 7 2 ≡ Some (1 ∷ 2 ∷ 3 ∷ 9 ∷ []) }
    ensures third { under purged_third 7 3 ≡ Some (8 ∷ 2 ∷ 3 ∷ 9 ∷ []) }
    ensures empty { changes purged_third 7 ≡ [] }
{}

/// What is owned by a store with an open transaction, behind its rollback, and behind purge.
pub fn row_owned()
    ensures versioned { owned versioned_store ≡ 0 ∷ 23 ∷ 21 ∷ 22 ∷ 10 ∷ 12 ∷ 11 ∷ [] }
    ensures undone { owned unversioned ≡ 0 ∷ 21 ∷ 22 ∷ 10 ∷ 11 ∷ [] }
    ensures deleted { owned fourth ≡ 0 ∷ 21 ∷ 22 ∷ 23 ∷ 24 ∷ 10 ∷ 12 ∷ 11 ∷ [] }
    ensures purged { owned purged_third ≡ 0 ∷ 10 ∷ 12 ∷ 11 ∷ [] }
    ensures nothing { owned purged_fourth ≡ 0 ∷ [] }
{}

/// An insert over a deleted row, with the deletion purged behind it, before it, or not at all.
pub fn row_over()
    ensures open { under (inserted_over fourth) 7 4 ≡ None }
    ensures before { under (inserted_over fourth) 7 3 ≡ Some (8 ∷ 2 ∷ 3 ∷ 9 ∷ []) }
    ensures newest { under fifth 7 5 ≡ Some (5 ∷ []) }
    ensures between { under fifth 7 4 ≡ None }
    ensures undone { history (undone_over fourth) 7 ≡ history fourth 7 }
    ensures half { under half_purged 7 4 ≡ None }
    ensures half_newest { under half_purged 7 5 ≡ Some (5 ∷ []) }
    ensures half_owned { owned half_purged ≡ 0 ∷ 24 ∷ 25 ∷ 30 ∷ 10 ∷ 12 ∷ [] }
    ensures passed { owned passed_over ≡ 0 ∷ 24 ∷ 25 ∷ 30 ∷ [] }
    ensures passed_newest { under passed_over 7 5 ≡ Some (5 ∷ []) }
    ensures row { row_of open_over 7 ≡ row_of (inserted_over fourth) 7 }
    ensures gone { row_of undone_late 7 ≡ None }
    ensures none { owned undone_late ≡ 0 ∷ [] }
{}

/// Two transactions on two documents, of which the later one commits first; then a Full change,
/// undone and purged.
pub fn row_both()
    ensures patched { under both_open 7 1 ≡ Some (1 ∷ 2 ∷ 3 ∷ 4 ∷ []) }
    ensures inserted { under both_open 8 1 ≡ None }
    ensures later { under later_first 8 2 ≡ Some (6 ∷ 6 ∷ []) }
    ensures still { under later_first 7 2 ≡ Some (1 ∷ 2 ∷ 3 ∷ 4 ∷ []) }
    ensures both { under both_done 7 3 ≡ Some (1 ∷ 2 ∷ 3 ∷ 9 ∷ []) }
    ensures between { under both_done 7 2 ≡ Some (1 ∷ 2 ∷ 3 ∷ 4 ∷ []) }
    ensures rebuilt_before { under rebuilt_store 8 3 ≡ Some (6 ∷ 6 ∷ []) }
    ensures half { under half_undone 8 3 ≡ Some (6 ∷ 6 ∷ []) }
    ensures undone { history rebuilt_undone 8 ≡ history both_done 8 }
    ensures undone_owned { owned rebuilt_undone ≡ owned both_done }
    ensures purged { under rebuilt_purged 8 4 ≡ Some (7 ∷ 7 ∷ 7 ∷ []) }
    ensures purged_other { under rebuilt_purged 7 4 ≡ Some (1 ∷ 2 ∷ 3 ∷ 9 ∷ []) }
    ensures purged_owned { owned rebuilt_purged ≡ 0 ∷ 10 ∷ 11 ∷ 50 ∷ [] }
{}

/// Old bytes go back into the parts that came from their own page, the oldest last: small changes
/// before and behind a large one.
pub fn row_put_back()
    ensures none { under small_twice 9 0 ≡ None }
    ensures inserted { under small_twice 9 1 ≡ Some (1 ∷ 1 ∷ 1 ∷ 1 ∷ []) }
    ensures small { under small_twice 9 2 ≡ Some (2 ∷ 1 ∷ 1 ∷ 1 ∷ []) }
    ensures large { under small_twice 9 3 ≡ Some (3 ∷ 3 ∷ 3 ∷ 1 ∷ []) }
    ensures small_again { under small_twice 9 4 ≡ Some (4 ∷ 3 ∷ 3 ∷ 1 ∷ []) }
    ensures newest { under small_twice 9 5 ≡ Some (5 ∷ 3 ∷ 3 ∷ 1 ∷ []) }
{}
