//! What other sessions hold.
ghost use Rattle.std.specs.Prelude.{◌≡◌, ◌+◌, ◌≤◌, ◌<◌, ◌++◌, [], ◌∷◌, None, filter, nat_eq};
ghost use Rattle.indexmap.specs.IndexMap.{get, index_map_len, spare, IsUnique};
ghost use Rattle.row_locks.specs.Tables.{is_of_another};

use engine_base::SessionNo;
use indexmap::IndexMap;

/// Copies what other sessions than this one hold.
pub(crate) fn copy_others(
    holders: &IndexMap<u32, SessionNo>,
    into: &mut IndexMap<u32, SessionNo>,
    s: SessionNo,
)
    requires empty { into.old.entries ≡ [] }
    requires room { index_map_len holders.now ≤ spare into.old }
    ensures others { into.new.entries ≡ filter (is_of_another s.0) holders.now.entries }
    ensures room { spare into.old ≤ index_map_len into.new + spare into.new }
    ensures distinct { IsUnique nat_eq holders.now }
{
    for i in 0..holders.len() {
        let Some((d, h)) = holders.get_index(i) else {
            return;
        };
        copy_other(into, *d, *h, s);
    }
}

// One document, where another session holds it.
fn copy_other(into: &mut IndexMap<u32, SessionNo>, d: u32, h: SessionNo, s: SessionNo)
    requires fresh { get nat_eq into.old d ≡ None }
    requires room { 0 < spare into.old }
    ensures copied { into.new.entries ≡ into.old.entries ++ filter (is_of_another s.0)
        ((d, h) ∷ []) }
    ensures room { index_map_len into.old + spare into.old
        ≤ index_map_len into.new + spare into.new }
{
    if h != s {
        into.insert(d, h).unwrap();
    }
}
