//! What a view has to do with the store's commits.
ghost use Rattle.std.specs.Prelude.{◌≡◌, ℕ, ◌<◌};
ghost use Rattle.store_data.specs.Store.{Store};
ghost use Rattle.store_model.specs.History.{is_among};
ghost use Rattle.read_views.specs.Views.{ReadView, sees_of};
ghost use Rattle.read_views.specs.OfStore.{IsOpenedAt, AreUpTo, IsLater, IsStanding};

/// At its opening a view sees exactly the transactions that are among the commits, of all that were
/// begun.
pub fn view_sees_first_commits()
    ensures { (store : Store) (v : ReadView) → IsOpenedAt store v
        → AreUpTo store.commits store.committed → (trx : ℕ) → trx < store.next_trx
        → sees_of v trx ≡ is_among store v.commits trx }
{}

/// Whatever others do, it sees exactly those of its commits, of all transactions that have a log.
pub fn view_stays_the_first_commits()
    ensures { (old new : Store) (v : ReadView) → IsOpenedAt old v → IsLater old new
        → (trx : ℕ) → IsStanding trx new → sees_of v trx ≡ is_among new v.commits trx }
{}
