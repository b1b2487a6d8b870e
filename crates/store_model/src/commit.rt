// Laws on the commit of a transaction.
ghost use Rattle.std.specs.Prelude.{◌≡◌, ◌≤◌, ℕ, suc, false, List, ◌∷◌, Some};
ghost use Rattle.store_data.specs.Store.{Log, Store};
ghost use Rattle.store_model.specs.History.{Past, history, stands, under};
ghost use Rattle.store_model.specs.Steps.{log_of, without_log};
ghost use Rattle.store_model.specs.Events.{committed_by};
ghost use Rattle.store_model.specs.Locked.{IsLocked};
ghost use Rattle.store_model.specs.Moves.{KeepsAll};
ghost use Rattle.store_model.specs.Purging.{NumberedTo};

/// No history changes; under the old numbers all stays, and under the new one each document is at
/// its newest row, whose transaction is active no more.
#[tactic(auto, using(crate::proofs::CommitLemmas::commit_keeps_all, crate::proofs::CommitLemmas::commit_under_old, crate::proofs::CommitLemmas::commit_under_new))]
pub fn commit_shows()
    ensures keeps { (trx d : ℕ) (store : Store) → IsLocked d store.active
        → KeepsAll d store (committed_by trx store) }
    ensures old { (trx k d : ℕ) (store : Store) → k ≤ store.commits → IsLocked d store.active
        → under (committed_by trx store) d k ≡ under store d k }
    ensures new { (trx d : ℕ) (store : Store) (l : Log) (h : Past) (hs : List Past)
        → log_of store.active trx ≡ Some l → NumberedTo store.commits store.committed
        → IsLocked d store.active
        → history store d ≡ h ∷ hs → stands h.trx (without_log trx store.active) ≡ false
        → under (committed_by trx store) d (suc store.commits) ≡ h.bytes }
{}
