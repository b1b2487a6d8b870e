// What stays of a LOB in the hands of whoever keeps the place of a head.
ghost use Rattle.std.specs.Prelude.{ℕ, List};
ghost use Rattle.page_model.specs.Pages.{Address};
ghost use Rattle.store_data.specs.Store.{Run, Version, Piece, Lob, Record, Store};
ghost use Rattle.store_model.specs.Events.{Plan, insert_begun, rebuild_begun, version_begun, patch_made, delete_made, piece_added, version_pushed};
ghost use Rattle.store_model.specs.Undo.{piece_freed, index_freed, version_popped, undo_ended, version_dropped, record_passed};
ghost use Rattle.store_model.specs.Consistent.{IsConsistent};
ghost use Rattle.store_model.specs.Heads.{KeepHeads};

/// Each event leaves the heads of a LOB that stands before and behind it where they are: a piece
/// comes behind the last one, and the last one goes first. So the place of a piece's head may be
/// kept from one event to the next.
pub fn heads_keep_their_places()
    ensures insert { (p : Plan) (lob : Lob) (n : ℕ) (store : Store)
        → KeepHeads store.lobs (insert_begun p lob n store).lobs }
    ensures full { (p : Plan) (lob : Lob) (n : ℕ) (store : Store)
        → KeepHeads store.lobs (rebuild_begun p lob n store).lobs }
    ensures versioned { (p : Plan) (pieces : ℕ) (touched : List ℕ) (store : Store)
        → KeepHeads store.lobs (version_begun p pieces touched store).lobs }
    ensures patched { (p : Plan) (old new : List Run) (store : Store)
        → KeepHeads store.lobs (patch_made p old new store).lobs }
    ensures delete { (p : Plan) (store : Store)
        → KeepHeads store.lobs (delete_made p store).lobs }
    ensures piece { (page : ℕ) (piece : Piece) (index : List ℕ) (free : List Address)
        (store : Store) → KeepHeads store.lobs (piece_added page piece index free store).lobs }
    ensures pushed { (page k : ℕ) (node : Address) (v : Version) (index : List ℕ)
        (free : List Address) (store : Store)
        → KeepHeads store.lobs (version_pushed page k node v index free store).lobs }
    ensures popped { (page k : ℕ) (free : List Address) (store : Store)
        → KeepHeads store.lobs (version_popped page k free store).lobs }
    ensures freed { (page : ℕ) (free : List Address) (store : Store)
        → KeepHeads store.lobs (piece_freed page free store).lobs }
    ensures index { (page : ℕ) (store : Store)
        → KeepHeads store.lobs (index_freed page store).lobs }
    ensures undone { (trx : ℕ) (u : Record) (store : Store) → IsConsistent store
        → KeepHeads store.lobs (undo_ended trx u store).lobs }
    ensures dropped { (page k : ℕ) (free : List Address) (store : Store)
        → KeepHeads store.lobs (version_dropped page k free store).lobs }
    ensures passed { (a : Address) (trx : ℕ) (u : Record) (store : Store) → IsConsistent store
        → KeepHeads store.lobs (record_passed a trx u store).lobs }
{}
