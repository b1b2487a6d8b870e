// Laws on the events of a change. Each planning event puts a row in front of its document's
// history; no further event changes what stands behind it; and other documents stay.
ghost use Rattle.std.specs.Prelude.{◌≡◌, ◌≢◌, ℕ, List, [], ◌∷◌, ◌++◌, set, Some};
ghost use Rattle.page_model.specs.Pages.{Address};
ghost use Rattle.store_data.specs.Pieces.{part_of, pushed};
ghost use Rattle.store_data.specs.Store.{Row, live, Version, Piece, Lob, Run, Store};
ghost use Rattle.store_model.specs.Lobs.{joined, lob_of, heads, AreSeen};
ghost use Rattle.store_model.specs.History.{Change, content, history_behind, history_on, changes};
ghost use Rattle.store_model.specs.Steps.{on_piece};
ghost use Rattle.store_model.specs.Events.{Plan, insert_begun, rebuild_begun, version_begun, patch_made, delete_made, piece_added, version_pushed};
ghost use Rattle.store_model.specs.Behind.{AllBefore, AllRows, IsElsewhere, IsBelow};
ghost use Rattle.store_model.specs.Moves.{MayChange, Begins, KeepsOlder, KeepsAll, IsUnnamed, ArePaired, StandThere, IsUntouched};

/// The planning event of each kind of change.
pub fn changes_begin()
    ensures insert { (p : Plan) (lob : Lob) (n : ℕ) (store : Store) → MayChange p store
        → IsUnnamed lob.page store → Begins p store (insert_begun p lob n store) }
    ensures full { (p : Plan) (lob : Lob) (n : ℕ) (store : Store) → MayChange p store
        → IsUnnamed lob.page store → Begins p store (rebuild_begun p lob n store) }
    ensures versioned { (p : Plan) (pieces : ℕ) (touched : List ℕ) (store : Store)
        → MayChange p store → Begins p store (version_begun p pieces touched store) }
    ensures patched { (p : Plan) (old new : List Run) (store : Store) → MayChange p store
        → ArePaired old new → StandThere old store.lobs
        → ((d : ℕ) → d ≢ p.doc → AllRows (IsUntouched new store.lobs) store d)
        → Begins p store (patch_made p old new store) }
    ensures delete { (p : Plan) (store : Store) → MayChange p store
        → Begins p store (delete_made p store) }
{}

/// A pushed version is seen by no row of an older one.
#[tactic(auto, using(crate::proofs::FurtherLemmas::push_keeps_older, crate::proofs::FurtherLemmas::push_keeps_all))]
pub fn push_keeps()
    ensures older { (page k : ℕ) (node : Address) (v : Version) (index : List ℕ)
        (free : List Address) (store : Store) (d : ℕ)
        → AllBefore (IsBelow page v.number) (changes store d)
        → KeepsOlder d store (version_pushed page k node v index free store) }
    ensures all { (page k : ℕ) (node : Address) (v : Version) (index : List ℕ) (free : List Address)
        (store : Store) (d : ℕ)
        → AllRows (IsBelow page v.number) store d
        → KeepsAll d store (version_pushed page k node v index free store) }
{}

/// A piece that is added to a LOB is seen by no row of another.
#[tactic(auto, using(crate::proofs::FurtherLemmas::piece_keeps_older, crate::proofs::FurtherLemmas::piece_keeps_all))]
pub fn piece_keeps()
    ensures older { (page : ℕ) (piece : Piece) (index : List ℕ) (free : List Address)
        (store : Store) (d : ℕ)
        → AllBefore (IsElsewhere page) (changes store d)
        → KeepsOlder d store (piece_added page piece index free store) }
    ensures all { (page : ℕ) (piece : Piece) (index : List ℕ) (free : List Address) (store : Store)
        (d : ℕ)
        → AllRows (IsElsewhere page) store d
        → KeepsAll d store (piece_added page piece index free store) }
{}

/// A live row whose LOB has no newer version shows the newest data of each piece; a push sets those
/// of one piece, and an added piece stands behind the others.
#[tactic(auto, using(crate::proofs::FurtherLemmas::newest_content, crate::proofs::FurtherLemmas::heads_pushed, crate::proofs::FurtherLemmas::heads_added))]
pub fn newest_content()
    ensures shows { (lobs : List Lob) (row : Row) (l : Lob) → row.state ≡ live
        → lob_of lobs row.lob.page ≡ Some l → AreSeen row.lob.version l.pieces
        → content lobs row ≡ Some (joined (heads l.pieces)) }
    ensures pushed { (k : ℕ) (node : Address) (v : Version) (ps : List Piece)
        → heads (on_piece k (pushed node v) ps) ≡ set (heads ps) k (part_of v) }
    ensures added { (p : Piece) (ps : List Piece)
        → heads (ps ++ p ∷ []) ≡ heads ps ++ part_of p.head ∷ [] }
{}

/// A row's old bytes may be put back into what is read, or into the LOBs before it is read.
#[tactic(auto, using(crate::proofs::HistoryLemmas::history_by_lobs))]
pub fn history_by_lobs()
    ensures { (lobs : List Lob) (row : Row) (cs : List Change)
        → history_behind [] lobs row cs ≡ history_on lobs row cs }
{}
