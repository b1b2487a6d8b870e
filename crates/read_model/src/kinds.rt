//! Each event of each kind of change is one that keeps a read under way.
ghost use Rattle.std.specs.Prelude.{◌≡◌, ◌++◌, ℕ, List, [], ◌∷◌, true, false};
ghost use Rattle.page_model.specs.Pages.{Address};
ghost use Rattle.store_data.specs.Pieces.{pushed, popped, dropped};
ghost use Rattle.store_data.specs.Store.{Run, Row, Version, Lob};
ghost use Rattle.store_model.specs.Runs.{lobs_laid};
ghost use Rattle.store_model.specs.Steps.{on_lob, without_lob, at_version, at_piece, with_nodes};
ghost use Rattle.read_model.specs.Patches.{Entry, runs, AreAtSamePlaces};
ghost use Rattle.read_model.specs.Document.{Document, Sees, IsOther};
ghost use Rattle.read_model.specs.Flight.{row_behind};
ghost use Rattle.read_model.specs.Events.{Adds, Removes, Touches, Frees, Passes};
ghost use Rattle.read_model.specs.Kinds.{with_change, without_change, on_lobs, IsPlan, IsElsewhere, IsOlder, MayPop, MayDropAt};

/// An insert and a new encoding put a record at the head of the chain.
pub fn new_lob_planned()
    ensures { (sees : Sees) (doc : Document) (e : Entry) (row : Row) (lob : Lob)
        → IsPlan sees doc e row → runs e ≡ [] → IsElsewhere sees doc lob.page
        → Adds sees doc (with_change e row (λ ls. ls ++ lob ∷ []) doc) e }
{}

/// So does a change by new versions of pieces.
pub fn versions_planned()
    ensures { (sees : Sees) (doc : Document) (e : Entry) (row : Row) (page n : ℕ)
        → IsPlan sees doc e row → runs e ≡ []
        → Adds sees doc (with_change e row (on_lob page (at_version n)) doc) e }
{}

/// So does a deletion.
pub fn delete_planned()
    ensures { (sees : Sees) (doc : Document) (e : Entry) (row : Row) → IsPlan sees doc e row
        → runs e ≡ []
        → Adds sees doc (with_change e row (λ ls. ls) doc) e }
{}

/// So does a change in place, where its old bytes lead back to what stood there.
pub fn patch_planned()
    ensures { (sees : Sees) (doc : Document) (e : Entry) (row : Row) (new : List Run)
        → IsPlan sees doc e row → AreAtSamePlaces (runs e) new
        → lobs_laid (runs e) doc.lobs ≡ doc.lobs
        → Adds sees doc (with_change e row (lobs_laid new) doc) e }
{}

/// A piece that is added to another LOB, or freed there, changes nothing that the view reads.
pub fn other_lob_worked_on()
    ensures { (sees : Sees) (doc : Document) (page : ℕ) (f : Lob → Lob)
        → ((l : Lob) → (f l).page ≡ l.page) → IsElsewhere sees doc page
        → Touches sees doc (on_lobs (on_lob page f) doc) }
{}

/// A version that is pushed above the view's changes nothing that the view reads.
pub fn version_is_pushed()
    ensures { (sees : Sees) (doc : Document) (page k : ℕ) (node : Address) (x : Version)
        (index : List ℕ) (free : List Address)
        → IsOlder sees doc page x.number
        → Touches sees doc (on_lobs
        (on_lob page (λ l. with_nodes index free (at_piece k (pushed node x) l))) doc) }
{}

/// A version that is popped above the view's frees a node, and changes nothing else that the view
/// reads.
pub fn version_is_popped()
    ensures { (sees : Sees) (doc : Document) (page k : ℕ) (node head : Address)
        (free : List Address)
        → MayPop sees doc page k node head
        → Frees sees doc (on_lobs
        (on_lob page (λ l. record (at_piece k popped l) { free = free })) doc) node head }
{}

/// The undoing of an insert or a new encoding takes its record off the chain.
pub fn new_lob_undone()
    ensures { (sees : Sees) (doc : Document) (e : Entry) (rest : List Entry) (page : ℕ)
        → sees doc.row.trx ≡ false → doc.records ≡ e ∷ rest → IsOther e.0 rest → runs e ≡ []
        → IsElsewhere sees doc page
        → Removes sees doc (without_change e rest (without_lob page) doc) e }
{}

/// So does the undoing of new versions, once they are popped.
pub fn versions_undone()
    ensures { (sees : Sees) (doc : Document) (e : Entry) (rest : List Entry) (page n : ℕ)
        → sees doc.row.trx ≡ false → doc.records ≡ e ∷ rest → IsOther e.0 rest → runs e ≡ []
        → Removes sees doc (without_change e rest (on_lob page (at_version n)) doc) e }
{}

/// So does the undoing of a deletion.
pub fn deletion_undone()
    ensures { (sees : Sees) (doc : Document) (e : Entry) (rest : List Entry)
        → sees doc.row.trx ≡ false → doc.records ≡ e ∷ rest → IsOther e.0 rest → runs e ≡ []
        → Removes sees doc (without_change e rest (λ ls. ls) doc) e }
{}

/// So does the undoing of a change in place, which puts its old bytes back.
pub fn patch_is_undone()
    ensures { (sees : Sees) (doc : Document) (e : Entry) (rest : List Entry)
        → sees doc.row.trx ≡ false → doc.records ≡ e ∷ rest → IsOther e.0 rest
        → Removes sees doc (without_change e rest (lobs_laid (runs e)) doc) e }
{}

/// A version that purge drops is none that the view reads.
pub fn version_is_dropped()
    ensures { (sees : Sees) (doc : Document) (page k : ℕ) (free : List Address)
        → MayDropAt sees doc page k
        → Touches sees doc (on_lobs
        (on_lob page (λ l. record (at_piece k dropped l) { free = free })) doc) }
{}

/// Purge takes records off the end of the chain, below a row that the view sees.
pub fn records_are_passed()
    ensures { (sees : Sees) (doc : Document) (front gone : List Entry) → doc.records ≡ front ++ gone
        → sees (row_behind doc.row front).trx ≡ true
        → Passes sees doc (record { row = doc.row; records = front; lobs = doc.lobs }) }
{}

/// With such a record purge frees the LOB before it, which is none that the view reads.
pub fn lob_is_passed()
    ensures { (sees : Sees) (doc : Document) (front gone : List Entry) (page : ℕ)
        → doc.records ≡ front ++ gone
        → sees (row_behind doc.row front).trx ≡ true → IsElsewhere sees doc page
        → Passes sees doc (record {
          row = doc.row;
          records = front;
          lobs = without_lob page doc.lobs;
        }) }
{}
