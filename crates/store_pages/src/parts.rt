// Parts taken out of a store and let in, and parts that change as a whole.
ghost use Rattle.std.specs.Prelude.{◌≡◌, ◌≢◌, ◌+◌, ℕ, List, [], ◌∷◌, ◌++◌};
ghost use Rattle.page_model.specs.Pages.{Pages};
ghost use Rattle.page_model.specs.Spans.{Span, span, SameOutside, SetsField};
ghost use Rattle.page_model.specs.Lists.{IsList, base_span, list_spans};
ghost use Rattle.page_model.specs.Counts.{times};
ghost use Rattle.page_space.specs.Map.{map_spans};
ghost use Rattle.page_space.specs.declared.layout.TheConstants.{NEXT_TRX_ID, COMMITS, PURGED_COMMITS};
ghost use Rattle.store_data.specs.Store.{Lob};
ghost use Rattle.lob_model.specs.Lobs.{IsLob, lob_pages};
ghost use Rattle.undo_model.specs.Data.{Log};
ghost use Rattle.undo_model.specs.Logs.{IsLog};
ghost use Rattle.undo_model.specs.LogLists.{pages_in, all_pages, log_nodes, active_base, committed_base};
ghost use Rattle.undo_model.specs.Rows.{RowPage, row_base};
ghost use Rattle.store_parts.specs.Stored.{Stored, with_lobs, with_rows, with_active, with_committed, with_counters, out};
ghost use Rattle.store_parts.specs.Standing.{IsStoreBut, AreThere, AreOffNodes, AreOutIn, IsOut, MovesRows};

/// A LOB that stands in a store may be taken out of it: its pages are then handled apart.
pub fn lob_taken_out()
    ensures { (own : List ℕ) (pages : Pages) (s : Stored) (bs : List Lob) (l : Lob) (cs : List Lob)
        → IsStoreBut own pages (with_lobs (bs ++ l ∷ cs) s)
        → IsLob pages l × IsStoreBut (lob_pages l ++ own) pages (with_lobs (bs ++ cs) s) }
{}

/// A LOB that stands in pages handled apart may be let in.
pub fn lob_let_in()
    ensures { (own : List ℕ) (pages : Pages) (s : Stored) (bs : List Lob) (l : Lob) (cs : List Lob)
        (own' : List ℕ)
        → IsStoreBut own pages (with_lobs (bs ++ cs) s) → IsLob pages l
        → ((n : ℕ) → times n own ≡ times n (lob_pages l) + times n own')
        → IsStoreBut own' pages (with_lobs (bs ++ l ∷ cs) s) }
{}

/// A log may be taken out: its node stays in its list.
pub fn log_taken_out()
    ensures active { (own : List ℕ) (pages : Pages) (s : Stored) (bs : List Log) (l : Log)
        (cs : List Log) → l.parts ≢ []
        → IsStoreBut own pages (with_active (bs ++ l ∷ cs) s)
        → IsLog pages l × IsStoreBut (pages_in l.parts ++ own) pages
        (with_active (bs ++ out l ∷ cs) s) }
    ensures committed { (own : List ℕ) (pages : Pages) (s : Stored) (bs : List Log) (l : Log)
        (cs : List Log) → l.parts ≢ []
        → IsStoreBut own pages (with_committed (bs ++ l ∷ cs) s)
        → IsLog pages l × IsStoreBut (pages_in l.parts ++ own) pages
        (with_committed (bs ++ out l ∷ cs) s) }
{}

/// A log that stands in pages handled apart may be let in, where its node stayed.
pub fn log_let_in()
    ensures active { (own : List ℕ) (pages : Pages) (s : Stored) (bs : List Log) (l : Log)
        (cs : List Log) (own' : List ℕ) (m : Log) → IsOut l → m.page ≡ l.page
        → IsStoreBut own pages (with_active (bs ++ l ∷ cs) s) → IsLog pages m
        → ((n : ℕ) → times n own ≡ times n (pages_in m.parts) + times n own')
        → IsStoreBut own' pages (with_active (bs ++ m ∷ cs) s) }
    ensures committed { (own : List ℕ) (pages : Pages) (s : Stored) (bs : List Log) (l : Log)
        (cs : List Log) (own' : List ℕ) (m : Log) → IsOut l → m.page ≡ l.page
        → IsStoreBut own pages (with_committed (bs ++ l ∷ cs) s) → IsLog pages m
        → ((n : ℕ) → times n own ≡ times n (pages_in m.parts) + times n own')
        → IsStoreBut own' pages (with_committed (bs ++ m ∷ cs) s) }
{}

/// A list of logs became that of `logs`, where `all` are those of the list before or after; what is
/// taken out stands in pages of `own1`.
pub fn log_listed()
    ensures active { (own own1 own2 : List ℕ) (all logs : List Log) (old new : Pages) (s : Stored)
        → IsStoreBut own old s → AreThere old all → AreOutIn own1 all
        → ((n : ℕ) → times n (all_pages all) + times n own1 ≡ times n
        (all_pages s.active) + times n own)
        → ((n : ℕ) → times n (all_pages logs) + times n own2 ≡ times n
        (all_pages s.active) + times n own)
        → SameOutside (list_spans active_base (log_nodes all)) old new
        → AreOffNodes (list_spans active_base (log_nodes all)) s.committed
        → IsList new active_base (log_nodes logs) → (AreThere new all → AreThere new logs)
        → AreThere new all × IsStoreBut own2 new (with_active logs s) }
    ensures committed { (own own1 own2 : List ℕ) (all logs : List Log) (old new : Pages)
        (s : Stored) → IsStoreBut own old s → AreThere old all → AreOutIn own1 all
        → ((n : ℕ) → times n (all_pages all) + times n own1 ≡ times n
        (all_pages s.committed) + times n own)
        → ((n : ℕ) → times n (all_pages logs) + times n own2 ≡ times n
        (all_pages s.committed) + times n own)
        → SameOutside (list_spans committed_base (log_nodes all)) old new
        → AreOffNodes (list_spans committed_base (log_nodes all)) s.active
        → IsList new committed_base (log_nodes logs) → (AreThere new all → AreThere new logs)
        → AreThere new all × IsStoreBut own2 new (with_committed logs s) }
{}

/// The rows changed as a whole, with row pages taken and given back.
pub fn rows_move()
    ensures { (own own' : List ℕ) (rows' : List RowPage) (spans : List Span) (old new : Pages)
        (s : Stored) → MovesRows own own' s.rows rows' spans old new → IsStoreBut own old s
        → AreOffNodes (base_span row_base ∷ (map_spans ++ spans)) s.active
        → AreOffNodes (base_span row_base ∷ (map_spans ++ spans)) s.committed
        → IsStoreBut own' new (with_rows rows' s) }
{}

/// The next transaction id, the commits and the purged commits are fields of page 0 that nothing
/// else rests on.
pub fn counters_move()
    ensures next_trx { (own : List ℕ) (old new : Pages) (s : Stored) → IsStoreBut own old s
        → (v : ℕ) → SetsField 0 NEXT_TRX_ID 8 v old new
        → AreOffNodes (span 0 NEXT_TRX_ID 8 ∷ []) s.active
        → AreOffNodes (span 0 NEXT_TRX_ID 8 ∷ []) s.committed
        → IsStoreBut own new (with_counters v s.commits s.purged s) }
    ensures commits { (own : List ℕ) (old new : Pages) (s : Stored) → IsStoreBut own old s → (v : ℕ)
        → SetsField 0 COMMITS 8 v old new
        → AreOffNodes (span 0 COMMITS 8 ∷ []) s.active
        → AreOffNodes (span 0 COMMITS 8 ∷ []) s.committed
        → IsStoreBut own new (with_counters s.next_trx v s.purged s) }
    ensures purged { (own : List ℕ) (old new : Pages) (s : Stored) → IsStoreBut own old s → (v : ℕ)
        → SetsField 0 PURGED_COMMITS 8 v old new
        → AreOffNodes (span 0 PURGED_COMMITS 8 ∷ []) s.active
        → AreOffNodes (span 0 PURGED_COMMITS 8 ∷ []) s.committed
        → IsStoreBut own new (with_counters s.next_trx s.commits v s) }
{}
