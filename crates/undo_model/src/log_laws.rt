// Laws on logs and rows in pages, and worked examples of their steps.
ghost use Rattle.std.specs.Prelude.{◌≡◌, ◌<◌, ℕ, length, ◌∷◌, [], List, Some, None, true, false};
ghost use Rattle.page_model.specs.Pages.{Pages, Address, field, null_address};
ghost use Rattle.page_model.specs.Lists.{IsList};
ghost use Rattle.page_model.specs.Spans.{Span, SameOutside, AreApart};
ghost use Rattle.undo_model.specs.Data.{Log};
ghost use Rattle.undo_model.specs.Logs.{IsLog, log_spans, records_of, undo_type, end_field, first_start, state_field, trx_field, last_field, pages_base, node_of};
ghost use Rattle.undo_model.specs.LogLists.{Logs, IsLogs, logs_spans};
ghost use Rattle.undo_model.specs.LogSteps.{begun, appended, popped, marked_committed, begun_purge, purged_one, page_dropped, is_purged};
ghost use Rattle.undo_model.specs.Rows.{RowPage, IsRows, rows_spans};
ghost use Rattle.undo_model.specs.LogExamples.{one, two, three, log_one, log_two, log_three, place};

/// A log stays where nothing changes but bytes apart from it.
pub fn log_stays()
    ensures { (spans : List Span) (old new : Pages) (log : Log) → SameOutside spans old new
        → AreApart spans (log_spans log)
        → IsLog old log → IsLog new log }
{}

/// All logs and their lists stay so.
pub fn logs_stay()
    ensures { (spans : List Span) (old new : Pages) (logs : Logs) → SameOutside spans old new
        → AreApart spans (logs_spans logs)
        → IsLogs old logs → IsLogs new logs }
{}

/// Rows stay so.
pub fn rows_stay()
    ensures { (spans : List Span) (old new : Pages) (base : Address) (rows : List RowPage)
        → SameOutside spans old new
        → AreApart spans (rows_spans base rows) → IsRows old base rows → IsRows new base rows }
{}

/// Three records on two pages, put in and taken out, committed and purged.
pub fn row_steps()
    ensures puts { appended three (appended two (appended one (begun 4 7))) ≡ log_three }
    ensures records { records_of log_three ≡ three ∷ two ∷ one ∷ [] }
    ensures takes { popped log_three ≡ log_two }
    ensures takes_again { popped (popped (popped log_three)) ≡ record log_one { parts = [] } }
    ensures commits { (marked_committed 9 log_three).next ≡ Some (place 4 107) }
    ensures purges { (purged_one (begun_purge (marked_committed 9 log_three))).next ≡ Some
        (place 4 158) }
    ensures purges_on { (purged_one (purged_one (marked_committed 9 log_three))).next ≡ Some
        (place 6 56) }
    ensures purges_all { (purged_one (purged_one (purged_one (marked_committed 9 log_three)))).next
        ≡ None }
    ensures drops { (page_dropped log_three).parts ≡ log_two.parts }
{}

/// Whether the record that a row names counts as purged.
pub fn row_purged()
    ensures unused { is_purged (log_three ∷ []) (Some (place 5 56)) 7 ≡ true }
    ensures other { is_purged (log_three ∷ []) (Some (place 6 56)) 8 ≡ true }
    ensures active { is_purged (log_three ∷ []) (Some (place 6 56)) 7 ≡ false }
    ensures due { is_purged (purged_one (marked_committed 9 log_three) ∷ [])
        (Some (place 4 158)) 7 ≡ false }
    ensures all { is_purged (purged_one (purged_one (purged_one (marked_committed 9 log_three)))
        ∷ [])
        (Some (place 6 56)) 7 ≡ true }
    ensures past { is_purged (purged_one (marked_committed 9 log_three) ∷ [])
        (Some (place 4 107)) 7 ≡ true }
{}

/// A log without records stands where the fields of its one page say so.
pub fn log_begins()
    ensures { (pages : Pages) (page trx : ℕ) → page < length pages
        → field pages page 24 2 ≡ undo_type → end_field pages page ≡ first_start
        → state_field pages page ≡ 1 → trx_field pages page ≡ trx
        → last_field pages page ≡ null_address
        → IsList pages (pages_base page) (node_of page ∷ []) → IsLog pages (begun page trx) }
{}
