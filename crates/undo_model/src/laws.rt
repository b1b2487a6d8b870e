// Laws on undo records. Each is a function with nothing to do, whose clause a proof may cite.
ghost use Rattle.std.specs.Prelude.{◌≡◌, ◌+◌, ◌≤◌, ℕ, List, length, Some};
ghost use Rattle.page_model.specs.Pages.{Pages, Address, Fits, written};
ghost use Rattle.page_model.specs.Spans.{Span, SameOutside, IsApartFromAll};
ghost use Rattle.undo_model.specs.Data.{Record};
ghost use Rattle.undo_model.specs.Bytes.{record_bytes, record_size};
ghost use Rattle.undo_model.specs.Reading.{record_in, record_span, record_end, IsRecordAt, IsSoundRecord, IsSoundPrevious, WritesRecord, BodyFits};

/// A record's bytes are read as that record.
pub fn record_reads_back()
    ensures { (count : ℕ) (r : Record) (previous : Address) → IsSoundRecord count r
        → IsSoundPrevious count previous
        → record_in count (record_bytes r previous) ≡ Some
        (record { undo = r; previous = previous }) }
{}

/// Where its bytes are written a record stands, and no other byte is changed.
pub fn record_written()
    ensures { (pages : Pages) (a : Address) (r : Record) (previous : Address)
        → Fits pages a.page a.at (record_size r)
        → a.at + record_size r ≤ record_end → IsSoundRecord (length pages) r
        → IsSoundPrevious (length pages) previous
        → WritesRecord a r previous pages (written pages a.page a.at (record_bytes r previous)) }
{}

/// A record stays where nothing changes but bytes apart from it.
pub fn record_stays()
    ensures { (spans : List Span) (old new : Pages) (a : Address) (r : Record) (previous : Address)
        → SameOutside spans old new → IsApartFromAll spans (record_span a r)
        → IsRecordAt old a r previous → IsRecordAt new a r previous }
{}

/// At one place there is one record at most.
pub fn one_record_at_a_place()
    ensures { (pages : Pages) (a : Address) (r s : Record) (p q : Address)
        → IsRecordAt pages a r p → IsRecordAt pages a s q → (r ≡ s) × (p ≡ q) }
{}

/// A record that stands there names pages of the store, and bytes within them.
pub fn record_names_pages()
    ensures { (pages : Pages) (a : Address) (r : Record) (previous : Address)
        → IsRecordAt pages a r previous
        → BodyFits (length pages) r.body }
{}
