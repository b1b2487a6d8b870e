// Laws on pages as lists of bytes. Each is a function with nothing to do, whose clause a proof may
// cite.
ghost use Rattle.std.specs.Prelude.{◌≡◌, ℕ, ◌+◌, ◌<◌, ◌≤◌, ◌^◌, List, [], ◌∷◌, ◌++◌, length, map, Option, Some};
ghost use Rattle.byteorder.specs.Endian.{big_bytes};
ghost use Rattle.page_model.specs.Pages.{Pages, Fits, AllFit, AreWhole, field, written, Write, all_written, Address};
ghost use Rattle.page_model.specs.Spans.{Span, span, span_of, IsApart, IsApartFromAll, AreApart, ArePairwiseApart, IsOffAll, SameOutside};
ghost use Rattle.page_model.specs.Counts.{covers, AreWide, times};
ghost use Rattle.page_model.specs.Tables.{Field, field_span, field_write, AreNarrow, HasFields, SetsFields, base_fields};
ghost use Rattle.page_model.specs.Steps.{PageState, IsWithin, MayUse, MayReach, known, different, max_pins};
ghost use Rattle.page_model.specs.Frames.{IsFrame, frame_bytes, writes_bytes, writes_in};
ghost use Rattle.page_model.specs.Lists.{IsList, list_spans};

/// A field that was written reads back.
pub fn field_read_back()
    ensures { (pages : Pages) (page at width value : ℕ) → Fits pages page at width
        → value < 256 ^ width
        → field (written pages page at (big_bytes width value)) page at width ≡ value }
{}

/// A field that no write touches is as before.
pub fn field_stays()
    ensures { (writes : List Write) (pages : Pages) (page at width : ℕ) → AllFit writes pages
        → IsApartFromAll (map span_of writes) (span page at width)
        → field (all_written writes pages) page at width ≡ field pages page at width }
{}

/// Writes leave as many pages, each as long, and every byte outside them as it was.
pub fn other_bytes_stay()
    ensures { (writes : List Write) (pages : Pages) → AllFit writes pages
        → SameOutside (map span_of writes) pages (all_written writes pages) }
{}

/// Whole pages are whole after writes that fit them.
pub fn write_keeps_sizes()
    ensures { (writes : List Write) (pages : Pages) (count : ℕ) → AllFit writes pages
        → AreWhole pages count
        → AreWhole (all_written writes pages) count }
{}

/// Two writes that have no byte in common may be made in either order.
pub fn disjoint_writes()
    ensures { (pages : Pages) (v w : Write) → AllFit (v ∷ w ∷ []) pages
        → IsApart (span_of v) (span_of w)
        → all_written (v ∷ w ∷ []) pages ≡ all_written (w ∷ v ∷ []) pages }
{}

/// A list stays where nothing changes but bytes apart from it.
pub fn list_stays()
    ensures { (spans : List Span) (old new : Pages) (base : Address) (nodes : List Address)
        → SameOutside spans old new → AreApart spans (list_spans base nodes)
        → IsList old base nodes → IsList new base nodes }
{}

/// Fields that are apart from one another, each written with its value: each reads back, and every
/// other byte is as it was.
pub fn table_reads_back()
    ensures { (page : ℕ) (table : List Field) (pages : Pages)
        → ArePairwiseApart (map (field_span page) table)
        → AreNarrow table → AllFit (map (field_write page) table) pages
        → SetsFields page table pages (all_written (map (field_write page) table) pages) }
{}

/// A list without nodes has its base where the fields of an empty base stand.
pub fn empty_base_is_a_list()
    ensures { (pages : Pages) (page at : ℕ) → HasFields pages page (base_fields at)
        → IsList pages (record { page = page; at = at }) [] }
{}

/// A call whose other pages are known may be made where all that it touches is pinned already,
/// though no further page may be.
pub fn pinned_pages_cost_nothing()
    ensures { (near named : List ℕ) (most bytes : ℕ) (s : PageState)
        → IsWithin (near ++ named) s.touched
        → different s.touched ≤ max_pins → bytes ≤ s.room
        → MayReach (Some near) named most bytes s }
{}

/// A caller that counts other pages by their number alone may make such a call, and knows what it
/// used.
pub fn counting_is_enough()
    ensures { (near : Option (List ℕ)) (named : List ℕ) (most bytes : ℕ) (s : PageState)
        → length (known near) ≤ most
        → MayUse named most bytes s → MayReach near named most bytes s }
{}

/// Spans are apart from one another exactly where no byte is in two of them, if each has a byte.
pub fn apart_by_counting()
    ensures once { (spans : List Span) → ArePairwiseApart spans → (n k : ℕ) → covers spans n k ≤ 1 }
    ensures apart { (spans : List Span) → AreWide spans → ((n k : ℕ) → covers spans n k ≤ 1)
        → ArePairwiseApart spans }
    ensures across { (spans others : List Span) → AreWide spans → AreWide others
        → ((n k : ℕ) → covers spans n k + covers others n k ≤ 1) → AreApart spans others }
{}

/// A byte is off all spans exactly where none of them has it.
pub fn off_by_counting()
    ensures none { (spans : List Span) (n k : ℕ) → IsOffAll spans n k → covers spans n k ≡ 0 }
    ensures off { (spans : List Span) (n k : ℕ) → covers spans n k ≡ 0 → IsOffAll spans n k }
{}

/// Different numbers below k are at most k.
pub fn few_below()
    ensures { (k : ℕ) (numbers : List ℕ) → ((n : ℕ) → times n numbers ≤ 1)
        → ((n : ℕ) → 1 ≤ times n numbers → n < k) → length numbers ≤ k }
{}

/// A group's frame reads back as its writes, and its bytes are a frame.
pub fn frame_reads_back()
    ensures writes { (count : ℕ) (writes : List Write) (bytes : List ℕ) → count < 2 ^ 32
        → IsFrame count writes bytes → writes_in bytes ≡ writes }
    ensures length { (writes : List Write)
        → length (frame_bytes writes) ≡ 6 + length (writes_bytes writes) }
{}
