// A law on what reading answers. It is a function with nothing to do.
ghost use Rattle.std.specs.Prelude.{Result};
ghost use Rattle.page_model.specs.Pages.{Pages, Address};
ghost use Rattle.engine_base.specs.Addresses.{address_of};
ghost use Rattle.engine_base.specs.declared.addr.Addr.{Addr};
ghost use Rattle.undo_model.specs.Data.{Record};
ghost use Rattle.undo_model.specs.Reading.{IsRecordAt};
ghost use Rattle.undo_records.specs.declared.record_type.UndoRecord.{UndoRecord};
ghost use Rattle.undo_records.specs.declared.pages.RecordError.{RecordError};
ghost use Rattle.undo_records.specs.Answers.{AnswersRead, ReadsBack};

/// Where a record stands, as where one was written, reading answers that record or that the device
/// failed.
pub fn record_is_read()
    ensures { (pages : Pages) (at : Addr) (r : Record) (previous : Address)
        (answer : Result UndoRecord RecordError) → IsRecordAt pages (address_of at) r previous
        → AnswersRead pages at answer → ReadsBack r answer }
{}
