//! What is to be run.

/// A kernel, how many times it runs, and the size of its input.
#[derive(Clone, Copy, Debug)]
pub struct Request {
    pub kernel: Kernel,
    pub rounds: u64,
    pub size: u32,
}

/// What a round does.
#[derive(Clone, Copy, Debug, PartialEq, Eq)]
pub enum Kernel {
    /// Appends a group of one write of so many bytes to the redo log of a store in the file
    /// `page_bench.lob`, and flushes it.
    Flush,
    /// Writes as many bytes, syncs, writes one byte, and syncs, in the same file at the same
    /// places.
    Raw,
    /// Builds a LOB of so many full pieces.
    LobBuild,
    /// Reads each of so many pieces.
    LobRead,
    /// Pushes a version in each of so many pieces, and takes it back.
    LobPush,
    /// Copies the bytes of so many full pieces into new memory.
    Copy,
    /// Reads a document of so many full pieces, event by event.
    ReadPieces,
    /// Reads a document of one piece, before which so many changes in place aren't seen.
    ReadRecords,
    /// Puts the rows of so many documents.
    RowPut,
    /// Reads each of so many rows.
    RowRead,
    /// Removes each of so many rows, in the order in which they were put.
    RowRemove,
    /// Appends so many records to an undo log.
    UndoAppend,
    /// Pops so many records, and the log with the last one.
    UndoPop,
}

impl Kernel {
    pub fn named(name: &str) -> Option<Kernel> {
        match name {
            "flush" => Some(Kernel::Flush),
            "raw" => Some(Kernel::Raw),
            "lob-build" => Some(Kernel::LobBuild),
            "lob-read" => Some(Kernel::LobRead),
            "lob-push" => Some(Kernel::LobPush),
            "copy" => Some(Kernel::Copy),
            "read-pieces" => Some(Kernel::ReadPieces),
            "read-records" => Some(Kernel::ReadRecords),
            "row-put" => Some(Kernel::RowPut),
            "row-read" => Some(Kernel::RowRead),
            "row-remove" => Some(Kernel::RowRemove),
            "undo-append" => Some(Kernel::UndoAppend),
            "undo-pop" => Some(Kernel::UndoPop),
            _ => None,
        }
    }

    pub fn name(self) -> &'static str {
        match self {
            Kernel::Flush => "flush",
            Kernel::Raw => "raw",
            Kernel::LobBuild => "lob-build",
            Kernel::LobRead => "lob-read",
            Kernel::LobPush => "lob-push",
            Kernel::Copy => "copy",
            Kernel::ReadPieces => "read-pieces",
            Kernel::ReadRecords => "read-records",
            Kernel::RowPut => "row-put",
            Kernel::RowRead => "row-read",
            Kernel::RowRemove => "row-remove",
            Kernel::UndoAppend => "undo-append",
            Kernel::UndoPop => "undo-pop",
        }
    }
}
