// What a session asks for.
use engine_base::DocId;
use json_edit::Edit;
use json_tree::Json;

/// A change of the documents.
#[derive(Drop)]
pub enum Call {
    /// Puts a document where none stands.
    Insert(DocId, Json),
    /// Edits a document.
    Change(DocId, Edit),
    /// Takes a document out.
    Delete(DocId),
}

/// A question about a document.
#[derive(Clone, Copy, Debug, PartialEq, Eq)]
pub enum Question {
    /// Shows it.
    Get(DocId),
    /// Tells how long it is stored.
    Size(DocId),
}

/// What a transaction's reads see.
#[derive(Clone, Copy, Debug, PartialEq, Eq)]
pub enum Level {
    /// What was committed at its first read.
    Rr,
    /// What was committed at each read.
    Rc,
}

/// One request of a session. Outside a transaction it is made by itself: a change commits, and a
/// read takes a view of its own.
#[derive(Drop)]
pub enum Statement {
    Change(Call),
    Read(Question),
    /// Opens a transaction.
    Begin(Level),
    /// Ends the transaction. What it changed is a commit.
    Commit,
    /// Ends the transaction. What it changed is undone.
    Rollback,
}
