// The words of a line.
ghost use Rattle.std.specs.Prelude.{ℕ, ◌≡◌, ◌≤◌, ◌&&◌, true, List, option_map, IfSome};
ghost use Rattle.std.specs.List.{list_any};
ghost use Rattle.journal_model.specs.ScriptText.{begins_with, is_marked, session_text as text_of, first_word, behind, is_space, number_up_to as number_of, document_number, session_number, is_of_transaction, form_of, runs_on};
ghost use Rattle.journal_model.specs.StatementText.{max_session};
ghost use Rattle.statements.specs.Forms.{form_view};

use crate::Level;
use crate::limits::MAX_SESSIONS;

/// The edits, by their word.
#[derive(Clone, Copy, Debug)]
pub enum EditWord {
    Set,
    Replace,
    Remove,
}

/// The forms of a statement, by its word.
#[derive(Clone, Copy, Debug)]
pub enum StatementKind {
    Insert,
    Change(EditWord),
    Delete,
    Get,
    Size,
    Begin(Level),
    Commit,
    Rollback,
}

impl StatementKind {
    /// Whether no text stands behind its words, so that no space may.
    pub fn ends_a_line(self) -> bool
        ensures { (rest : List ℕ) → result && list_any is_space rest
            ≡ runs_on (form_view self) rest }
    {
        match self {
            StatementKind::Insert
            | StatementKind::Change(_)
            | StatementKind::Begin(_)
            | StatementKind::Commit
            | StatementKind::Rollback => false,
            StatementKind::Delete | StatementKind::Get | StatementKind::Size => true,
        }
    }

    /// Whether it opens or ends a transaction.
    pub fn is_of_transaction(self) -> bool
        ensures { result ≡ is_of_transaction (form_view self) }
    {
        matches!(
            self,
            StatementKind::Begin(_) | StatementKind::Commit | StatementKind::Rollback
        )
    }
}

/// Whether that byte stands first.
pub fn begins_with(byte: u8, text: &[u8]) -> bool
    ensures { result ≡ begins_with byte text.now }
{
    match text {
        [] => false,
        [first, ..] => *first == byte,
    }
}

/// Whether a line's first word has the mark of a line that steps nothing.
pub fn is_marked(word: &str) -> bool
    ensures { result ≡ is_marked word.now }
{
    match word.as_bytes() {
        [.., last] => *last == b'&',
        [] => false,
    }
}

/// The first word, and what stands behind the space after it.
pub fn split_word(text: &str) -> (&str, &str)
    ensures word { result.0.now ≡ first_word text.now }
    ensures rest { result.1.now ≡ behind text.now }
{
    match text.split_once(' ') {
        Some((word, rest)) => (word, rest),
        None => (text, ""),
    }
}

/// Whether a space stands in it.
pub fn has_space(text: &str) -> bool
    ensures { result ≡ list_any is_space text.now }
{
    text.as_bytes().iter().any(|byte| *byte == b' ')
}

/// A number from 1 to the greatest, in decimal without leading zeros.
pub fn number_up_to(greatest: u32, word: &str) -> Option<u32>
    ensures number { result ≡ number_of greatest word.now }
    ensures within { IfSome result (λ n. (1 ≤ n) × (n ≤ greatest)) }
{
    let [b'1'..=b'9', ..] = word.as_bytes() else {
        return None;
    };
    match word.parse::<u32>() {
        Ok(number) => {
            if number <= greatest {
                Some(number)
            } else {
                None
            }
        }
        Err(_) => None,
    }
}

/// A number from 1 to 4,294,967,295.
pub fn document_number(word: &str) -> Option<u32>
    ensures number { result ≡ document_number word.now }
    ensures within { IfSome result (λ n. 1 ≤ n) }
{
    number_up_to(u32::MAX, word)
}

/// The number behind the `s` of a line's first word.
pub fn session_number(word: &str) -> Option<u8>
    ensures number { result ≡ session_number word.now }
    ensures within { IfSome result (λ n. (1 ≤ n) × (n ≤ max_session)) }
{
    match number_up_to(u32::from(MAX_SESSIONS), word) {
        Some(number) => Some(number as u8),
        None => None,
    }
}

/// What stands behind the `s` of a line's first word, without the mark.
pub fn session_text(first: &str) -> &str
    requires { begins_with 115 first.now ≡ true }
    ensures { result.now ≡ text_of first.now }
{
    let Some(rest) = first.strip_prefix('s') else {
        return "";
    };
    match rest.strip_suffix('&') {
        Some(front) => front,
        None => rest,
    }
}

/// The form of a statement, by its first word and its whole text.
pub fn form_of(first: &str, text: &str) -> Option<StatementKind>
    ensures { option_map form_view result ≡ form_of first.now text.now }
{
    match first {
        "insert" => Some(StatementKind::Insert),
        "set" => Some(StatementKind::Change(EditWord::Set)),
        "replace" => Some(StatementKind::Change(EditWord::Replace)),
        "remove" => Some(StatementKind::Change(EditWord::Remove)),
        "delete" => Some(StatementKind::Delete),
        "get" => Some(StatementKind::Get),
        "size" => Some(StatementKind::Size),
        _ => match text {
            "begin" | "begin rr" => Some(StatementKind::Begin(Level::Rr)),
            "begin rc" => Some(StatementKind::Begin(Level::Rc)),
            "commit" => Some(StatementKind::Commit),
            "rollback" => Some(StatementKind::Rollback),
            _ => None,
        },
    }
}
