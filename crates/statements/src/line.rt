// One line of a script.
ghost use Rattle.std.specs.Prelude.{◌≡◌, ◌≤◌, IfOk, true};
ghost use Rattle.journal_model.specs.ScriptText.{document as not_there, found, document_number as number_of, is_taken, session_by, said_by, step_by, dotted_by, line_by, max_statements, with_statement, if_built as if_taken, read_statement as statement_read};
ghost use Rattle.statements.specs.Forms.{mode_view, form_view, statement_of, table_of};
ghost use Rattle.statements.specs.Limits.{is_numbered};
ghost use Rattle.statements.specs.Lines.{read_line_of, IsWithin};
ghost use Rattle.statements.specs.Reads.{Gives};

use crate::arguments::{read_edit, read_json};
use crate::draft::ReadLine;
use crate::error::LineError;
use crate::limits::{MAX_STATEMENTS, MAX_STEPS};
use crate::words::{
    EditWord, StatementKind, begins_with, document_number, form_of, has_space, is_marked,
    number_up_to, session_number, session_text, split_word,
};
use crate::{Built, Call, Cause, Mode, Question, Statement};
use engine_base::{DocId, SessionNo};
use std::alloc::Global;

// The document that a word names.
fn document(word: &str) -> Result<DocId, LineError>
    ensures gives { Gives (λ d. d.0) result (found (number_of word.now) not_there) }
    ensures first { IfOk result (λ d. 1 ≤ d.0) }
{
    match document_number(word) {
        Some(number) => Ok(DocId(number)),
        None => Err(LineError::Bad(Cause::Document)),
    }
}

fn insert(alloc: Global, rest: &str) -> Result<Statement, LineError>
    ensures gives { Gives statement_of result
        (statement_read (form_view StatementKind.Insert) rest.now) }
    ensures within { IfOk result (λ st. is_numbered st ≡ true) }
{
    let (word, text) = split_word(rest);
    let number = document(word)?;
    let tree = read_json(alloc, text)?;
    Ok(Statement::Change(Call::Insert(number, tree)))
}

fn change(alloc: Global, word: EditWord, rest: &str) -> Result<Statement, LineError>
    ensures gives { Gives statement_of result
        (statement_read (form_view (StatementKind.Change word)) rest.now) }
    ensures within { IfOk result (λ st. is_numbered st ≡ true) }
{
    let (first, text) = split_word(rest);
    let number = document(first)?;
    let edit = read_edit(alloc, word, text)?;
    Ok(Statement::Change(Call::Change(number, edit)))
}

fn delete(rest: &str) -> Result<Statement, LineError>
    ensures gives { Gives statement_of result
        (statement_read (form_view StatementKind.Delete) rest.now) }
    ensures within { IfOk result (λ st. is_numbered st ≡ true) }
{
    Ok(Statement::Change(Call::Delete(document(rest)?)))
}

fn get(rest: &str) -> Result<Statement, LineError>
    ensures gives { Gives statement_of result
        (statement_read (form_view StatementKind.Get) rest.now) }
    ensures within { IfOk result (λ st. is_numbered st ≡ true) }
{
    Ok(Statement::Read(Question::Get(document(rest)?)))
}

fn size(rest: &str) -> Result<Statement, LineError>
    ensures gives { Gives statement_of result
        (statement_read (form_view StatementKind.Size) rest.now) }
    ensures within { IfOk result (λ st. is_numbered st ≡ true) }
{
    Ok(Statement::Read(Question::Size(document(rest)?)))
}

// The statement of a form, by what stands behind its word.
fn statement(alloc: Global, form: StatementKind, rest: &str) -> Result<Statement, LineError>
    ensures gives { Gives statement_of result (statement_read (form_view form) rest.now) }
    ensures within { IfOk result (λ st. is_numbered st ≡ true) }
{
    match form {
        StatementKind::Insert => insert(alloc, rest),
        StatementKind::Change(word) => change(alloc, word, rest),
        StatementKind::Delete => delete(rest),
        StatementKind::Get => get(rest),
        StatementKind::Size => size(rest),
        StatementKind::Begin(level) => Ok(Statement::Begin(level)),
        StatementKind::Commit => Ok(Statement::Commit),
        StatementKind::Rollback => Ok(Statement::Rollback),
    }
}

// The session that a number's text names, where the program takes it.
fn session(built: Built, text: &str) -> Result<SessionNo, LineError>
    ensures gives { Gives (λ s. s.0) result (session_by (table_of built) text.now) }
    ensures within { IfOk result (λ s. (1 ≤ s.0) × (s.0 ≤ 64)) }
{
    let Some(number) = session_number(text) else {
        return Err(LineError::Bad(Cause::Session));
    };
    if number > built.sessions {
        return Err(LineError::Bad(Cause::Session));
    }
    Ok(SessionNo(number))
}

// Whether the program takes a statement of that form, with that mark.
fn is_built(built: Built, marked: bool, form: StatementKind) -> bool
    ensures { result ≡ is_taken (table_of built) marked (form_view form) }
{
    (!marked || built.marks) && (!form.is_of_transaction() || built.transactions)
}

// `s2 STATEMENT` or `s2& STATEMENT`, by its first word and the rest.
fn said(alloc: Global, built: Built, first: &str, rest: &str) -> Result<ReadLine, LineError>
    ensures gives { Gives read_line_of result (said_by (table_of built) first.now rest.now) }
    ensures within { IfOk result IsWithin }
{
    if !begins_with(b's', first.as_bytes()) {
        return Err(LineError::Bad(Cause::Word));
    }
    let (word, text) = split_word(rest);
    let Some(form) = form_of(word, rest) else {
        return Err(LineError::Bad(Cause::Word));
    };
    if form.ends_a_line() && has_space(text) {
        return Err(LineError::Bad(Cause::Word));
    }
    let marked = is_marked(first);
    if !is_built(built, marked, form) {
        return Err(LineError::Bad(Cause::Word));
    }
    let session = session(built, session_text(first))?;
    let statement = statement(alloc, form, text)?;
    let driven = !marked;
    Ok(ReadLine::Say {
        session,
        driven,
        statement,
    })
}

// `.step 2 10`, by what stands behind its word.
fn step(built: Built, rest: &str) -> Result<ReadLine, LineError>
    ensures gives { Gives read_line_of result (step_by (table_of built) rest.now) }
    ensures within { IfOk result IsWithin }
{
    if !built.steps {
        return Err(LineError::Bad(Cause::Word));
    }
    let (word, text) = split_word(rest);
    let Some(times) = number_up_to(MAX_STEPS, text) else {
        return Err(LineError::Bad(Cause::Word));
    };
    let session = session(built, word)?;
    Ok(ReadLine::Step { session, times })
}

// A line, where the program takes it.
fn if_built(is_built: bool, line: ReadLine) -> Result<ReadLine, LineError>
    requires { IsWithin line }
    ensures gives { Gives read_line_of result (if_taken is_built (read_line_of line)) }
    ensures within { IfOk result IsWithin }
{
    if is_built {
        Ok(line)
    } else {
        Err(LineError::Bad(Cause::Word))
    }
}

// A line with a leading dot.
fn dotted(built: Built, line: &str) -> Result<ReadLine, LineError>
    ensures gives { Gives read_line_of result (dotted_by (table_of built) line.now) }
    ensures within { IfOk result IsWithin }
{
    match line {
        ".purge" => if_built(built.purges, ReadLine::Purge),
        ".checkpoint" => if_built(built.checkpoints, ReadLine::Checkpoint),
        ".audit" => if_built(built.audits, ReadLine::Audit),
        ".restart" => if_built(built.restarts, ReadLine::Restart),
        _ => {
            let (word, rest) = split_word(line);
            if word == ".step" {
                step(built, rest)
            } else {
                Err(LineError::Bad(Cause::Word))
            }
        }
    }
}

/// The line that bytes are, where so many statements stand before it.
pub fn read_line(
    alloc: Global,
    built: Built,
    mode: Mode,
    count: usize,
    line: &[u8],
) -> Result<ReadLine, LineError>
    ensures gives { Gives read_line_of result
        (line_by (table_of built) (mode_view mode) count line.now) }
    ensures within { IfOk result IsWithin }
    ensures few { count ≤ max_statements
        → IfOk result (λ l. with_statement (read_line_of l) count ≤ max_statements) }
{
    let Ok(text) = str::from_utf8(line) else {
        return Err(LineError::Bad(Cause::Utf8));
    };
    if begins_with(b'.', line) {
        return match mode {
            Mode::Turns => dotted(built, text),
            Mode::Threads => Err(LineError::Bad(Cause::Turn)),
        };
    }
    if count >= MAX_STATEMENTS {
        return Err(LineError::Bad(Cause::Many));
    }
    let (first, rest) = split_word(text);
    said(alloc, built, first, rest)
}
