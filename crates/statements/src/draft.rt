// A script as far as it is read.
ghost use Rattle.std.specs.Prelude.{◌≡◌, ◌≤◌, ◌++◌, ◌∷◌, [], OnOk, IfOk, length};
ghost use Rattle.journal_model.specs.Journal as journal;
ghost use Rattle.journal_model.specs.ScriptText.{max_statements, with_statement};
ghost use Rattle.journal_model.specs.StatementText.{max_session};
ghost use Rattle.statements.specs.Forms.{statement_of};
ghost use Rattle.statements.specs.Lines.{read_line_of, shape_of, AreLists, ArePartsOf, IsGrown, IsWithin};

use crate::limits::MAX_SESSIONS;
use crate::{Line, Statement};
use engine_base::SessionNo;
use std::alloc::{AllocError, Global};

/// A line as it is read, with its statement.
#[derive(Drop)]
pub enum ReadLine {
    Say {
        session: SessionNo,
        driven: bool,
        statement: Statement,
    },
    Step {
        session: SessionNo,
        times: u32,
    },
    Purge,
    Checkpoint,
    Audit,
    Restart,
}

/// The lines so far, and the statements of each session.
#[derive(Drop)]
pub struct Draft {
    pub lines: Vec<Line>,
    pub statements: Vec<Vec<Statement>>,
}

impl ReadLine {
    /// So many statements, with its own.
    pub fn counted(&self, count: usize) -> usize
        requires { count ≤ max_statements }
        ensures { result ≡ with_statement (read_line_of self.now) count }
    {
        match self {
            ReadLine::Say { .. } => count + 1,
            _ => count,
        }
    }

    // The line without its statement.
    fn shape(&self) -> Line
        ensures { result ≡ shape_of (read_line_of self.now) }
    {
        match self {
            ReadLine::Say {
                session,
                driven,
                ..
            } => Line::Say {
                session: *session,
                driven: *driven,
            },
            ReadLine::Step { session, times } => Line::Step {
                session: *session,
                times: *times,
            },
            ReadLine::Purge => Line::Purge,
            ReadLine::Checkpoint => Line::Checkpoint,
            ReadLine::Audit => Line::Audit,
            ReadLine::Restart => Line::Restart,
        }
    }
}

// The next statement of a session.
fn push_said(
    lists: &mut Vec<Vec<Statement>>,
    session: SessionNo,
    statement: Statement,
) -> Result<(), AllocError>
    requires { (1 ≤ session.0) × (session.0 ≤ length lists.old.items) }
    ensures { OnOk result
        (IsGrown lists.old.items lists.new.items session.0 (statement_of statement)) }
{
    let index = usize::from(session.0) - 1;
    lists[index].push(statement)?;
    Ok(())
}

// The statement of a line, where it has one.
fn push_statement(lists: &mut Vec<Vec<Statement>>, line: ReadLine) -> Result<(), AllocError>
    requires within { IsWithin line }
    requires count { length lists.old.items ≡ max_session }
    ensures more { (model : journal.Script) → AreLists lists.old.items model
        → OnOk result (AreLists lists.new.items (model ++ read_line_of line ∷ [])) }
    ensures count { OnOk result (length lists.new.items ≡ max_session) }
{
    match line {
        ReadLine::Say {
            session,
            statement,
            ..
        } => push_said(lists, session, statement),
        ReadLine::Step { .. } => Ok(()),
        ReadLine::Purge => Ok(()),
        ReadLine::Checkpoint => Ok(()),
        ReadLine::Audit => Ok(()),
        ReadLine::Restart => Ok(()),
    }
}

impl Draft {
    /// No line.
    pub fn new(alloc: Global) -> Result<Draft, AllocError>
        ensures { IfOk result (λ draft. ArePartsOf draft.lines.items draft.statements.items []) }
    {
        let mut statements = Vec::new(alloc);
        for _ in 0..usize::from(MAX_SESSIONS) {
            statements.push(Vec::new(alloc))?;
        }
        let lines = Vec::new(alloc);
        Ok(Draft { lines, statements })
    }

    /// One line more.
    pub fn push(&mut self, line: ReadLine) -> Result<(), AllocError>
        requires within { IsWithin line }
        requires count { length self.old.statements.items ≡ max_session }
        ensures { (model : journal.Script)
            → ArePartsOf self.old.lines.items self.old.statements.items model
            → OnOk result (ArePartsOf self.new.lines.items self.new.statements.items
            (model ++ read_line_of line ∷ [])) }
    {
        self.lines.push(line.shape())?;
        push_statement(&mut self.statements, line)
    }
}
