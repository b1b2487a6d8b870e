// A script.
ghost use Rattle.std.specs.Prelude.{◌≡◌, ◌≤◌, vec_len, true};
ghost use Rattle.std.specs.List.{list_all};
ghost use Rattle.journal_model.specs.ScriptText.{max_statements};
ghost use Rattle.journal_model.specs.StatementText.{max_session};
ghost use Rattle.statements.specs.Limits.{has_session, said, are_numbered};

use crate::Statement;
use engine_base::SessionNo;

/// One line of a script. The statement that a session says stands in the session's own list.
#[derive(Clone, Copy, Debug, PartialEq, Eq)]
pub enum Line {
    /// The session's next statement comes. Unless the line is driven it steps nothing.
    Say { session: SessionNo, driven: bool },
    /// The session makes up to so many steps.
    Step { session: SessionNo, times: u32 },
    /// All that no view needs any more is purged.
    Purge,
    Checkpoint,
    /// The store is counted.
    Audit,
    /// All memory is dropped, and the store is opened again.
    Restart,
}

/// The lines in order, and the statements of each session in the order of their lines, those of
/// session 1 first.
#[derive(Drop)]
pub struct Script {
    lines: Vec<Line>,
    statements: Vec<Vec<Statement>>,
    ghost lists: { vec_len statements ≡ max_session },
    ghost sessions: { list_all has_session lines.items ≡ true },
    ghost few: { said lines.items ≤ max_statements },
    ghost documents: { list_all are_numbered statements.items ≡ true },
}

impl Script {
    ghost use Rattle.std.specs.Prelude.{map, length};
    ghost use Rattle.journal_model.specs.Journal as journal;
    ghost use Rattle.statements.specs.Forms.{statement_of};
    ghost use Rattle.statements.specs.Limits.{is_numbered};
    ghost use Rattle.statements.specs.Lines.{shape_of};
    ghost use Rattle.statements.specs.Scripts.{IsScript};

    pub(crate) fn new(lines: Vec<Line>, statements: Vec<Vec<Statement>>) -> Script
        requires lists { length statements.items ≡ max_session }
        requires sessions { list_all has_session lines.items ≡ true }
        requires few { said lines.items ≤ max_statements }
        requires documents { list_all are_numbered statements.items ≡ true }
        ensures lines { result.lines ≡ lines }
        ensures statements { result.statements ≡ statements }
    {
        Script { lines, statements }
    }

    pub fn lines(&self) -> &[Line]
        ensures lines { (model : journal.Script) → IsScript self.now model
            → result.now ≡ map shape_of model }
        ensures sessions { list_all has_session result.now ≡ true }
        ensures few { said result.now ≤ max_statements }
    {
        self.lines.as_slice()
    }

    /// The statements of one session.
    pub fn statements(&self, session: SessionNo) -> &[Statement]
        requires { (1 ≤ session.0) × (session.0 ≤ max_session) }
        ensures statements { (model : journal.Script) → IsScript self.now model
            → map statement_of result.now ≡ journal.statements session.0 model }
        ensures documents { list_all is_numbered result.now ≡ true }
    {
        let index = usize::from(session.0) - 1;
        self.statements[index].as_slice()
    }
}
