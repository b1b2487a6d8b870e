// The limits of a script.
ghost use Rattle.std.specs.Prelude.{◌≡◌};
ghost use Rattle.journal_model.specs.ScriptText.{max_statements};
ghost use Rattle.journal_model.specs.StatementText.{max_session, max_steps, max_pairs};

/// Sessions have the numbers from 1 on.
pub const MAX_SESSIONS: u8 = 64;

pub const MAX_STATEMENTS: usize = 100_000;

/// Of one line.
pub const MAX_STEPS: u32 = 1_000_000;

/// Pairs or paths, of one change.
pub const MAX_PAIRS: usize = 256;

/// They are those of the definitions.
pub fn limits_are_defined()
    ensures sessions { MAX_SESSIONS ≡ max_session }
    ensures statements { MAX_STATEMENTS ≡ max_statements }
    ensures steps { MAX_STEPS ≡ max_steps }
    ensures pairs { MAX_PAIRS ≡ max_pairs }
{}
