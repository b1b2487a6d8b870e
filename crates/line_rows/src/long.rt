ghost use Rattle.std.specs.Prelude.{◌≡◌, codes, [], Err};
ghost use Rattle.journal_model.specs.ScriptText.{turns, read_line, deep, key, pairs, path, wildcard};
ghost use Rattle.line_rows.specs.Long.{removal, keyed, nested, legs};

/// More than 256 paths, a key of more than 65,535 bytes, more than 100 arrays in each other, which
/// is told before what else is wrong, and more than 100 legs.
pub fn long_lines()
    ensures too_many { read_line turns 0 (removal 256) ≡ Err pairs }
    ensures too_long { read_line turns 0 (keyed 65536) ≡ Err key }
    ensures too_deep { read_line turns 0 (nested 101 []) ≡ Err deep }
    ensures deep_and_bad { read_line turns 0 (nested 101 (codes "x")) ≡ Err deep }
    ensures leg_too_many { read_line turns 0 (legs 101 []) ≡ Err path }
    ensures wildcard_there { read_line turns 0 (legs 100 (codes "*")) ≡ Err wildcard }
{}
