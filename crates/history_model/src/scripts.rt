ghost use Rattle.std.specs.Prelude.{◌≡◌, ℕ, List, Ok};
ghost use Rattle.journal_model.specs.Journal.{Script};
ghost use Rattle.journal_model.specs.Built.{Built};
ghost use Rattle.journal_model.specs.ScriptText.{Mode, script_by};
ghost use Rattle.history_model.specs.Laws.{IsNumbered};

/// In a script that was read no session but 1 to 64 has a statement, whatever the program takes.
#[tactic(auto, using(crate::proofs::ScriptLemmas::read_numbered))]
pub fn scripts_are_numbered()
    ensures { (table : Built) (mode : Mode) (bytes : List ℕ) (script : Script)
        → script_by table mode bytes ≡ Ok script → IsNumbered script }
{}
