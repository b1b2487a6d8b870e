ghost use Rattle.std.specs.Prelude.{◌≡◌, List, true, false};
ghost use Rattle.journal_model.specs.Journal.{Script, Opening, Entry};
ghost use Rattle.journal_model.specs.Legal.{Legal};
ghost use Rattle.journal_model.specs.Turns.{Turns};
ghost use Rattle.journal_rows.specs.Told.{is_legal};
ghost use Rattle.journal_rows.specs.Cuts.{Cut, follows};

/// A test tells which journals are legal, so that closed ones are told by computing.
pub fn legal_by_test()
    ensures legal { (o : Opening) (script : Script) (entries : List Entry)
        → is_legal o script entries ≡ true
        → Legal o script entries }
    ensures illegal { (o : Opening) (script : Script) (entries : List Entry)
        → is_legal o script entries ≡ false
        → Legal o script entries → ⊥ }
{}

/// A test tells that a journal follows the lines of its script, by how many entries each line has.
pub fn turns_by_test()
    ensures { (o : Opening) (script : Script) (cuts : List Cut) (entries : List Entry)
        → follows o script cuts entries ≡ true → Turns o script entries }
{}
