ghost use Rattle.std.specs.Prelude.{◌≡◌, codes, Ok, true, false, pos, [], ◌∷◌};
ghost use Rattle.tree_model.specs.Tree.{number, text, array, object, trees, no_members, member};
ghost use Rattle.tree_model.specs.Path.{key as member_key, cell, last};
ghost use Rattle.tree_model.specs.Edit.{Set, Remove};
ghost use Rattle.journal_model.specs.Documents.{Insert, Change, Delete};
ghost use Rattle.journal_model.specs.Journal.{rr, rc, call, get, size, begin, commit, rollback, say, step, purge, checkpoint, audit, restart};
ghost use Rattle.journal_model.specs.ScriptText.{turns, read_line};

/// Statements.
pub fn statements()
    ensures l1 { read_line turns 0 (codes "s1 get 1") ≡ Ok (say 1 true (get 1)) }
    ensures l2 { read_line turns 0 (codes "s5 size 9") ≡ Ok (say 5 true (size 9)) }
    ensures l3 { read_line turns 0 (codes "s6 delete 3") ≡ Ok (say 6 true (call (Delete 3))) }
    ensures l4 { read_line turns 0 (codes "s7 insert 1 [1,\"x\"]")
        ≡ Ok (say 7 true (call
        (Insert 1 (array (trees ((number (pos 1)) ∷ (text (codes "x")) ∷ [])))))) }
    ensures l5 { read_line turns 0 (codes "s64& set 1 [\"$.a\",1,\"$[2]\",{\"b\":2}]")
        ≡ Ok (say 64 false (call
        (Change 1 (Set
        (((member_key (codes "a") ∷ []), (number (pos 1)))
        ∷ ((cell 2 ∷ []), (object (member (codes "b") (number (pos 2)) no_members))) ∷ []))))) }
    ensures l6 { read_line turns 0 (codes "s12& remove 7 [\"$.a\",\"$[last-1]\"]")
        ≡ Ok (say 12 false (call
        (Change 7 (Remove ((member_key (codes "a") ∷ []) ∷ (last 1 ∷ []) ∷ []))))) }
    ensures l7 { read_line turns 0 (codes "s11 begin") ≡ Ok (say 11 true (begin rr)) }
    ensures l8 { read_line turns 0 (codes "s2 begin rc") ≡ Ok (say 2 true (begin rc)) }
    ensures l9 { read_line turns 0 (codes "s8 commit") ≡ Ok (say 8 true commit) }
    ensures l10 { read_line turns 0 (codes "s3 rollback") ≡ Ok (say 3 true rollback) }
{}

/// Lines that are no statement.
pub fn other_lines()
    ensures l1 { read_line turns 0 (codes ".step 3 17") ≡ Ok (step 3 17) }
    ensures l2 { read_line turns 0 (codes ".purge") ≡ Ok (purge) }
    ensures l3 { read_line turns 0 (codes ".checkpoint") ≡ Ok (checkpoint) }
    ensures l4 { read_line turns 0 (codes ".audit") ≡ Ok (audit) }
    ensures l5 { read_line turns 0 (codes ".restart") ≡ Ok (restart) }
{}
