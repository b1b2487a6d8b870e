ghost use Rattle.std.specs.Prelude.{◌≡◌, codes, Ok, Err};
ghost use Rattle.journal_model.specs.Journal.{step};
ghost use Rattle.journal_model.specs.ScriptText.{turns, read_line, word, session, document};

/// A line whose first word is no session, or whose statement is unknown, has the cause `word`.
pub fn unknown_words()
    ensures l1 { read_line turns 0 (codes "x1 get 1") ≡ Err word }
    ensures l2 { read_line turns 0 (codes "s1") ≡ Err word }
    ensures l3 { read_line turns 0 (codes "s1 ") ≡ Err word }
    ensures l4 { read_line turns 0 (codes "s1 gets 1") ≡ Err word }
    ensures l5 { read_line turns 0 (codes "[1 begin") ≡ Err word }
    ensures l6 { read_line turns 0 (codes "step 3 17") ≡ Err word }
    ensures l7 { read_line turns 0 (codes "purge") ≡ Err word }
    ensures l8 { read_line turns 0 (codes "]s8 commit") ≡ Err word }
    ensures l9 { read_line turns 0 (codes "s1 \"et 1") ≡ Err word }
    ensures l10 { read_line turns 0 (codes "s6xdelete 3") ≡ Err word }
    ensures l11 { read_line turns 0 (codes "s1$get 1") ≡ Err word }
    ensures l12 { read_line turns 0 (codes "s2begin rc") ≡ Err word }
    ensures l13 { read_line turns 0 (codes "s1 savepoint") ≡ Err word }
    ensures l14 { read_line turns 0 (codes "s1 rollback to") ≡ Err word }
{}

/// So has a word behind the last one of its form, which may be empty.
pub fn words_behind()
    ensures l1 { read_line turns 0 (codes "s1 size 1 1") ≡ Err word }
    ensures l2 { read_line turns 0 (codes "s1 begin xx") ≡ Err word }
    ensures l3 { read_line turns 0 (codes "s1 begin rr x") ≡ Err word }
    ensures l4 { read_line turns 0 (codes "s1 commit 1") ≡ Err word }
    ensures l5 { read_line turns 0 (codes "s1 rollback 1") ≡ Err word }
    ensures l6 { read_line turns 0 (codes "s1 get 1 $") ≡ Err word }
    ensures l7 { read_line turns 0 (codes "s1 get 1 ") ≡ Err word }
    ensures l8 { read_line turns 0 (codes "s1 get 1 $.a b") ≡ Err word }
    ensures l9 { read_line turns 0 (codes "s1 savepoint 1 1") ≡ Err word }
    ensures l10 { read_line turns 0 (codes "s2 begin 0c") ≡ Err word }
{}

/// Words stand apart by one space.
pub fn single_spaces()
    ensures l1 { read_line turns 0 (codes "s1  get 1") ≡ Err word }
    ensures l2 { read_line turns 0 (codes " s1 get 1") ≡ Err word }
    ensures l3 { read_line turns 0 (codes "s1 insert  1 1") ≡ Err document }
    ensures l4 { read_line turns 0 (codes ". purge") ≡ Err word }
    ensures l5 { read_line turns 0 (codes "s12& remove 7[\"$.a\",\"$[last-1]\"]") ≡ Err document }
{}

/// A line with a leading `.` is one of five words.
pub fn dotted_words()
    ensures l1 { read_line turns 0 (codes ".") ≡ Err word }
    ensures l2 { read_line turns 0 (codes ".purged") ≡ Err word }
    ensures l3 { read_line turns 0 (codes ".purge 1") ≡ Err word }
    ensures l4 { read_line turns 0 (codes ".audit ") ≡ Err word }
    ensures l5 { read_line turns 0 (codes ".urge") ≡ Err word }
    ensures l6 { read_line turns 0 (codes ".chec9kpoint") ≡ Err word }
    ensures l7 { read_line turns 0 (codes ".retart") ≡ Err word }
    ensures l8 { read_line turns 0 (codes ".saudit") ≡ Err word }
    ensures l9 { read_line turns 0 (codes ".st\"p 3 17") ≡ Err word }
{}

/// The number of steps is judged before the session.
pub fn step_counts()
    ensures l1 { read_line turns 0 (codes ".step 1") ≡ Err word }
    ensures l2 { read_line turns 0 (codes ".step 1 0") ≡ Err word }
    ensures l3 { read_line turns 0 (codes ".step 1 1000001") ≡ Err word }
    ensures l4 { read_line turns 0 (codes ".step 1 1 1") ≡ Err word }
    ensures l5 { read_line turns 0 (codes ".step 65 1") ≡ Err session }
    ensures l6 { read_line turns 0 (codes ".step x 1") ≡ Err session }
    ensures l7 { read_line turns 0 (codes ".step 3 17") ≡ Ok (step 3 17) }
    ensures l8 { read_line turns 0 (codes ".step 99 0") ≡ Err word }
    ensures l9 { read_line turns 0 (codes ".step 99 1") ≡ Err session }
{}
