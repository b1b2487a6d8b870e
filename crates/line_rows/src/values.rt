ghost use Rattle.std.specs.Prelude.{◌≡◌, codes, Err};
ghost use Rattle.journal_model.specs.ScriptText.{turns, read_line, syntax, float, arguments, root};

/// A value that is no JSON text.
pub fn json_texts()
    ensures l1 { read_line turns 0 (codes "s1 insert 1") ≡ Err syntax }
    ensures l2 { read_line turns 0 (codes "s1 insert 1 ") ≡ Err syntax }
    ensures l3 { read_line turns 0 (codes "s1 insert 1 {") ≡ Err syntax }
    ensures l4 { read_line turns 0 (codes "s1 insert 1 01") ≡ Err syntax }
    ensures l5 { read_line turns 0 (codes "s1 insert 1 [1,]") ≡ Err syntax }
    ensures l6 { read_line turns 0 (codes "s1 insert 1 1e999") ≡ Err syntax }
    ensures l7 { read_line turns 0 (codes "s1 insert 1 \"\\ud800\"") ≡ Err syntax }
    ensures l8 { read_line turns 0 (codes "s1 insert 1 {\"a\":1.5,\"a\":1}x") ≡ Err syntax }
{}

/// A number that is not whole, or past 64 bits.
pub fn json_numbers()
    ensures l1 { read_line turns 0 (codes "s1 insert 1 1.5") ≡ Err float }
    ensures l2 { read_line turns 0 (codes "s1 insert 1 -0") ≡ Err float }
    ensures l3 { read_line turns 0 (codes "s1 insert 1 1e2") ≡ Err float }
    ensures l4 { read_line turns 0 (codes "s1 insert 1 18446744073709551616") ≡ Err float }
    ensures l5 { read_line turns 0 (codes "s1 insert 1 -9223372036854775809") ≡ Err float }
{}

/// The array behind a change: paths and values in turn, or paths, one at least.
pub fn edit_arguments()
    ensures l1 { read_line turns 0 (codes "s1 set 1") ≡ Err syntax }
    ensures l2 { read_line turns 0 (codes "s1 set 1 []") ≡ Err arguments }
    ensures l3 { read_line turns 0 (codes "s1 set 1 {}") ≡ Err arguments }
    ensures l4 { read_line turns 0 (codes "s1 set 1 [\"$\"]") ≡ Err arguments }
    ensures l5 { read_line turns 0 (codes "s1 set 1 [1,1]") ≡ Err arguments }
    ensures l6 { read_line turns 0 (codes "s1 set 1 [\"$\",1,\"$\"]") ≡ Err arguments }
    ensures l7 { read_line turns 0 (codes "s1 remove 1 [\"$.a\",1]") ≡ Err arguments }
    ensures l8 { read_line turns 0 (codes "s64& set 1 [\"$.a\"],1,\"$[2]\",{\"b\":2}]")
        ≡ Err syntax }
    ensures l9 { read_line turns 0 (codes "s1 remove 1 [\"$\"]") ≡ Err root }
    ensures l10 { read_line turns 0 (codes "s1 remove 1 [\"$.a\",\"$\"]") ≡ Err root }
{}
