ghost use Rattle.std.specs.Prelude.{◌≡◌, codes, Err};
ghost use Rattle.journal_model.specs.ScriptText.{turns, read_line, path, wildcard, range};

/// A text that is no path.
pub fn bad_paths()
    ensures l1 { read_line turns 0 (codes "s1 set 1 [\"\",1]") ≡ Err path }
    ensures l2 { read_line turns 0 (codes "s1 set 1 [\"a\",1]") ≡ Err path }
    ensures l3 { read_line turns 0 (codes "s1 set 1 [\"$.\",1]") ≡ Err path }
    ensures l4 { read_line turns 0 (codes "s1 set 1 [\"$.1\",1]") ≡ Err path }
    ensures l5 { read_line turns 0 (codes "s1 set 1 [\"$[\",1]") ≡ Err path }
    ensures l6 { read_line turns 0 (codes "s1 set 1 [\"$[]\",1]") ≡ Err path }
    ensures l7 { read_line turns 0 (codes "s1 set 1 [\"$[-1]\",1]") ≡ Err path }
    ensures l8 { read_line turns 0 (codes "s1 set 1 [\"$[4294967296]\",1]") ≡ Err path }
    ensures l9 { read_line turns 0 (codes "s1 set 1 [\"$[00000000001]\",1]") ≡ Err path }
    ensures l10 { read_line turns 0 (codes "s1 set 1 [\"$[last-]\",1]") ≡ Err path }
    ensures l11 { read_line turns 0 (codes "s1 set 1 [\"$[ 1]\",1]") ≡ Err path }
    ensures l12 { read_line turns 0 (codes "s1 set 1 [\"$[1 to\",1]") ≡ Err path }
    ensures l13 { read_line turns 0 (codes "s1 set 1 [\"$.\\\"a\",1]") ≡ Err path }
    ensures l14 { read_line turns 0 (codes "s12& remove 7 [\"$..a\",\"$[last-1]\"]") ≡ Err path }
    ensures l15 { read_line turns 0 (codes "s64& set 1 [\"$.a\",1,\"$[.]\",{\"b\":2}]") ≡ Err path }
{}

/// Wildcards and ranges are refused by name.
pub fn wildcards_and_ranges()
    ensures l1 { read_line turns 0 (codes "s1 set 1 [\"$[*]\",1]") ≡ Err wildcard }
    ensures l2 { read_line turns 0 (codes "s1 set 1 [\"$.*\",1]") ≡ Err wildcard }
    ensures l3 { read_line turns 0 (codes "s1 set 1 [\"$*\",1]") ≡ Err wildcard }
    ensures l4 { read_line turns 0 (codes "s1 set 1 [\"$[1 to 2]\",1]") ≡ Err range }
    ensures l5 { read_line turns 0 (codes "s1 set 1 [\"$[last to 2]\",1]") ≡ Err range }
    ensures l6 { read_line turns 0 (codes "s1 set 1 [\"$[last-1 to 2]\",1]") ≡ Err range }
{}
