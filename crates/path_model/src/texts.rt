ghost use Rattle.std.specs.Prelude.{◌≡◌, ◌+◌, ◌<◌, ℕ, List, [], ◌∷◌, length, take, codes, Ok, Err, None};
ghost use Rattle.json.specs.Text.{content, plain};
ghost use Rattle.tree_model.specs.Path.{key, cell, last};
ghost use Rattle.path_model.specs.PathText.{read_path, path_text, Wildcard, Range, Syntax, whole, string_stop};
ghost use Rattle.path_model.specs.Quotes.{CanGoOn};

/// The place of a fault is that of the first byte that can't go on.
pub fn row_faults()
    ensures any_cell { read_path (codes "$.a[*]") ≡ Err (Wildcard 4) }
    ensures any_depth { read_path (codes "$**.a") ≡ Err (Wildcard 1) }
    ensures range { read_path (codes "$[1 to 3]") ≡ Err (Range 3) }
    ensures no_key { read_path (codes "$.") ≡ Err (Syntax 2) }
    ensures digit_first { read_path (codes "$.1a") ≡ Err (Syntax 2) }
    ensures too_wide { read_path (codes "$[4294967296]") ≡ Err (Syntax 2) }
    ensures blank { read_path (codes "$ .a") ≡ Err (Syntax 1) }
{}

/// A path is read so, and printed so.
pub fn row_printed()
    ensures root { read_path (codes "$") ≡ Ok [] }
    ensures legs { read_path (codes "$.a_1[0][last][last-3].$")
        ≡ Ok (key (codes "a_1") ∷ cell 0 ∷ last 0 ∷ last 3 ∷ key (codes "$") ∷ []) }
    ensures zeros { read_path (codes "$[0000000007]") ≡ Ok (cell 7 ∷ []) }
    ensures bare { path_text (key (codes "a_1") ∷ cell 10 ∷ last 0 ∷ last 3 ∷ [])
        ≡ codes "$.a_1[10][last][last-3]" }
    ensures quoted { path_text (key (codes "1 a") ∷ key [] ∷ []) ≡ codes "$.\"1 a\".\"\"" }
{}

/// In a key in quotes that JSON doesn't read, the place of the fault is that of the first byte
/// that can't go on: what stands before it can become a string, and with it nothing can. Where
/// there is no such byte, it is the text's end.
#[tactic(auto, using(crate::proofs::QuoteLemmas::front_goes_on, crate::proofs::QuoteLemmas::byte_stops))]
pub fn faults_in_quotes()
    ensures goes_on { (bytes : List ℕ) → CanGoOn (take (string_stop whole bytes) bytes) }
    ensures stops { (bytes : List ℕ) → content plain bytes ≡ None →
        string_stop whole bytes < length bytes →
        CanGoOn (take (string_stop whole bytes + 1) bytes) → ⊥ }
{}
