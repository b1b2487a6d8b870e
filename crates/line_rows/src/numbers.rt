ghost use Rattle.std.specs.Prelude.{◌≡◌, codes, Ok, Err, true};
ghost use Rattle.journal_model.specs.Journal.{get, say};
ghost use Rattle.journal_model.specs.ScriptText.{turns, read_line, word, session, document};

/// A session is 1 to 64, in decimal without leading zeros; the statement's word is judged first.
pub fn session_numbers()
    ensures l1 { read_line turns 0 (codes "s65 get 1") ≡ Err session }
    ensures l2 { read_line turns 0 (codes "s0 get 1") ≡ Err session }
    ensures l3 { read_line turns 0 (codes "s01 get 1") ≡ Err session }
    ensures l4 { read_line turns 0 (codes "s1&& get 1") ≡ Err session }
    ensures l5 { read_line turns 0 (codes "s& get 1") ≡ Err session }
    ensures l6 { read_line turns 0 (codes "sx get 1") ≡ Err session }
    ensures l7 { read_line turns 0 (codes "s get 1") ≡ Err session }
    ensures l8 { read_line turns 0 (codes "s6[ delete 3") ≡ Err session }
    ensures l9 { read_line turns 0 (codes "s&1 get 1") ≡ Err session }
    ensures l10 { read_line turns 0 (codes "sx gets 1") ≡ Err word }
    ensures l11 { read_line turns 0 (codes "s65 get 0") ≡ Err session }
{}

/// A document is 1 to 4,294,967,295; it is judged before what stands behind it.
pub fn document_numbers()
    ensures l1 { read_line turns 0 (codes "s1 get") ≡ Err document }
    ensures l2 { read_line turns 0 (codes "s1 get x") ≡ Err document }
    ensures l3 { read_line turns 0 (codes "s1 get 0") ≡ Err document }
    ensures l4 { read_line turns 0 (codes "s1 get 01") ≡ Err document }
    ensures l5 { read_line turns 0 (codes "s1 get 4294967296") ≡ Err document }
    ensures l6 { read_line turns 0 (codes "s7 insert 1\" [1,\"x\"]") ≡ Err document }
    ensures l7 { read_line turns 0 (codes "s1 insert 0 {") ≡ Err document }
    ensures l8 { read_line turns 0 (codes "s1 insert") ≡ Err document }
    ensures l9 { read_line turns 0 (codes "s1 get 4294967295") ≡ Ok (say 1 true (get 4294967295)) }
{}
