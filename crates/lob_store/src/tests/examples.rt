// The scripts under examples/ and their transcripts, and the runs that the documents tell.
use super::*;

// A test can't read examples/, so that the texts stand here again.
#[test]
fn the_examples(rt: HostRuntime) -> Result<(), Fail> {
    let cases: [(&[u8], &[u8]); 5] = [
        // first.script
        (
            b"# A document is stored under a number, and shown.\n\
              s1 insert 1 {\"a\":1000,\"b\":\"wxyz\",\"c\":\"[1, 3, 5, 7]\"}\ns1 get 1\n",
            b"1 s1 start 1\n2 s1 did 1 ok full\n3 s1 commit 1\n4 s1 start 2\n5 s1 view 1\n\
              6 s1 did 2 doc {\"a\": 1000, \"b\": \"wxyz\", \"c\": \"[1, 3, 5, 7]\"}\n",
        ),
        // numbers.script
        (
            b"# Whole numbers from -2^63 to 2^64 - 1 are kept exactly. Members come back in key \
              order:\n# shorter keys first, then by their bytes. Of equal keys the last stands.\n\
              s1 insert 1 [18446744073709551615,-9223372036854775808]\ns1 get 1\n\
              s1 insert 2 {\"name\":\"x\",\"id\":7,\"id\":8}\ns1 get 2\n",
            b"1 s1 start 1\n2 s1 did 1 ok full\n3 s1 commit 1\n4 s1 start 2\n5 s1 view 1\n\
              6 s1 did 2 doc [18446744073709551615, -9223372036854775808]\n7 s1 start 3\n\
              8 s1 did 3 ok full\n9 s1 commit 2\n10 s1 start 4\n11 s1 view 2\n\
              12 s1 did 4 doc {\"id\": 8, \"name\": \"x\"}\n",
        ),
        // refusals.script
        (
            b"# A number that has a document takes no other, and a number without one shows \
              nothing.\ns1 insert 7 \"first\"\ns1 insert 7 \"second\"\ns1 get 7\ns1 get 8\n",
            b"1 s1 start 1\n2 s1 did 1 ok full\n3 s1 commit 1\n4 s1 start 2\n\
              5 s1 did 2 err exists\n6 s1 start 3\n7 s1 view 1\n8 s1 did 3 doc \"first\"\n\
              9 s1 start 4\n10 s1 view 1\n11 s1 did 4 none\n",
        ),
        // edits.script
        (
            b"# A document, its edits from left to right, and what each is answered.\n\
              s1 insert 1 {\"a\":1000,\"b\":\"wxyz\",\"c\":\"[1, 3, 5, 7]\"}\n\
              s1 set 1 [\"$.d\",1]\ns1 replace 1 [\"$.e\",1]\ns1 set 1 [\"$.a\",1,\"$.a\",1000]\n\
              s1 remove 1 [\"$.c\",\"$.d\"]\ns1 set 9 [\"$\",1]\ns1 get 1\ns1 delete 1\n",
            b"1 s1 start 1\n2 s1 did 1 ok full\n3 s1 commit 1\n4 s1 start 2\n5 s1 did 2 ok full\n\
              6 s1 commit 2\n7 s1 start 3\n8 s1 did 3 same\n9 s1 start 4\n10 s1 did 4 same\n\
              11 s1 start 5\n12 s1 did 5 ok part 13\n13 s1 commit 3\n14 s1 start 6\n\
              15 s1 did 6 err missing\n16 s1 start 7\n17 s1 view 3\n\
              18 s1 did 7 doc {\"a\": 1000, \"b\": \"wxyz\"}\n19 s1 start 8\n20 s1 did 8 ok\n\
              21 s1 commit 4\n",
        ),
        // sizes.script
        (
            b"# A shorter text is put in the place of a longer one and leaves its room; a longer \
              one takes a whole new encoding.\n\
              s1 insert 1 {\"a\":1000,\"b\":\"wxyz\",\"c\":\"[1, 3, 5, 7]\"}\ns1 size 1\n\
              s1 set 1 [\"$.b\",\"a\"]\ns1 size 1\ns1 set 1 [\"$.b\",\"abcde\"]\ns1 size 1\n",
            b"1 s1 start 1\n2 s1 did 1 ok full\n3 s1 commit 1\n4 s1 start 2\n5 s1 view 1\n\
              6 s1 did 2 size 47 free 0\n7 s1 start 3\n8 s1 did 3 ok part 2\n9 s1 commit 2\n\
              10 s1 start 4\n11 s1 view 2\n12 s1 did 4 size 47 free 3\n13 s1 start 5\n\
              14 s1 did 5 ok full\n15 s1 commit 3\n16 s1 start 6\n17 s1 view 3\n\
              18 s1 did 6 size 48 free 0\n",
        ),
    ];
    for (script, transcript) in cases {
        let (status, taken) = outcome(&rt, &whole(script))?;
        assert_eq!(rt; status, Status::Done);
        assert_eq!(rt; taken.as_slice(), transcript);
    }
    Ok(())
}

#[test]
fn scripts_and_their_transcripts(rt: HostRuntime) -> Result<(), Fail> {
    let cases: [(&[u8], &[u8]); 7] = [
        // A document and its size: the program's own run.
        (
            b"s1 insert 1 {\"a\":1000,\"b\":\"wxyz\",\"c\":\"[1, 3, 5, 7]\"}\ns1 size 1\n",
            b"1 s1 start 1\n2 s1 did 1 ok full\n3 s1 commit 1\n4 s1 start 2\n5 s1 view 1\n\
              6 s1 did 2 size 47 free 0\n",
        ),
        (b"", b""),
        (b"# nothing\n\n\r\n", b""),
        (
            b"s1 insert 1 [18446744073709551615,-9223372036854775808]\r\ns1 get 1",
            b"1 s1 start 1\n2 s1 did 1 ok full\n3 s1 commit 1\n4 s1 start 2\n5 s1 view 1\n\
              6 s1 did 2 doc [18446744073709551615, -9223372036854775808]\n",
        ),
        (
            b"s1 insert 7 1\ns1 insert 7 2\ns1 insert 3 3\n",
            b"1 s1 start 1\n2 s1 did 1 ok full\n3 s1 commit 1\n4 s1 start 2\n\
              5 s1 did 2 err exists\n6 s1 start 3\n7 s1 did 3 ok full\n8 s1 commit 2\n",
        ),
        (
            b"s1 get 9\n",
            b"1 s1 start 1\n2 s1 view 0\n3 s1 did 1 none\n",
        ),
        // A delete commits, and a change that is refused or alters nothing does not.
        (
            b"s1 insert 1 1\ns1 set 1 [\"$\",1]\ns1 set 2 [\"$\",1]\ns1 set 1 [\"$[1]\",2]\n\
              s1 delete 1\ns1 get 1\n",
            b"1 s1 start 1\n2 s1 did 1 ok full\n3 s1 commit 1\n4 s1 start 2\n5 s1 did 2 same\n\
              6 s1 start 3\n7 s1 did 3 err missing\n8 s1 start 4\n9 s1 did 4 ok full\n\
              10 s1 commit 2\n11 s1 start 5\n12 s1 did 5 ok\n13 s1 commit 3\n14 s1 start 6\n\
              15 s1 view 3\n16 s1 did 6 none\n",
        ),
    ];
    for (script, transcript) in cases {
        let (status, taken) = outcome(&rt, &whole(script))?;
        assert_eq!(rt; status, Status::Done);
        assert_eq!(rt; taken.as_slice(), transcript);
    }
    Ok(())
}
