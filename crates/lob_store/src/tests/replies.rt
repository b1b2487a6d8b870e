// What changes and reads are answered.
use super::*;

const X: &[u8] = b"s1 insert 1 {\"a\":1000,\"b\":\"wxyz\",\"c\":\"[1, 3, 5, 7]\"}\n";

// What each statement is answered, in the order of the lines: the words behind `did N`.
fn replies(rt: &HostRuntime, transcript: &[u8]) -> Result<Vec<u8>, Fail> {
    let mut replies = Vec::new(rt.alloc());
    for line in transcript.split(|byte| *byte == b'\n') {
        let text = str::from_utf8(line)?;
        if let Some((_, rest)) = text.split_once(" did ") {
            if let Some((_, reply)) = rest.split_once(' ') {
                replies.extend_from_slice(reply.as_bytes())?;
                replies.push(b'\n')?;
            }
        }
    }
    Ok(replies)
}

#[test]
fn replies_to_changes(rt: HostRuntime) -> Result<(), Fail> {
    let cases: [(&[u8], &[u8]); 7] = [
        (
            b"s1 set 1 [\"$.d\",1]\ns1 replace 1 [\"$.e\",1]\ns1 remove 1 [\"$.e\"]\n\
              s1 set 1 [\"$.a\",1000]\ns1 insert 1 1\n",
            b"ok full\nok full\nsame\nsame\nsame\nerr exists\n",
        ),
        (
            b"s1 set 9 [\"$\",1]\ns1 get 9\ns1 delete 9\ns1 remove 9 [\"$.a\"]\n",
            b"ok full\nerr missing\nnone\nerr missing\nerr missing\n",
        ),
        // Pairs are made from left to right, each on what the one before left.
        (
            b"s1 set 1 [\"$.b\",[],\"$.b[0]\",7,\"$.b[9]\",8,\"$.a[1]\",2]\ns1 get 1\n",
            b"ok full\nok full\ndoc {\"a\": [1000, 2], \"b\": [7, 8], \"c\": \"[1, 3, 5, 7]\"}\n",
        ),
        // Pairs that come back to where they began change nothing.
        (
            b"s1 set 1 [\"$.a\",1,\"$.a\",1000]\ns1 get 1\n",
            b"ok full\nsame\ndoc {\"a\": 1000, \"b\": \"wxyz\", \"c\": \"[1, 3, 5, 7]\"}\n",
        ),
        // Behind a delete the number is free again.
        (
            b"s1 delete 1\ns1 get 1\ns1 insert 1 2\ns1 get 1\n",
            b"ok full\nok\nnone\nok full\ndoc 2\n",
        ),
        // The root, and positions on a value that is no list.
        (
            b"s1 set 1 [\"$\",1]\ns1 set 1 [\"$[last-3]\",9]\ns1 set 1 [\"$[1]\",2]\n\
              s1 set 1 [\"$[last]\",3]\ns1 get 1\n",
            b"ok full\nok full\nsame\nok full\nok part 1\ndoc [1, 3]\n",
        ),
        (
            b"s1 set 1 [\"$\",1]\ns1 set 1 [\"$[0]\",5]\ns1 get 1\n",
            b"ok full\nok full\nok full\ndoc 5\n",
        ),
    ];
    for (changes, wanted) in cases {
        let mut script = Vec::from_slice(rt.alloc(), X)?;
        script.extend_from_slice(changes)?;
        let (status, taken) = outcome(&rt, &whole(&script))?;
        assert_eq!(rt; status, Status::Done);
        let given = replies(&rt, &taken)?;
        assert_eq!(rt; given.as_slice(), wanted);
    }
    Ok(())
}

#[test]
fn changes_in_place_and_sizes(rt: HostRuntime) -> Result<(), Fail> {
    let cases: [(&[u8], &[u8]); 6] = [
        (
            b"s1 size 1\ns1 size 2\n",
            b"ok full\nsize 47 free 0\nnone\n",
        ),
        // A shorter text leaves its room.
        (
            b"s1 set 1 [\"$.b\",\"a\"]\ns1 size 1\ns1 get 1\n",
            b"ok full\nok part 2\nsize 47 free 3\n\
              doc {\"a\": 1000, \"b\": \"a\", \"c\": \"[1, 3, 5, 7]\"}\n",
        ),
        // Which the old text fills again, and a longer one doesn't fit.
        (
            b"s1 set 1 [\"$.b\",\"a\"]\ns1 set 1 [\"$.b\",\"wxyz\"]\ns1 size 1\n\
              s1 set 1 [\"$.b\",\"abcde\"]\ns1 size 1\n",
            b"ok full\nok part 2\nok part 2\nsize 47 free 0\nok full\nsize 48 free 0\n",
        ),
        // A number stands in its entry, and the text comes back to its place.
        (
            b"s1 set 1 [\"$.b\",1]\ns1 size 1\ns1 set 1 [\"$.b\",\"wxyz\"]\ns1 size 1\n",
            b"ok full\nok part 2\nsize 47 free 5\nok part 2\nsize 47 free 0\n",
        ),
        (
            b"s1 remove 1 [\"$.c\"]\ns1 size 1\ns1 get 1\n",
            b"ok full\nok part 7\nsize 47 free 21\ndoc {\"a\": 1000, \"b\": \"wxyz\"}\n",
        ),
        (
            b"s1 insert 2 [18446744073709551615,-9223372036854775808]\ns1 size 2\n",
            b"ok full\nok full\nsize 27 free 0\n",
        ),
    ];
    for (statements, wanted) in cases {
        let mut script = Vec::from_slice(rt.alloc(), X)?;
        script.extend_from_slice(statements)?;
        let (status, taken) = outcome(&rt, &whole(&script))?;
        assert_eq!(rt; status, Status::Done);
        let given = replies(&rt, &taken)?;
        assert_eq!(rt; given.as_slice(), wanted);
    }
    Ok(())
}

#[test]
fn sizes_of_long_texts(rt: HostRuntime) -> Result<(), Fail> {
    let cases: [(&[u8], usize, &[u8], &[u8]); 4] = [
        // Small, with the number behind an offset, and large, with the number in its entry.
        (
            b"[\"",
            65_518,
            b"\",100000]",
            b"ok full\nsize 65536 free 0\n",
        ),
        (
            b"[\"",
            65_519,
            b"\",100000]",
            b"ok full\nsize 65541 free 0\n",
        ),
        (b"\"", 16_777_211, b"\"", b"ok full\nsize 16777216 free 0\n"),
        (b"\"", 16_777_212, b"\"", b"err large\nnone\n"),
    ];
    for (front, letters, back, wanted) in cases {
        let mut script = Vec::from_slice(rt.alloc(), b"s1 insert 1 ")?;
        script.extend_from_slice(front)?;
        let end = script.len() + letters;
        script.resize(end, b'u')?;
        script.extend_from_slice(back)?;
        script.extend_from_slice(b"\ns1 size 1\n")?;
        let (status, taken) = outcome(&rt, &whole(&script))?;
        assert_eq!(rt; status, Status::Done);
        let given = replies(&rt, &taken)?;
        assert_eq!(rt; given.as_slice(), wanted);
    }
    Ok(())
}

// `[` a hundred times, a number, and `]` as often.
fn nested(rt: &HostRuntime, depth: usize) -> Result<Vec<u8>, Fail> {
    let mut text = Vec::new(rt.alloc());
    text.resize(depth, b'[')?;
    text.push(b'1')?;
    text.resize(2 * depth + 1, b']')?;
    Ok(text)
}

#[test]
fn a_change_that_nests_too_deep_leaves_the_document(rt: HostRuntime) -> Result<(), Fail> {
    let mut script = Vec::from_slice(rt.alloc(), b"s1 insert 1 {\"a\":0}\ns1 set 1 [\"$.a\",")?;
    script.extend_from_slice(&nested(&rt, 99)?)?;
    script.extend_from_slice(b"]\ns1 set 1 [\"$.a\",[")?;
    script.extend_from_slice(&nested(&rt, 98)?)?;
    script.extend_from_slice(b"],\"$.b\",[],\"$.b[0]\",")?;
    script.extend_from_slice(&nested(&rt, 99)?)?;
    script.extend_from_slice(b"]\ns1 remove 1 [\"$.a\"]\ns1 get 1\n")?;
    let (status, taken) = outcome(&rt, &whole(&script))?;
    assert_eq!(rt; status, Status::Done);
    let given = replies(&rt, &taken)?;
    assert_eq!(rt;
        given.as_slice(),
        b"ok full\nok full\nerr deep\nok part 1\ndoc {}\n".as_slice()
    );
    Ok(())
}
