use super::*;
use engine_base::{DocId, SessionNo};
use json_edit::Edit;
use json_tree::Json;
use std::test::*;

const EVERYTHING: Built = Built {
    sessions: 64,
    marks: true,
    transactions: true,
    steps: true,
    purges: true,
    checkpoints: true,
    audits: true,
    restarts: true,
};

const ALONE: Built = Built {
    sessions: 1,
    marks: false,
    transactions: false,
    steps: false,
    purges: false,
    checkpoints: false,
    audits: false,
    restarts: false,
};

// The line that is bad and why, with 0 where the bytes are a script.
fn first_bad_of(
    rt: &HostRuntime,
    built: Built,
    mode: Mode,
    bytes: &[u8],
) -> Result<(u64, Cause), Fail> {
    match read_script(rt.alloc(), built, mode, bytes) {
        Ok(_) => Ok((0, Cause::Word)),
        Err(ScriptError::Line { line, cause }) => Ok((line, cause)),
        Err(ScriptError::Memory) => Err(Fail::from("memory is there")),
    }
}

// The same of a program that takes one session alone.
fn first_bad(rt: &HostRuntime, mode: Mode, bytes: &[u8]) -> Result<(u64, Cause), Fail> {
    first_bad_of(rt, ALONE, mode, bytes)
}

#[test]
fn lines_of_the_whole_grammar(rt: HostRuntime) -> Result<(), Fail> {
    let cases: [(&[u8], u64, Cause); 12] = [
        (b"s64& get 1\ns1 begin rr\ns2 commit", 0, Cause::Word),
        (
            b".step 64 1000000\n.purge\n.checkpoint\n.audit\n.restart\n",
            0,
            Cause::Word,
        ),
        (b"s2 get 0", 1, Cause::Document),
        (b"s65 get 0", 1, Cause::Session),
        (b"s01 get 0", 1, Cause::Session),
        (b"s1&& get 1", 1, Cause::Session),
        (b"s1 begin ru", 1, Cause::Word),
        (b"s1 commit ", 1, Cause::Word),
        (b".step 99 0", 1, Cause::Word),
        (b".step 99 1", 1, Cause::Session),
        (b".step 1 1000001", 1, Cause::Word),
        (b".purge ", 1, Cause::Word),
    ];
    for (bytes, line, cause) in cases {
        assert_eq!(rt;
            first_bad_of(&rt, EVERYTHING, Mode::Turns, bytes)?,
            (line, cause)
        );
    }
    Ok(())
}

#[test]
fn sessions_and_their_statements(rt: HostRuntime) -> Result<(), Fail> {
    let bytes = b"s2 begin rc\ns1& get 7\n.step 2 3\ns2 commit\n";
    let script = read_script(rt.alloc(), EVERYTHING, Mode::Turns, bytes)
        .ok()
        .ok_or("a script")?;
    let session = SessionNo(2);
    let lines = [
        Line::Say {
            session,
            driven: true,
        },
        Line::Say {
            session: SessionNo(1),
            driven: false,
        },
        Line::Step { session, times: 3 },
        Line::Say {
            session,
            driven: true,
        },
    ];
    assert_eq!(rt; script.lines(), &lines[..]);
    let [first, last] = script.statements(session) else {
        return Err(Fail::from("two statements"));
    };
    assert!(rt; matches!(first, Statement::Begin(Level::Rc)));
    assert!(rt; matches!(last, Statement::Commit));
    Ok(())
}

#[test]
fn causes_of_lines(rt: HostRuntime) -> Result<(), Fail> {
    let cases: [(&[u8], u64, Cause); 26] = [
        (b"s1 get 1\n\xff\n", 2, Cause::Utf8),
        (b"s2 gets 0 \xc3\n", 1, Cause::Utf8),
        (b"\n#\xff\ns1 gets 1\n", 3, Cause::Word),
        (b"s1& get 1", 1, Cause::Word),
        (b".purge", 1, Cause::Word),
        (b"s1 size 1 2", 1, Cause::Word),
        (b"s1 begin", 1, Cause::Word),
        (b"s1 size 0", 1, Cause::Document),
        (b"s1 get 1 ", 1, Cause::Word),
        (b"s1 delete 1 2", 1, Cause::Word),
        (b"s1  get 1", 1, Cause::Word),
        (b"S1 get 1", 1, Cause::Word),
        (b"\r", 1, Cause::Word),
        // The word comes before the session, and the session before the document.
        (b"sx gets 1", 1, Cause::Word),
        (b"s2 get 0", 1, Cause::Session),
        (b"s01 get 1", 1, Cause::Session),
        (b"s1 get 0", 1, Cause::Document),
        (b"s1 get 01", 1, Cause::Document),
        (b"s1 get 4294967296", 1, Cause::Document),
        (b"s1 get 1\r", 1, Cause::Document),
        (b"s1 insert  1 5", 1, Cause::Document),
        (b"s1 delete x", 1, Cause::Document),
        (b"s1 set x [", 1, Cause::Document),
        (b"s1 insert 1", 1, Cause::Syntax),
        (b"s1 get 1\r\n\ns1 insert 2 1e2\n", 3, Cause::Float),
        (b"s1 insert 1  5", 0, Cause::Word),
    ];
    for (bytes, line, cause) in cases {
        assert_eq!(rt; first_bad(&rt, Mode::Turns, bytes)?, (line, cause));
    }
    Ok(())
}

#[test]
fn causes_of_changes(rt: HostRuntime) -> Result<(), Fail> {
    let cases: [(&[u8], u64, Cause); 26] = [
        (b"s1 insert 1 [1,]", 1, Cause::Syntax),
        (b"s1 set 1", 1, Cause::Syntax),
        (b"s1 insert 1 1.5", 1, Cause::Float),
        (b"s1 set 1 [\"a\",-0]", 1, Cause::Float),
        (b"s1 set 1 {}", 1, Cause::Arguments),
        (b"s1 replace 1 []", 1, Cause::Arguments),
        (b"s1 set 1 [\"$\"]", 1, Cause::Arguments),
        // A text that is missing comes before a path that is none.
        (b"s1 set 1 [\"a\",1,2,3]", 1, Cause::Arguments),
        (b"s1 remove 1 [\"$.a\",1]", 1, Cause::Arguments),
        (b"s1 set 1 [\"a\",1]", 1, Cause::Path),
        (b"s1 remove 1 [\"$.\"]", 1, Cause::Path),
        (b"s1 set 1 [\"$[4294967296]\",1]", 1, Cause::Path),
        (b"s1 set 1 [\"$.a[*]\",1]", 1, Cause::Wildcard),
        (b"s1 remove 1 [\"$**.a\"]", 1, Cause::Wildcard),
        (b"s1 set 1 [\"$[1 to 3]\",1]", 1, Cause::Range),
        (b"s1 remove 1 [\"$[last-2 to last]\"]", 1, Cause::Range),
        (b"s1 remove 1 [\"$\"]", 1, Cause::Root),
        (b"s1 get 1\ns1 remove 1 [\"$.a\",\"$\"]", 2, Cause::Root),
        // The paths are judged one after the other.
        (b"s1 remove 1 [\"$\",\"$[*]\"]", 1, Cause::Root),
        (b"s1 remove 1 [\"$[*]\",\"$\"]", 1, Cause::Wildcard),
        (b"s1 set 1 [\"$[1 to 2]\",1,\"a\",2]", 1, Cause::Range),
        (b"s1 set 1 [\"a\",1,\"$[1 to 2]\",2]", 1, Cause::Path),
        (b"s1 set 1 [\"$\",1]", 0, Cause::Word),
        (b"s1 replace 1  [ \"$.a\" , {\"b\":[1]} ]", 0, Cause::Word),
        (
            b"s1 remove 4294967295 [\"$[last]\",\"$.\\\"a b\\\"\"]",
            0,
            Cause::Word,
        ),
        (b"s1 delete 1\r\n", 0, Cause::Word),
    ];
    for (bytes, line, cause) in cases {
        assert_eq!(rt; first_bad(&rt, Mode::Turns, bytes)?, (line, cause));
    }
    Ok(())
}

// So many of the same bytes, between others.
fn repeated(
    rt: &HostRuntime,
    front: &[u8],
    (bytes, count): (&[u8], u32),
    back: &[u8],
) -> Result<Vec<u8>, Fail> {
    let mut all = Vec::from_slice(rt.alloc(), front)?;
    for _ in 0..count {
        all.extend_from_slice(bytes)?;
    }
    all.extend_from_slice(back)?;
    Ok(all)
}

#[test]
fn causes_of_long_lines(rt: HostRuntime) -> Result<(), Fail> {
    let cases: [(&[u8], (&[u8], u32), &[u8], Cause); 11] = [
        (b"s1 insert 1 ", (b"[", 101), b"", Cause::Deep),
        (b"s1 set 1 [\"a\",", (b"[", 100), b"", Cause::Deep),
        (b"s1 insert 1 ", (b"[", 100), b"", Cause::Syntax),
        (b"s1 insert 1 {\"", (b"k", 65_536), b"\":1}", Cause::Key),
        (b"s1 set 1 [\"$.", (b"k", 65_536), b"\",1]", Cause::Key),
        // A later path that is none, of the same text, comes before the long key.
        (
            b"s1 set 1 [\"$.",
            (b"k", 65_536),
            b"[*]\",1]",
            Cause::Wildcard,
        ),
        (b"s1 set 1 [\"a\",1", (b",\"b\",2", 256), b"]", Cause::Pairs),
        (b"s1 remove 1 [1", (b",\"a\"", 256), b"]", Cause::Arguments),
        (b"s1 remove 1 [\"a\"", (b",\"a\"", 256), b"]", Cause::Pairs),
        (b"s1 remove 1 [\"a\"", (b",\"a\"", 255), b"]", Cause::Path),
        (b"s1 set 1 [\"$", (b".k", 101), b"\",1]", Cause::Path),
    ];
    for (front, middle, back, cause) in cases {
        let bytes = repeated(&rt, front, middle, back)?;
        assert_eq!(rt; first_bad(&rt, Mode::Turns, &bytes)?, (1, cause));
    }
    Ok(())
}

#[test]
fn causes_behind_all_statements(rt: HostRuntime) -> Result<(), Fail> {
    let cases: [(&[u8], Mode, u64, Cause); 6] = [
        (b"s1 get 1", Mode::Turns, 100_001, Cause::Many),
        (b"s2 gets 0", Mode::Threads, 100_001, Cause::Many),
        (b"\xff", Mode::Turns, 100_001, Cause::Utf8),
        (b".purge", Mode::Turns, 100_001, Cause::Word),
        (b".purge", Mode::Threads, 100_001, Cause::Turn),
        (b"#\n\n", Mode::Turns, 0, Cause::Word),
    ];
    for (last, mode, line, cause) in cases {
        let bytes = repeated(&rt, b"", (b"s1 get 1\n", 100_000), last)?;
        assert_eq!(rt; first_bad(&rt, mode, &bytes)?, (line, cause));
    }
    assert_eq!(rt;
        first_bad(&rt, Mode::Threads, b".step x")?,
        (1, Cause::Turn)
    );
    Ok(())
}

#[test]
fn statements_in_the_order_of_their_lines(rt: HostRuntime) -> Result<(), Fail> {
    let bytes = b"#\r\ns1 insert 4294967295 null\r\n\
          s1 remove 2 [\"$.a\",\"$[3]\"]\n\ns1 delete 3\ns1 get 7";
    let script = read_script(rt.alloc(), ALONE, Mode::Turns, bytes)
        .ok()
        .ok_or("a script")?;
    let [first, second, third, last] = script.statements(SessionNo(1)) else {
        return Err(Fail::from("four statements"));
    };
    assert!(rt;
        matches!(
            first,
            Statement::Change(Call::Insert(DocId(4_294_967_295), Json::Null))
        )
    );
    assert!(rt;
        matches!(
            second,
            Statement::Change(Call::Change(DocId(2), Edit::Remove(_)))
        )
    );
    assert!(rt; matches!(third, Statement::Change(Call::Delete(DocId(3)))));
    assert!(rt; matches!(last, Statement::Read(Question::Get(DocId(7)))));
    Ok(())
}
