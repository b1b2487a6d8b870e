use super::*;
use engine_base::{CommitNo, DocId, SessionNo};
use std::test::*;

#[test]
fn entries_as_lines(rt: HostRuntime) -> Result<(), Fail> {
    let session = SessionNo(2);
    let statement = 100_000;
    let commits = CommitNo(18_446_744_073_709_551_615);
    let number = CommitNo(10);
    let document = DocId(7);
    let holder = SessionNo(64);
    let reply = Reply::Same;
    let report = Audit::Report {
        docs: 1,
        lobs: 2,
        pieces: 3,
        versions: 4,
    };
    let cases: [(Entry, &[u8]); 13] = [
        (Entry::Start { session, statement }, b"9 s2 start 100000\n"),
        (
            Entry::View { session, commits },
            b"9 s2 view 18446744073709551615\n",
        ),
        (
            Entry::Wait {
                session,
                document,
                holder,
            },
            b"9 s2 wait 7 s64\n",
        ),
        (
            Entry::Did {
                session,
                statement,
                reply,
            },
            b"9 s2 did 100000 same\n",
        ),
        (Entry::Commit { session, number }, b"9 s2 commit 10\n"),
        (
            Entry::Undone {
                session,
                by: Undoer::Rollback,
            },
            b"9 s2 undone rollback\n",
        ),
        (
            Entry::Undone {
                session,
                by: Undoer::Deadlock,
            },
            b"9 s2 undone deadlock\n",
        ),
        (
            Entry::Undone {
                session,
                by: Undoer::End,
            },
            b"9 s2 undone end\n",
        ),
        (Entry::Purged { number }, b"9 purged 10\n"),
        (
            Entry::Audited(report),
            b"9 audit docs 1 lobs 2 pieces 3 versions 4\n",
        ),
        (
            Entry::Audited(Audit::Busy(Who::Session(session))),
            b"9 audit busy s2\n",
        ),
        (
            Entry::Audited(Audit::Busy(Who::Purge)),
            b"9 audit busy purge\n",
        ),
        (
            Entry::Restart {
                commits: CommitNo(0),
            },
            b"9 restart 0\n",
        ),
    ];
    for (entry, line) in cases {
        let mut out = Vec::new(rt.alloc());
        entry_text(9, &entry, &mut out)?;
        assert_eq!(rt; out.as_slice(), line);
    }
    Ok(())
}

#[test]
fn replies_as_texts(rt: HostRuntime) -> Result<(), Fail> {
    let text = Text::new(Vec::from_slice(rt.alloc(), b"[1, 2]")?);
    let mut circle = Circle::new();
    circle.push(SessionNo(64));
    circle.push(SessionNo(2));
    let cases: [(Reply, &[u8]); 16] = [
        (Reply::Deadlock(circle), b"7 s1 did 3 err deadlock s64 s2\n"),
        (
            Reply::NoRoom { need: 14, free: 12 },
            b"7 s1 did 3 err full need 14 free 12\n",
        ),
        (Reply::Inside, b"7 s1 did 3 err open\n"),
        (Reply::Restart, b"7 s1 did 3 err restart\n"),
        (Reply::Large, b"7 s1 did 3 err large\n"),
        (Reply::Part(1000), b"7 s1 did 3 ok part 1000\n"),
        (
            Reply::Sized { size: 47, free: 3 },
            b"7 s1 did 3 size 47 free 3\n",
        ),
        (Reply::Missing, b"7 s1 did 3 err missing\n"),
        (Reply::Same, b"7 s1 did 3 same\n"),
        (Reply::Done, b"7 s1 did 3 ok\n"),
        (Reply::Exists, b"7 s1 did 3 err exists\n"),
        (Reply::Deep, b"7 s1 did 3 err deep\n"),
        (Reply::Full, b"7 s1 did 3 ok full\n"),
        (Reply::Doc(text), b"7 s1 did 3 doc [1, 2]\n"),
        (Reply::Absent, b"7 s1 did 3 none\n"),
        (Reply::Memory, b"7 s1 did 3 err memory\n"),
    ];
    for (reply, line) in cases {
        let session = SessionNo(1);
        let statement = 3;
        let did = Entry::Did {
            session,
            statement,
            reply,
        };
        let mut out = Vec::new(rt.alloc());
        entry_text(7, &did, &mut out)?;
        assert_eq!(rt; out.as_slice(), line);
    }
    Ok(())
}
