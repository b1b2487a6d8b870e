// How runs end.
use super::*;
use statements::Cause;

#[test]
fn what_is_no_command(rt: HostRuntime) -> Result<(), Fail> {
    let cases: [&[&str]; 5] = [
        &[],
        &["run"],
        &["store.lob", "work"],
        &["store.lob", "Run"],
        &["store.lob", "run", "9"],
    ];
    for words in cases {
        let case = Case {
            words,
            ..whole(b"s1 get 1")
        };
        let (status, taken) = outcome(&rt, &case)?;
        assert_eq!(rt; status, Status::Usage);
        assert_eq!(rt; taken.len(), 0);
    }
    Ok(())
}

#[test]
fn a_bad_line_writes_nothing(rt: HostRuntime) -> Result<(), Fail> {
    let cases: [(&[u8], u64, Cause, &str); 3] = [
        (
            b"s1 insert 1 [18446744073709551615,-9223372036854775808]\ns1 insert 2 1.5\n",
            2,
            Cause::Float,
            "script line 2: float",
        ),
        (
            b"s1 insert 1 [18446744073709551615,-9223372036854775808]\ns1 insert 2 1e2\n",
            2,
            Cause::Float,
            "script line 2: float",
        ),
        (
            b"s1 insert 1 1\n\n# 2\ns1 gets 1\ns1 insert 2 1.5\n",
            4,
            Cause::Word,
            "script line 4: word",
        ),
    ];
    for (script, line, cause, text) in cases {
        let (status, taken) = outcome(&rt, &whole(script))?;
        assert_eq!(rt; status, Status::Script { line, cause });
        assert_eq!(rt; status.number(), 2);
        assert_eq!(rt; format!(in rt.alloc(); "{status}")?.as_str(), text);
        assert_eq!(rt; taken.len(), 0);
    }
    Ok(())
}

#[test]
fn a_script_cut_anywhere_is_run_or_refused(rt: HostRuntime) -> Result<(), Fail> {
    let script = b"s1 insert 1 {\"a\": [1, \"\xc3\xa9\"]}\r\n# x\ns1 get 1\n";
    for end in 0..script.len() {
        let (status, _taken) = outcome(&rt, &whole(&script[..end]))?;
        assert!(rt;
            matches!(status, Status::Done | Status::Script { .. }),
            "at {end}"
        );
    }
    Ok(())
}

#[test]
fn faults_of_source_and_sink(rt: HostRuntime) -> Result<(), Fail> {
    let second_read = Case {
        read_fails: &[2],
        ..whole(b"s1 get 1")
    };
    assert_eq!(rt; outcome(&rt, &second_read)?.0, Status::ReadFault);
    let first_write = Case {
        write_fails: &[1],
        ..whole(b"s1 get 1")
    };
    let (status, taken) = outcome(&rt, &first_write)?;
    assert_eq!(rt; status, Status::WriteFault);
    assert_eq!(rt; taken.len(), 0);
    let small = Case {
        room: 10,
        ..whole(b"s1 get 1")
    };
    let (status, taken) = outcome(&rt, &small)?;
    assert_eq!(rt; status, Status::WriteFault);
    assert_eq!(rt; taken.as_slice(), b"1 s1 start".as_slice());
    Ok(())
}

#[test]
fn max_statements(rt: HostRuntime) -> Result<(), Fail> {
    let mut script = Vec::new(rt.alloc());
    for _ in 0..100_000 {
        script.extend_from_slice(b"s1 get 1\n")?;
    }
    let case = Case {
        room: 10_000_000,
        ..whole(&script)
    };
    assert_eq!(rt; outcome(&rt, &case)?.0, Status::Done);
    script.extend_from_slice(b"s1 get x\n")?;
    let (line, cause) = (100_001, Cause::Many);
    assert_eq!(rt;
        outcome(&rt, &whole(&script))?.0,
        Status::Script { line, cause }
    );
    Ok(())
}

#[test]
fn longest_script(rt: HostRuntime) -> Result<(), Fail> {
    let mut script = vec![in rt.alloc(); b'#'; 67_108_864]?;
    assert_eq!(rt; outcome(&rt, &whole(&script))?.0, Status::Done);
    script.push(b'#')?;
    assert_eq!(rt; outcome(&rt, &whole(&script))?.0, Status::TooLong);
    Ok(())
}
