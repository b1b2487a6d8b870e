// Edits of several pairs or paths.
use super::*;

#[test]
fn replace_acts_on_what_is_found(rt: HostRuntime) -> Result<(), Fail> {
    // The number of `a` stands at 14, and the text of `b` at 21 to 26, the end.
    let text = r#"{"a":1000,"b":"wxyz"}"#;
    let cases: [(&str, &str, Wanted, &str); 7] = [
        (
            "$.b",
            "\"ab\"",
            Wanted::Runs(&[(21, 3)]),
            r#"{"a":1000,"b":"ab"}"#,
        ),
        (
            "$.b",
            "\"abcde\"",
            Wanted::Full,
            r#"{"a":1000,"b":"abcde"}"#,
        ),
        (
            "$.a[0]",
            "5",
            Wanted::Runs(&[(14, 2)]),
            r#"{"a":5,"b":"wxyz"}"#,
        ),
        ("$.a", "1000", Wanted::Same, text),
        ("$.a[1]", "5", Wanted::Same, text),
        ("$.x", "5", Wanted::Same, text),
        ("$", "5", Wanted::Full, "5"),
    ];
    for (path, value, wanted, behind) in cases {
        let pairs = [(path, value)];
        let row = (text, Verb::Replace, pairs.as_slice(), wanted, behind);
        assert!(rt; is_stored(rt.alloc(), row)?, "{path} {value}");
    }
    Ok(())
}

#[test]
fn several_pairs_are_stored_as_one_change(rt: HostRuntime) -> Result<(), Fail> {
    // The number of `a` stands at 18, and the text of `b` at 29 to 34.
    let cases: [Row; 7] = [
        (
            WORKED,
            Verb::Set,
            &[("$.a", "5"), ("$.b", "\"ab\"")],
            Wanted::Runs(&[(18, 2), (29, 3)]),
            r#"{"a":5,"b":"ab","c":"[1, 3, 5, 7]"}"#,
        ),
        (
            WORKED,
            Verb::Set,
            &[("$.a", "5"), ("$.b", "\"abcde\"")],
            Wanted::Full,
            r#"{"a":5,"b":"abcde","c":"[1, 3, 5, 7]"}"#,
        ),
        (
            WORKED,
            Verb::Set,
            &[("$.b", "\"a\""), ("$.b", "\"wxyz\"")],
            Wanted::Same,
            WORKED,
        ),
        // The second value takes what the first one leaves of its room.
        (
            r#"{"a":1,"b":"xy","c":2,"d":"pqr"}"#,
            Verb::Set,
            &[("$.b", "\"z\""), ("$.c", "\"\"")],
            Wanted::Runs(&[(27, 2), (37, 3)]),
            r#"{"a":1,"b":"z","c":"","d":"pqr"}"#,
        ),
        // `b` is inlined in between, and its room is found again behind the keys.
        (
            WORKED,
            Verb::Set,
            &[
                ("$.b", "1"),
                ("$.a", "5"),
                ("$.b", "\"wxyz\""),
                ("$.a", "1000"),
            ],
            Wanted::Same,
            WORKED,
        ),
        (
            WORKED,
            Verb::Set,
            &[("$.a", "5"), ("$.b", "\"ab\""), ("$.a", "1000")],
            Wanted::Runs(&[(29, 3)]),
            r#"{"a":1000,"b":"ab","c":"[1, 3, 5, 7]"}"#,
        ),
        (
            WORKED,
            Verb::Set,
            &[("$", WORKED), ("$.b", "\"ab\"")],
            Wanted::Runs(&[(29, 3)]),
            r#"{"a":1000,"b":"ab","c":"[1, 3, 5, 7]"}"#,
        ),
    ];
    for row in cases {
        assert!(rt; is_stored(rt.alloc(), row)?, "{} to {}", row.0, row.4);
    }
    Ok(())
}

#[test]
fn pairs_that_meet(rt: HostRuntime) -> Result<(), Fail> {
    // The entry of `a` stands at 13, and the number of `b` at 30 within the object from 21 to 33.
    let text = r#"{"a":{"b":1},"c":"xy"}"#;
    let cases: [(&[(&str, &str)], Wanted, &str); 5] = [
        (&[("$.a", r#"{"b":2}"#), ("$.a.b", "1")], Wanted::Same, text),
        (&[("$.a.b", "2"), ("$.a", r#"{"b":1}"#)], Wanted::Same, text),
        (
            &[("$.a", r#"{"b":2}"#), ("$.a.b", "3")],
            Wanted::Runs(&[(30, 1)]),
            r#"{"a":{"b":3},"c":"xy"}"#,
        ),
        // The place in `a` is gone behind the second pair.
        (
            &[("$.a.b", "2"), ("$.a", "7")],
            Wanted::Runs(&[(13, 2), (30, 1)]),
            r#"{"a":7,"c":"xy"}"#,
        ),
        // The last pair would add a member to the object that the first one put.
        (
            &[("$.a", "{}"), ("$.c", "\"x\""), ("$.a.b", "1")],
            Wanted::Full,
            r#"{"a":{"b":1},"c":"x"}"#,
        ),
    ];
    for (pairs, wanted, behind) in cases {
        let row = (text, Verb::Set, pairs, wanted, behind);
        assert!(rt; is_stored(rt.alloc(), row)?, "to {behind}");
    }
    Ok(())
}

#[test]
fn a_place_that_leads_into_the_new_list(rt: HostRuntime) -> Result<(), Fail> {
    let alloc = rt.alloc();
    // The entry of `a` stands at 9. Behind it, from 13 to 24, was its text, and is now its room.
    let mut bytes = stored(alloc, r#"{"a":"0123456789"}"#)?;
    assert_eq!(rt; step(alloc, &mut bytes, "$.a", "5")?, 2);
    // `$.a[0]` is 5 before and behind: first it is `a` itself, then the new list's element.
    let row: Row = (
        r#"{"a":5}"#,
        Verb::Set,
        &[("$.a[0]", "6"), ("$.a", "[5]")],
        Wanted::Runs(&[(9, 2), (13, 7)]),
        r#"{"a":[5]}"#,
    );
    assert!(rt; is_stored_in(alloc, bytes, row)?);
    Ok(())
}

#[test]
fn pairs_that_find_nothing(rt: HostRuntime) -> Result<(), Fail> {
    // A pair that finds nothing adds nothing, but for the one where the change is full.
    let cases: [Row; 8] = [
        (
            WORKED,
            Verb::Set,
            &[("$.x.y", "1"), ("$.b", "\"ab\"")],
            Wanted::Runs(&[(29, 3)]),
            r#"{"a":1000,"b":"ab","c":"[1, 3, 5, 7]"}"#,
        ),
        (
            WORKED,
            Verb::Set,
            &[("$.a", "5"), ("$.a[last-5]", "1")],
            Wanted::Runs(&[(18, 2)]),
            r#"{"a":5,"b":"wxyz","c":"[1, 3, 5, 7]"}"#,
        ),
        // The number of the first element stands at 6.
        (
            "[1,2,3]",
            Verb::Set,
            &[("$[last-5]", "9"), ("$[0]", "7")],
            Wanted::Runs(&[(6, 1)]),
            "[7,2,3]",
        ),
        (
            WORKED,
            Verb::Replace,
            &[("$.x", "1"), ("$.b", "\"ab\"")],
            Wanted::Runs(&[(29, 3)]),
            r#"{"a":1000,"b":"ab","c":"[1, 3, 5, 7]"}"#,
        ),
        (
            WORKED,
            Verb::Replace,
            &[("$.a", "5"), ("$.a[1]", "6"), ("$.b", "\"ab\"")],
            Wanted::Runs(&[(18, 2), (29, 3)]),
            r#"{"a":5,"b":"ab","c":"[1, 3, 5, 7]"}"#,
        ),
        (
            WORKED,
            Verb::Set,
            &[("$.a", "5"), ("$.a[1]", "6"), ("$.b", "\"ab\"")],
            Wanted::Full,
            r#"{"a":[5,6],"b":"ab","c":"[1, 3, 5, 7]"}"#,
        ),
        (
            WORKED,
            Verb::Replace,
            &[("$.x", "1"), ("$.a[1]", "6"), ("$.b.c", "2")],
            Wanted::Same,
            WORKED,
        ),
        (
            WORKED,
            Verb::Set,
            &[("$.x.y", "1"), ("$.a.x", "2"), ("$.b[last-1]", "3")],
            Wanted::Same,
            WORKED,
        ),
    ];
    for row in cases {
        assert!(rt; is_stored(rt.alloc(), row)?, "{} to {}", row.0, row.4);
    }
    Ok(())
}

#[test]
fn several_removals_are_made_in_place(rt: HostRuntime) -> Result<(), Fail> {
    let cases: [Row; 6] = [
        (
            WORKED,
            Verb::Remove,
            &[("$.c", ""), ("$.b", "")],
            Wanted::Runs(&[(1, 1), (9, 3), (13, 6)]),
            r#"{"a":1000}"#,
        ),
        (
            WORKED,
            Verb::Remove,
            &[("$.x", ""), ("$.c", "")],
            Wanted::Runs(&[(1, 1), (13, 6)]),
            r#"{"a":1000,"b":"wxyz"}"#,
        ),
        // The second path is of the list that the first one leaves.
        (
            "[1,2,3]",
            Verb::Remove,
            &[("$[0]", ""), ("$[0]", "")],
            Wanted::Runs(&[(1, 1), (6, 1), (9, 1)]),
            "[3]",
        ),
        (
            WORKED,
            Verb::Remove,
            &[("$.c", ""), ("$.x.y", ""), ("$.b", "")],
            Wanted::Runs(&[(1, 1), (9, 3), (13, 6)]),
            r#"{"a":1000}"#,
        ),
        // Behind the first path the second one finds nothing.
        (
            "[1,2,3]",
            Verb::Remove,
            &[("$[2]", ""), ("$[2]", ""), ("$[0]", "")],
            Wanted::Runs(&[(1, 1), (6, 1)]),
            "[2]",
        ),
        (
            WORKED,
            Verb::Remove,
            &[("$.x", ""), ("$.a[0]", ""), ("$.b.c", "")],
            Wanted::Same,
            WORKED,
        ),
    ];
    for row in cases {
        assert!(rt; is_stored(rt.alloc(), row)?, "{} to {}", row.0, row.4);
    }
    Ok(())
}
