// The worked changes, and the room of a value at its edges.
use super::*;

#[test]
fn the_worked_changes(rt: HostRuntime) -> Result<(), Fail> {
    let alloc = rt.alloc();
    // Each line: path, value (none removes), places that differ, used length behind.
    let cases: [(&str, &str, usize, u32); 5] = [
        ("$.b", "\"a\"", 2, 44),
        ("$.b", "\"wxyz\"", 2, 47),
        ("$.b", "\"abcde\"", 1000, 47),
        ("$.b", "1", 2, 42),
        ("$.a[1]", "5", 1000, 42),
    ];
    let mut bytes = stored(alloc, WORKED)?;
    for (path, value, places, length) in cases {
        assert_eq!(rt;
            step(alloc, &mut bytes, path, value)?,
            places,
            "{path} {value}"
        );
        assert_eq!(rt; used_length(alloc, &bytes)?, length, "{path} {value}");
    }
    let mut bytes = stored(alloc, WORKED)?;
    assert_eq!(rt; step(alloc, &mut bytes, "$.c", "")?, 7);
    assert_eq!(rt; used_length(alloc, &bytes)?, 26);
    Ok(())
}

/// Each step is of the document that the steps before it left: path, value (none removes), places
/// that differ.
type Steps<'a> = &'a [(&'a str, &'a str, usize)];

#[test]
fn the_room_at_its_edges(rt: HostRuntime) -> Result<(), Fail> {
    let alloc = rt.alloc();
    // `b` begins 36 places behind the document's container, `d` 39, and that ends at 43.
    let members = r#"{"a":1,"b":"xy","c":2,"d":"pqr"}"#;
    let cases: [(&str, Steps); 12] = [
        // An inlined value has no room in front of the first value with an offset.
        (
            members,
            &[("$.a", "\"\"", 1000), ("$.a", "5", 1), ("$.a", "1", 1)],
        ),
        // The room of `b` ends at `d`, since `c` is inlined.
        (
            members,
            &[
                ("$.b", "\"xyz\"", 1000),
                ("$.b", "\"zz\"", 2),
                ("$.b", "70000", 1000),
            ],
        ),
        (members, &[("$.b", "7", 2), ("$.b", "\"xy\"", 2)]),
        // An inlined value has the gap behind the value before it.
        (
            members,
            &[
                ("$.c", "\"\"", 1000),
                ("$.b", "\"z\"", 2),
                ("$.c", "\"\"", 3),
            ],
        ),
        // The last value's room ends at the container's size.
        (members, &[("$.d", "\"pqrs\"", 1000), ("$.d", "\"pq\"", 1)]),
        // Behind a removed member its room is free to the one behind it, and none is added.
        (
            members,
            &[
                ("$.b", "", 12),
                ("$.c", "\"zw\"", 4),
                ("$.b", "\"xy\"", 1000),
            ],
        ),
        (
            "[1,\"ab\"]",
            &[
                ("$[0]", "\"\"", 1000),
                ("$[1]", "\"a\"", 1),
                ("$[last]", "-1", 3),
            ],
        ),
        // The root is never changed in place, and a path that enters nothing leads to it.
        (
            "5",
            &[("$", "6", 1000), ("$[0]", "6", 1000), ("$[last]", "5", 0)],
        ),
        // A path's last position on what is no list is the value itself.
        (
            members,
            &[("$.a[0]", "5", 1), ("$.a[0]", "", 0), ("$.a[1]", "5", 1000)],
        ),
        (
            members,
            &[("$.a", "1", 0), ("$.x", "", 0), ("$.x.y", "1", 0)],
        ),
        (
            "{\"a\":[1,[2,\"abc\"]]}",
            &[("$.a[1][1]", "\"ab\"", 1), ("$.a[1][0]", "", 3)],
        ),
        (
            "[[],{}]",
            &[("$[0]", "1", 2), ("$[1]", "{}", 0), ("$[1]", "[]", 1)],
        ),
    ];
    for (text, steps) in cases {
        let mut bytes = stored(alloc, text)?;
        for (path, value, places) in steps {
            let found = step(alloc, &mut bytes, path, value)?;
            assert_eq!(rt; found, *places, "{text} {path} {value}");
        }
    }
    Ok(())
}
