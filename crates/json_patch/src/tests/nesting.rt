// How deep values may nest.
use super::*;

fn repeated(alloc: Global, part: &str, count: usize) -> Result<String, Fail> {
    let mut text = String::new(alloc);
    for _ in 0..count {
        text.push_str(part)?;
    }
    Ok(text)
}

// A value in so many lists.
fn nested(alloc: Global, lists: usize, inner: &str) -> Result<String, Fail> {
    let opened = repeated(alloc, "[", lists)?;
    let closed = repeated(alloc, "]", lists)?;
    Ok(format!(in alloc; "{}{inner}{}", opened.as_str(), closed.as_str())?)
}

// Whether so many lists nest too deep where a path leads in a document.
fn nests_too_deep(alloc: Global, text: &str, path: &str, lists: usize) -> Result<bool, Fail> {
    let value = nested(alloc, lists, "")?;
    let edit = edit_of(alloc, Verb::Set, &[(path, value.as_str())])?;
    is_too_deep(alloc, &stored(alloc, text)?, &edit)
}

#[test]
fn a_hundred_containers_are_the_most(rt: HostRuntime) -> Result<(), Fail> {
    let alloc = rt.alloc();
    let letters = repeated(alloc, "k", 300)?;
    let letters = format!(in alloc; "\"{}\"", letters.as_str())?;
    let legs = repeated(alloc, "[0]", 60)?;
    let path = format!(in alloc; "${}", legs.as_str())?;
    // A number has no room for a list. 41 nested lists take 284 bytes, and the letters 302.
    for inner in ["1", letters.as_str()] {
        let text = nested(alloc, 60, inner)?;
        for (lists, is_deep) in [(41, true), (40, false)] {
            let found = nests_too_deep(alloc, text.as_str(), path.as_str(), lists)?;
            assert_eq!(rt; found, is_deep, "{lists} lists for {inner}");
        }
    }
    Ok(())
}

// A text of 700 letters alone in an object: its entry stands at 9, and it from 13 to 715.
fn with_letters(alloc: Global) -> Result<String, Fail> {
    let letters = repeated(alloc, "k", 700)?;
    Ok(format!(in alloc; "{{\"a\":\"{}\"}}", letters.as_str())?)
}

#[test]
fn a_value_nests_too_deep_alone(rt: HostRuntime) -> Result<(), Fail> {
    let alloc = rt.alloc();
    let text = with_letters(alloc)?;
    // Position 0 of a text is the text itself, so that it adds no depth.
    let cases: [(&str, usize, bool); 4] = [
        ("$.a", 100, true),
        ("$.a", 99, false),
        ("$.a[0]", 100, true),
        ("$.a[0]", 99, false),
    ];
    for (path, lists, is_deep) in cases {
        let found = nests_too_deep(alloc, text.as_str(), path, lists)?;
        assert_eq!(rt; found, is_deep, "{lists} lists at {path}");
    }
    Ok(())
}

#[test]
fn a_value_that_nests_too_deep_is_replaced_again(rt: HostRuntime) -> Result<(), Fail> {
    let alloc = rt.alloc();
    // 100 lists take 99 times 7 and 4 bytes, none of them a k, and with the object they are too
    // many.
    let deep = nested(alloc, 100, "")?;
    let pairs = [("$.a", deep.as_str()), ("$.a", "5")];
    let text = with_letters(alloc)?;
    let mut bytes = stored(alloc, text.as_str())?;
    let runs = Wanted::Runs(&[(9, 2), (13, 697)]);
    let row = (
        text.as_str(),
        Verb::Set,
        pairs.as_slice(),
        runs,
        r#"{"a":5}"#,
    );
    assert!(rt; is_stored(alloc, row)?, "in the place of the letters");
    // Where 5 was there before, the letters are its room.
    assert_eq!(rt; step(alloc, &mut bytes, "$.a", "5")?, 2);
    let five = r#"{"a":5}"#;
    let row = (five, Verb::Set, pairs.as_slice(), Wanted::Same, five);
    assert!(rt; is_stored_in(alloc, bytes, row)?, "in the place of 5");
    // The second pair finds nothing, and the first one stays.
    let pairs = [("$.a", deep.as_str()), ("$.x.y", "5")];
    let edit = edit_of(alloc, Verb::Set, &pairs)?;
    let found = is_too_deep(alloc, &stored(alloc, text.as_str())?, &edit)?;
    assert!(rt; found, "beside a pair that finds nothing");
    Ok(())
}
