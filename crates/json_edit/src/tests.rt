// Values worked by hand from MySQL's rules for JSON_SET, JSON_REPLACE and JSON_REMOVE.
use crate::{Edit, Pair, Pairs, edit_all, find, remove, replace, set};
use json_path::Path;
use json_tree::{Json, from_text, to_text};
use std::alloc::{AllocError, Global};
use std::test::Fail;

fn text_of(alloc: Global, tree: &Json) -> Result<Vec<u8>, AllocError> {
    let mut text = Vec::new(alloc);
    to_text(tree, &mut text)?;
    Ok(text)
}

#[test]
fn a_path_finds(rt: HostRuntime) -> Result<(), Fail> {
    let alloc = rt.alloc();
    for (tree, path, wanted) in [
        ("[1,[2]]", "$", Some("[1, [2]]")),
        ("[1,[2]]", "$[1][0]", Some("2")),
        ("[1,2]", "$[last-1]", Some("1")),
        ("{\"a\":{\"b\":7}}", "$.a.b", Some("7")),
        ("{\"a\":{\"b\":7}}", "$.a.c", None),
        ("[]", "$[last]", None),
        ("[1]", "$[1]", None),
        ("[1]", "$.a", None),
        // A value that isn't a list stands where its only element would.
        ("5", "$[0]", Some("5")),
        ("{\"a\":1}", "$[last].a", Some("1")),
        ("5", "$[last-1]", None),
    ] {
        let tree = from_text(alloc, tree)?;
        let path_read = Path::parse(alloc, path)?;
        let found = match find(&tree, &path_read) {
            Some(found) => text_of(alloc, found)?,
            None => Vec::new(alloc),
        };
        let wanted = match wanted {
            Some(wanted) => wanted,
            None => "",
        };
        assert_eq!(rt; found.as_slice(), wanted.as_bytes(), "at {path}");
    }
    Ok(())
}

#[test]
fn set_replaces_or_adds(rt: HostRuntime) -> Result<(), Fail> {
    let alloc = rt.alloc();
    for (tree, path, value, wanted, acts) in [
        ("1", "$[last-3]", "9", "1", false),
        ("1", "$[1]", "2", "[1, 2]", true),
        ("1", "$[0]", "5", "5", true),
        ("1", "$", "[]", "[]", true),
        ("[1,2]", "$[last]", "3", "[1, 3]", true),
        ("[1,2]", "$[7]", "3", "[1, 2, 3]", true),
        ("[]", "$[last]", "3", "[]", false),
        ("[1]", "$.a", "3", "[1]", false),
        (
            "{\"a\":{\"b\":[1,2]}}",
            "$.a.b[0]",
            "3",
            "{\"a\": {\"b\": [3, 2]}}",
            true,
        ),
        ("{\"b\":1}", "$.a", "2", "{\"a\": 2, \"b\": 1}", true),
        ("{\"a\":1}", "$.a[1]", "2", "{\"a\": [1, 2]}", true),
        ("{\"a\":1}", "$.b.c", "2", "{\"a\": 1}", false),
        ("{\"a\":[1]}", "$.a[0].b", "2", "{\"a\": [1]}", false),
    ] {
        let mut changed = from_text(alloc, tree)?;
        let path_read = Path::parse(alloc, path)?;
        let acted = set(alloc, &mut changed, &path_read, from_text(alloc, value)?)?;
        assert_eq!(rt; acted, acts, "{tree} at {path}");
        let text = text_of(alloc, &changed)?;
        assert_eq!(rt; text.as_slice(), wanted.as_bytes(), "{tree} at {path}");
    }
    Ok(())
}

#[test]
fn replace_and_remove_act_on_what_is_found(rt: HostRuntime) -> Result<(), Fail> {
    let alloc = rt.alloc();
    for (tree, path, replaced, removed) in [
        (
            "{\"a\":1,\"b\":2}",
            "$.a",
            "{\"a\": 0, \"b\": 2}",
            "{\"b\": 2}",
        ),
        ("[1,2,3]", "$[last-1]", "[1, 0, 3]", "[1, 3]"),
        ("{\"a\":[1]}", "$.a[0]", "{\"a\": [0]}", "{\"a\": []}"),
        // Where nothing is found, nothing changes.
        ("{\"a\":1}", "$.b", "{\"a\": 1}", "{\"a\": 1}"),
        ("[1]", "$[1]", "[1]", "[1]"),
        // A value that isn't a list has no element to take out.
        ("1", "$[0]", "0", "1"),
        ("{\"a\":1}", "$[last]", "0", "{\"a\": 1}"),
    ] {
        let path_read = Path::parse(alloc, path)?;
        let mut changed = from_text(alloc, tree)?;
        let before = changed.copy(alloc)?;
        let acted = replace(&mut changed, &path_read, from_text(alloc, "0")?);
        assert_eq!(rt; acted, !changed.same(&before), "{tree} at {path}");
        let text = text_of(alloc, &changed)?;
        assert_eq!(rt; text.as_slice(), replaced.as_bytes(), "{tree} at {path}");

        let mut changed = from_text(alloc, tree)?;
        let acted = remove(&mut changed, &path_read);
        assert_eq!(rt; acted, !changed.same(&before), "{tree} at {path}");
        let text = text_of(alloc, &changed)?;
        assert_eq!(rt; text.as_slice(), removed.as_bytes(), "{tree} at {path}");
    }
    Ok(())
}

// A pair of a statement.
fn pair(alloc: Global, path: &str, value: &str) -> Result<Pair, Fail> {
    Ok(Pair {
        path: Path::parse(alloc, path)?,
        value: from_text(alloc, value)?,
    })
}

#[test]
fn the_edits_of_a_statement_are_made_from_the_left(rt: HostRuntime) -> Result<(), Fail> {
    let alloc = rt.alloc();
    let tree = from_text(alloc, "{\"a\":1}")?;
    for adding in [true, false] {
        let mut pairs = Vec::new(alloc);
        pairs.push(pair(alloc, "$.b", "[1]")?)?;
        pairs.push(pair(alloc, "$.a", "2")?)?;
        let (edit, wanted) = if adding {
            (Edit::Set(Pairs::new(pairs)), "{\"a\": 2, \"b\": [1]}")
        } else {
            (Edit::Replace(Pairs::new(pairs)), "{\"a\": 2}")
        };
        let text = text_of(alloc, &edit_all(alloc, &tree, &edit)?)?;
        assert_eq!(rt; text.as_slice(), wanted.as_bytes());
    }
    // The tree stays.
    assert_eq!(rt; text_of(alloc, &tree)?.as_slice(), b"{\"a\": 1}".as_slice());
    Ok(())
}
