// Values worked by hand from the rules of a path's text.
use crate::{Leg, Path, PathError};
use std::alloc::{AllocError, Global};
use std::test::Fail;

fn repeated(alloc: Global, part: &str, count: usize) -> Result<String, AllocError> {
    let mut text = String::new(alloc);
    for _ in 0..count {
        text.push_str(part)?;
    }
    Ok(text)
}

#[test]
fn paths_are_printed_in_one_form(rt: HostRuntime) -> Result<(), Fail> {
    for (text, wanted) in [
        ("$", "$"),
        ("$.a[0].b2[last][last-1]", "$.a[0].b2[last][last-1]"),
        ("$._a$1.$", "$._a$1.$"),
        ("$[last-0]", "$[last]"),
        ("$[0000000012]", "$[12]"),
        ("$[4294967295]", "$[4294967295]"),
        // Keys in quotes.
        ("$.\"ab\"", "$.ab"),
        ("$.\"\"", "$.\"\""),
        ("$.\"1a\".\"a b\"", "$.\"1a\".\"a b\""),
        ("$.\"\\u00e9\\n\\\"\\/\"[1]", "$.\"é\\n\\\"/\"[1]"),
        ("$.\"\\ud83d\\uDE00\"", "$.\"😀\""),
    ] {
        let path = Path::parse(rt.alloc(), text)?;
        let mut out = Vec::new(rt.alloc());
        path.print(&mut out)?;
        assert_eq!(rt; out.as_slice(), wanted.as_bytes());
    }
    Ok(())
}

#[test]
fn legs_are_those_of_the_text(rt: HostRuntime) -> Result<(), Fail> {
    let path = Path::parse(rt.alloc(), "$.a[3][last-2]")?;
    assert!(rt; matches!(path.legs(), [Leg::Member(_), Leg::Cell(3), Leg::Last(2)]));
    Ok(())
}

#[test]
fn a_fault_has_its_place(rt: HostRuntime) -> Result<(), Fail> {
    for (text, wanted) in [
        ("", PathError::Syntax(0)),
        ("*", PathError::Syntax(0)),
        ("$ .a", PathError::Syntax(1)),
        ("$.", PathError::Syntax(2)),
        ("$.1", PathError::Syntax(2)),
        ("$.é", PathError::Syntax(2)),
        ("$.a-b", PathError::Syntax(3)),
        ("$[]", PathError::Syntax(2)),
        ("$[-1]", PathError::Syntax(2)),
        ("$[1", PathError::Syntax(3)),
        ("$[1*]", PathError::Syntax(3)),
        ("$[lass]", PathError::Syntax(5)),
        ("$[last", PathError::Syntax(6)),
        ("$[last-]", PathError::Syntax(7)),
        // A number is too wide at its first digit.
        ("$[4294967296]", PathError::Syntax(2)),
        ("$[00000000001", PathError::Syntax(2)),
        ("$[last-99999999999 to 1]", PathError::Syntax(7)),
        // Wildcards.
        ("$.a[*]", PathError::Wildcard(4)),
        ("$**.a", PathError::Wildcard(1)),
        ("$.*", PathError::Wildcard(2)),
        ("$.a*", PathError::Wildcard(3)),
        // Ranges.
        ("$[1 to 3]", PathError::Range(3)),
        ("$[last to 3]", PathError::Range(6)),
        ("$[last-1 to last]", PathError::Range(8)),
        ("$[1 t", PathError::Syntax(3)),
        ("$[ to 1]", PathError::Syntax(2)),
    ] {
        let refusal = Path::parse(rt.alloc(), text).err();
        assert_eq!(rt; refusal, Some(wanted), "at {text}");
    }
    Ok(())
}

#[test]
fn a_fault_in_quotes_has_its_place(rt: HostRuntime) -> Result<(), Fail> {
    for (text, wanted) in [
        ("$.\"a", 4),
        ("$.\"a\\x\"", 5),
        ("$.\"\t\"", 3),
        ("$.\"\\u12g4\"", 7),
        // The second half of a surrogate pair stands behind a first one alone.
        ("$.\"\\udc00\"", 6),
        ("$.\"\\ud800\"", 9),
        ("$.\"\\ud800\\n\"", 10),
        ("$.\"\\uD800\\u0041\"", 11),
        ("$.\"\\ud800\\ud800\"", 12),
    ] {
        let refusal = Path::parse(rt.alloc(), text).err();
        assert_eq!(rt; refusal, Some(PathError::Syntax(wanted)), "at {text}");
    }
    Ok(())
}

#[test]
fn a_path_has_at_most_100_legs(rt: HostRuntime) -> Result<(), Fail> {
    let most = repeated(rt.alloc(), ".a", 100)?;
    for (after, wanted) in [
        ("b", None),
        (".a", Some(PathError::Syntax(201))),
        ("[0]", Some(PathError::Syntax(201))),
        ("*", Some(PathError::Wildcard(201))),
    ] {
        let text = format!(in rt.alloc(); "${}{after}", most.as_str())?;
        let refusal = Path::parse(rt.alloc(), text.as_str()).err();
        assert_eq!(rt; refusal, wanted, "100 legs and {after}");
    }
    Ok(())
}

#[test]
fn a_key_that_is_too_long_is_the_last_fault(rt: HostRuntime) -> Result<(), Fail> {
    for (bytes, after, wanted) in [
        (65_535, "", None),
        (65_536, "", Some(PathError::LongKey)),
        (65_536, "[*]", Some(PathError::Wildcard(65_539))),
    ] {
        let key = repeated(rt.alloc(), "k", bytes)?;
        let text = format!(in rt.alloc(); "$.{}{after}", key.as_str())?;
        let refusal = Path::parse(rt.alloc(), text.as_str()).err();
        assert_eq!(rt; refusal, wanted, "{bytes} bytes and {after}");
    }
    Ok(())
}
