//! Values put into documents, worked by hand, and what isn't copied.
use crate::laid;
use json_binary::{encode, root, value_bytes};
use json_tree::{Json, List, Text, Whole, from_text};
use std::alloc::Global;
use std::test::Fail;

/// The value's kind and bytes that a document has with another value at the end of the positions.
fn put(
    alloc: Global,
    bytes: &[u8],
    positions: &[usize],
    value: &Json,
) -> Result<Option<Vec<u8>>, Fail> {
    if bytes.is_empty() {
        return Ok(None);
    }
    let value = value_bytes(alloc, value)?;
    match laid(alloc, bytes, root(bytes), positions, value, 100)? {
        Some(whole) => {
            let mut out = whole.bytes;
            out.insert(0, whole.kind.code())?;
            Ok(Some(out))
        }
        None => Ok(None),
    }
}

#[test]
fn a_value_is_put_into_copied_bytes(rt: HostRuntime) -> Result<(), Fail> {
    // `[[1],2]`, `{"a":1000,"b":"wxyz"}`, and `["a",1]` with a gap in front of the text
    let list: [u8; 18] = [2, 2, 0, 17, 0, 2, 10, 0, 5, 2, 0, 1, 0, 7, 0, 5, 1, 0];
    let object: [u8; 26] = [
        0, 2, 0, 25, 0, 18, 0, 1, 0, 19, 0, 1, 0, 5, 0xe8, 3, 12, 20, 0, b'a', b'b', 4, b'w', b'x',
        b'y', b'z',
    ];
    let gapped: [u8; 14] = [2, 2, 0, 13, 0, 12, 11, 0, 5, 1, 0, 0xee, 1, b'a'];
    let cases: [(&[u8], &[usize], &str, &[u8]); 6] = [
        (&list, &[], "null", &[4, 0]),
        (
            &list,
            &[0, 0],
            "\"abc\"",
            &[
                2, 2, 0, 21, 0, 2, 10, 0, 5, 2, 0, 1, 0, 11, 0, 12, 7, 0, 3, b'a', b'b', b'c',
            ],
        ),
        (&list, &[0], "-2", &[2, 2, 0, 10, 0, 5, 0xfe, 0xff, 5, 2, 0]),
        (
            &object,
            &[0],
            "\"v\"",
            &[
                0, 2, 0, 27, 0, 18, 0, 1, 0, 19, 0, 1, 0, 12, 20, 0, 12, 22, 0, b'a', b'b', 1,
                b'v', 4, b'w', b'x', b'y', b'z',
            ],
        ),
        (
            &object,
            &[1],
            "true",
            &[
                0, 2, 0, 20, 0, 18, 0, 1, 0, 19, 0, 1, 0, 5, 0xe8, 3, 4, 1, 0, b'a', b'b',
            ],
        ),
        (
            &gapped,
            &[1],
            "2",
            &[2, 2, 0, 12, 0, 12, 10, 0, 5, 2, 0, 1, b'a'],
        ),
    ];
    for (bytes, positions, text, new) in cases {
        let value = from_text(rt.alloc(), text)?;
        match put(rt.alloc(), bytes, positions, &value)? {
            Some(out) => assert_eq!(rt; out.as_slice(), new, "{text} in {bytes:?}"),
            None => assert!(rt; false, "{text} in {bytes:?}"),
        }
    }
    Ok(())
}

#[test]
fn what_is_spelled_otherwise_is_not_copied(rt: HostRuntime) -> Result<(), Fail> {
    // `[x,1]` of the value `x`: 1000 as int32; "a" with a length in two groups; `[true]` with a
    // gap, and in the large form.
    let cases: [&[u8]; 4] = [
        &[2, 2, 0, 14, 0, 7, 10, 0, 5, 1, 0, 0xe8, 3, 0, 0],
        &[2, 2, 0, 13, 0, 12, 10, 0, 5, 1, 0, 0x81, 0, b'a'],
        &[2, 2, 0, 18, 0, 2, 10, 0, 5, 1, 0, 1, 0, 8, 0, 4, 1, 0, 0],
        &[
            2, 2, 0, 23, 0, 3, 10, 0, 5, 1, 0, 1, 0, 0, 0, 13, 0, 0, 0, 4, 1, 0, 0, 0,
        ],
    ];
    let value = from_text(rt.alloc(), "2")?;
    for bytes in cases {
        assert!(rt;
            put(rt.alloc(), bytes, &[1], &value)?.is_none(),
            "{bytes:?}"
        );
    }
    // Nothing stands at these positions.
    assert!(rt; put(rt.alloc(), &[5, 1, 0], &[0], &value)?.is_none());
    assert!(rt; put(rt.alloc(), &[2, 0, 0, 4, 0], &[0], &value)?.is_none());
    Ok(())
}

fn text_and_number(alloc: Global, letters: usize, number: u64) -> Result<Json, Fail> {
    let text = "u".repeat(alloc, letters)?;
    let mut list = List::new(alloc);
    list.push(Json::Text(Text::new(text)))?;
    list.push(Json::Number(Whole::from_u64(number)))?;
    Ok(Json::List(list))
}

#[test]
fn a_container_grows_past_65535_bytes_and_back(rt: HostRuntime) -> Result<(), Fail> {
    // With a number in its entry the small form has 65,535 bytes, with one behind it 65,539.
    let few = text_and_number(rt.alloc(), 65_522, 1)?;
    let many = text_and_number(rt.alloc(), 65_522, 100_000)?;
    let mut small = Vec::new(rt.alloc());
    encode(&few, &mut small)?;
    let mut large = Vec::new(rt.alloc());
    encode(&many, &mut large)?;
    assert_eq!(rt;
        (small.first().copied(), large.first().copied()),
        (Some(2), Some(3))
    );
    let one = Json::Number(Whole::from_u64(1));
    let wide = Json::Number(Whole::from_u64(100_000));
    let Some(grown) = put(rt.alloc(), &small, &[1], &wide)? else {
        assert!(rt; false, "not grown");
        return Ok(());
    };
    assert_eq!(rt; grown.as_slice(), large.as_slice());
    let Some(shrunk) = put(rt.alloc(), &large, &[1], &one)? else {
        assert!(rt; false, "not shrunk");
        return Ok(());
    };
    assert_eq!(rt; shrunk.as_slice(), small.as_slice());
    Ok(())
}
