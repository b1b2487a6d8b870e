use crate::PageBuf;
use std::test::Fail;

#[test]
fn bytes_are_written_and_copied(rt: HostRuntime) -> Result<(), Fail> {
    let mut page = PageBuf::new(rt.alloc())?;
    assert_eq!(rt; page.bytes().len(), 16_384);
    page.bytes_mut()[0] = 7;
    page.patch(16_382, &[8, 9]);
    let mut copy = PageBuf::new(rt.alloc())?;
    copy.copy_from(&page);
    assert_eq!(rt; copy.bytes()[0], 7);
    assert_eq!(rt; copy.bytes()[1], 0);
    assert_eq!(rt; copy.bytes()[16_382], 8);
    assert_eq!(rt; copy.bytes()[16_383], 9);
    Ok(())
}
