use engine_base::PageNo;

/// One write of a group: these bytes, over those of the page from byte `at` on. It borrows the
/// bytes where the group's frame has them.
#[derive(Clone, Copy, Debug)]
pub struct PageWrite<'a> {
    pub page: PageNo,
    pub at: u16,
    pub bytes: &'a [u8],
}
