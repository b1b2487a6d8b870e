use crate::{NULL_PAGE, PageNo};

/// A place in a page, at that byte from 0. The null address leads nowhere.
#[derive(Clone, Copy, Debug, PartialEq, Eq)]
pub struct Addr {
    pub page: PageNo,
    pub at: u16,
}

impl Addr {
    /// The null address.
    pub const NULL: Addr = Addr {
        page: PageNo(NULL_PAGE),
        at: 0,
    };
}
